//! The calls of a relay are events of the network: the relay is after each what the network then has of its node, and what it
//! sends is what the network sends.

ghost use Rattle.std.specs.Prelude.{◌≡◌, ℕ, ◌+◌, ◌<◌, ◌≤◌, ◌⊎◌, true, false, [], ◌∷◌, ◌++◌, replicate, Some};
ghost use Rattle.pm_base.specs.Limits.{most_nodes};
ghost use Rattle.pm_base.specs.declared.limits.Limits.{Limits};
ghost use Rattle.pm_bid.specs.Bids.{zeros};
ghost use Rattle.pm_concentrator.specs.Concentrators.{own_demand};
ghost use Rattle.pm_market.specs.Lists.{Lists, parent, IsNode, IsConcentrator, Lawful};
ghost use Rattle.pm_market.specs.State.{State, no_changes};
ghost use Rattle.pm_net.specs.Pricing.{Pricing, LimitsGoByDevices};
ghost use Rattle.pm_net.specs.Messages.{bid_message};
ghost use Rattle.pm_net.specs.Network.{Network, start_network, sent_bid, sent_price};
ghost use Rattle.pm_net.specs.Restarts.{stored_price};
ghost use Rattle.pm_net.specs.Events.{Event, network_step, network_after};
ghost use Rattle.pm_net.specs.Agrees.{NetworkAgrees};
ghost use Rattle.pm_net_plan.specs.Places.{Numbering, IsNumbering};
ghost use Rattle.pm_relay.specs.Relays.{RelayValue, newest_bid_number, RelayComesBack, with_child_bid, with_new_limits, limits_of_number, LooksForRecord};
ghost use Rattle.pm_relay.specs.Relays.{BidSent, NotSent, TakesPrice};
ghost use Rattle.pm_relay.specs.declared.fault.SendFault.{SendFault};
ghost use Rattle.pm_relay.specs.declared.outcome.PriceOutcome.{PriceOutcome};
ghost use Rattle.pm_relay_net.specs.Elsewhere.{IsElsewhere};
ghost use Rattle.pm_relay_net.specs.Heads.{AddsByPlaces};
ghost use Rattle.pm_relay_net.specs.RelayIs.{RelayIs, LimitsPassBy, GivesLimits, told_demand, update_of, prices_down};

/// A law: a relay that comes up for the first time is what a network in which nothing was sent has of its node, and one that
/// comes back is what the network has of the node after its restart. It comes back with what it gave when it stopped, and
/// with a price that it once took. Its limits are those of its first start, until it hears others.
pub fn relays_come_up()
    ensures first { (lists : Lists) (p : Pricing) (numbering : Numbering) (limits : Limits) (c : ℕ)
        (r : RelayValue) → IsNumbering lists numbering → LimitsGoByDevices lists p.limits →
        p.limits c no_changes ≡ Some limits →
        RelayComesBack p.steps limits 0 0 0 (replicate most_nodes 0) limits r →
        RelayIs p numbering (start_network p) c r }
    ensures again { (lists : Lists) (p : Pricing) (numbering : Numbering) (net : Network)
        (limits under : Limits) (c k : ℕ) (old new : RelayValue) →
        IsNumbering lists numbering → LimitsGoByDevices lists p.limits →
        p.limits c no_changes ≡ Some limits → RelayIs p numbering net c old →
        Some under ≡ limits_of_number old (newest_bid_number old) →
        (stored_price net c k).number ≤ net.last_number c →
        RelayComesBack p.steps limits (newest_bid_number old) (stored_price net c k).number
        (stored_price net c k).index old.recorded under new →
        RelayIs p numbering (network_step lists p net (Event.Restarts c k)) c new }
{}

/// A law: a relay that learns a child's bid, or limits as the bid of the device that gives them, is after it what the network
/// has of its node once it took that bid, or once it took it and has its record again.
pub fn relays_learn()
    ensures limits { (lists : Lists) (p : Pricing) (numbering : Numbering) (net : Network)
        (x k : ℕ) (limits : Limits) (old new : RelayValue) →
        IsNumbering lists numbering → AddsByPlaces p numbering →
        IsNode lists x → RelayIs p numbering net (parent lists x) old →
        (sent_bid p net x k).gone ≡ true → (sent_bid p net x k).demand ≡ zeros p.steps →
        GivesLimits p (parent lists x) x (sent_bid p net x k).number limits →
        LooksForRecord (with_new_limits old (numbering.place x) (sent_bid p net x k).number limits)
        new →
        RelayIs p numbering (network_step lists p net (Event.TakesBid x k)) (parent lists x) new
        ⊎ RelayIs p numbering (network_after lists p net
        (Event.TakesBid x k ∷ Event.Rebuilds (parent lists x) ∷ [])) (parent lists x) new }
    ensures bids { (lists : Lists) (p : Pricing) (numbering : Numbering) (net : Network) (x k : ℕ)
        (old new : RelayValue) →
        IsNumbering lists numbering → AddsByPlaces p numbering →
        IsNode lists x → LimitsPassBy p (parent lists x) x →
        RelayIs p numbering net (parent lists x) old →
        ((sent_bid p net x k).gone ≡ true → (sent_bid p net x k).demand ≡ zeros p.steps) →
        LooksForRecord (with_child_bid old (numbering.place x) (sent_bid p net x k).number
        (told_demand (sent_bid p net x k))) new →
        RelayIs p numbering (network_step lists p net (Event.TakesBid x k)) (parent lists x) new
        ⊎ RelayIs p numbering (network_after lists p net
        (Event.TakesBid x k ∷ Event.Rebuilds (parent lists x) ∷ [])) (parent lists x) new }
{}

/// A law: a relay that sends a bid does what the network's relay does, also if it stops before the bid is on its way. Where it
/// refuses, the network's may not send either, unless its numbers are at their end.
pub fn relays_send()
    ensures sends { (lists : Lists) (p : Pricing) (numbering : Numbering) (net : Network)
        (s : State) (c number : ℕ) (old new : RelayValue) → Lawful lists →
        IsNumbering lists numbering → AddsByPlaces p numbering → NetworkAgrees lists p net s →
        IsConcentrator lists c → RelayIs p numbering net c old → BidSent old new number →
        RelayIs p numbering (network_step lists p net (Event.Sends c)) c new
        × ((network_step lists p net (Event.Sends c)).bids_sent c
        ≡ net.bids_sent c ++ bid_message number false (own_demand new.gathered) ∷ []) }
    ensures stops { (lists : Lists) (p : Pricing) (numbering : Numbering) (net : Network)
        (s : State) (c number : ℕ) (old new : RelayValue) → Lawful lists →
        IsNumbering lists numbering → AddsByPlaces p numbering → NetworkAgrees lists p net s →
        LimitsGoByDevices lists p.limits → IsConcentrator lists c →
        RelayIs p numbering net c old → BidSent old new number →
        RelayIs p numbering (network_step lists p net (Event.StopsBidding c)) c new }
    ensures refuses { (lists : Lists) (p : Pricing) (numbering : Numbering) (net : Network)
        (s : State) (c : ℕ) (r : RelayValue) (fault : SendFault) → Lawful lists →
        IsNumbering lists numbering → NetworkAgrees lists p net s →
        IsConcentrator lists c → RelayIs p numbering net c r → NotSent r fault →
        (fault ≡ SendFault.OutOfNumbers)
        ⊎ (network_step lists p net (Event.Sends c) ≡ net) }
    ensures again { (lists : Lists) (p : Pricing) (numbering : Numbering) (net : Network) (c : ℕ)
        (r : RelayValue) → IsConcentrator lists c → RelayIs p numbering net c r →
        1 ≤ r.gathered.window.last →
        (network_step lists p net (Event.Resends c)).bids_sent c
        ≡ net.bids_sent c ++ bid_message (newest_bid_number r) false (own_demand r.gathered) ∷ [] }
{}

/// A law: a relay that is given a price does what the network's relay does with it, and each child is sent the same.
pub fn relays_take_prices()
    ensures { (lists : Lists) (p : Pricing) (numbering : Numbering) (net : Network) (c k : ℕ)
        (old new : RelayValue) (outcome : PriceOutcome) →
        IsNumbering lists numbering → IsConcentrator lists c → RelayIs p numbering net c old →
        TakesPrice old new (update_of (sent_price net c k)) outcome →
        RelayIs p numbering (network_step lists p net (Event.TakesPrice c k)) c new
        × ((x : ℕ) → IsNode lists x → parent lists x ≡ c →
        (network_step lists p net (Event.TakesPrice c k)).prices_sent x
        ≡ net.prices_sent x
        ++ prices_down old (update_of (sent_price net c k)) outcome (numbering.place x)) }
{}

/// A law: a relay stays what the network has of its node over each event that happens elsewhere.
pub fn relays_are_left_alone()
    ensures { (lists : Lists) (p : Pricing) (numbering : Numbering) (net : Network) (c : ℕ)
        (r : RelayValue) (e : Event) → IsNumbering lists numbering →
        LimitsGoByDevices lists p.limits →
        IsConcentrator lists c →
        RelayIs p numbering net c r → IsElsewhere lists c e →
        RelayIs p numbering (network_step lists p net e) c r }
{}
