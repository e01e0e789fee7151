//! The calls of a root are events of the network: the root is after each what the network then has of its auctioneer, and what
//! it sends is what the network sends.

ghost use Rattle.std.specs.Prelude.{◌≡◌, ◌⊎◌, ℕ, ◌<◌, true, false, [], ◌∷◌, ◌++◌, replicate};
ghost use Rattle.pm_base.specs.Limits.{most_nodes};
ghost use Rattle.pm_bid.specs.Bids.{zeros};
ghost use Rattle.pm_market.specs.Lists.{Lists, parent, IsNode};
ghost use Rattle.pm_net.specs.Pricing.{Pricing};
ghost use Rattle.pm_net.specs.Network.{Network, start_network, sent_bid};
ghost use Rattle.pm_net.specs.Events.{Event, network_step, network_after};
ghost use Rattle.pm_net_plan.specs.Places.{Numbering, IsNumbering};
ghost use Rattle.pm_relay.specs.Roots.{RootValue, newest_index, RootComesBack, with_root_bid, LooksForClearing, RootCleared, NotCleared};
ghost use Rattle.pm_relay.specs.declared.fault.RootFault.{RootFault};
ghost use Rattle.pm_relay_net.specs.Elsewhere.{IsElsewhere};
ghost use Rattle.pm_relay_net.specs.Heads.{AddsByPlaces};
ghost use Rattle.pm_relay_net.specs.RelayIs.{told_demand};
ghost use Rattle.pm_relay_net.specs.RootIs.{RootIs, root_prices};

/// A law: a root that comes up for the first time is what a network in which nothing was sent has of its auctioneer, and one
/// that comes back is what the network has of it after its restart. It comes back with its newest index and its numbers.
pub fn roots_come_up()
    ensures first { (lists : Lists) (p : Pricing) (numbering : Numbering) (r : RootValue) →
        IsNumbering lists numbering → RootComesBack p.steps 0 (replicate most_nodes 0) r →
        RootIs p numbering (start_network p) r }
    ensures again { (lists : Lists) (p : Pricing) (numbering : Numbering) (net : Network) (k : ℕ)
        (old new : RootValue) → IsNumbering lists numbering → RootIs p numbering net old →
        RootComesBack p.steps (newest_index old) old.recorded new →
        RootIs p numbering (network_step lists p net (Event.Restarts 0 k)) new }
{}

/// A law: a root that learns a child's bid is after it what the network has of its auctioneer once it took that bid, or once
/// it took it and has its newest clearing again.
pub fn roots_learn()
    ensures { (lists : Lists) (p : Pricing) (numbering : Numbering) (net : Network) (x k : ℕ)
        (old new : RootValue) → IsNumbering lists numbering → AddsByPlaces p numbering →
        IsNode lists x → parent lists x ≡ 0 → RootIs p numbering net old →
        ((sent_bid p net x k).gone ≡ true → (sent_bid p net x k).demand ≡ zeros p.steps) →
        LooksForClearing (with_root_bid old (numbering.place x) (sent_bid p net x k).number
        (told_demand (sent_bid p net x k))) new →
        RootIs p numbering (network_step lists p net (Event.TakesBid x k)) new
        ⊎ RootIs p numbering (network_after lists p net
        (Event.TakesBid x k ∷ Event.Rebuilds 0 ∷ [])) new }
{}

/// A law: a root that clears does what the network's auctioneer does, and each child is sent the same. It also does so if it
/// stops before a price is on its way. Where it refuses, the network's may not clear either, unless its numbers are at their
/// end.
pub fn roots_clear()
    ensures clears { (lists : Lists) (p : Pricing) (numbering : Numbering) (net : Network)
        (index step : ℕ) (old new : RootValue) → IsNumbering lists numbering →
        AddsByPlaces p numbering → RootIs p numbering net old →
        RootCleared old new index step →
        RootIs p numbering (network_step lists p net Event.Clears) new
        × (index ≡ (network_step lists p net Event.Clears).last_number 0)
        × ((x : ℕ) → IsNode lists x → parent lists x ≡ 0 →
        (network_step lists p net Event.Clears).prices_sent x
        ≡ net.prices_sent x ++ root_prices new (numbering.place x)) }
    ensures stops { (lists : Lists) (p : Pricing) (numbering : Numbering) (net : Network)
        (index step : ℕ) (old new : RootValue) → IsNumbering lists numbering →
        AddsByPlaces p numbering → RootIs p numbering net old →
        RootCleared old new index step →
        RootIs p numbering (network_step lists p net Event.StopsClearing) new }
    ensures refuses { (lists : Lists) (p : Pricing) (numbering : Numbering) (net : Network)
        (r : RootValue) (fault : RootFault) → IsNumbering lists numbering →
        RootIs p numbering net r → NotCleared r fault →
        (fault ≡ RootFault.OutOfNumbers) ⊎ (network_step lists p net Event.Clears ≡ net) }
{}

/// A law: a root that has its newest clearing, and learnt nothing since, tells a child its price again as the network's
/// auctioneer does.
pub fn roots_tell_again()
    ensures { (lists : Lists) (p : Pricing) (numbering : Numbering) (net : Network) (x : ℕ)
        (r : RootValue) → IsNumbering lists numbering → IsNode lists x → parent lists x ≡ 0 →
        RootIs p numbering net r → 0 < r.auction.index → r.auction.changed ≡ false →
        (network_step lists p net (Event.TellsOne x)).prices_sent x
        ≡ net.prices_sent x ++ root_prices r (numbering.place x) }
{}

/// A law: a root stays what the network has of its auctioneer over each event that happens elsewhere.
pub fn roots_are_left_alone()
    ensures { (lists : Lists) (p : Pricing) (numbering : Numbering) (net : Network) (r : RootValue)
        (e : Event) → IsNumbering lists numbering → RootIs p numbering net r →
        IsElsewhere lists 0 e → RootIs p numbering (network_step lists p net e) r }
{}
