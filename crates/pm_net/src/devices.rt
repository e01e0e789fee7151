//! Devices whose agents number the offers of their own control and give it setpoints. The network may lose, repeat and
//! reorder messages, and its nodes may restart.
ghost use Rattle.std.specs.Prelude.{◌≡◌, ℕ, ◌+◌, ◌<◌, ◌≤◌, true, false, pos, negsuc, List, [], ◌∷◌, length};
ghost use Rattle.pm_base.specs.Limits.{window_size};
ghost use Rattle.std.specs.List.{All};
ghost use Rattle.pm_market.specs.Lists.{Lists, phases, is_member, IsLeaf, Lawful};
ghost use Rattle.pm_market.specs.State.{State, start, cleared_cut};
ghost use Rattle.pm_net.specs.Pricing.{Pricing, GoesByNodes};
ghost use Rattle.pm_net.specs.Messages.{PriceMessage, bid_message};
ghost use Rattle.pm_net.specs.Events.{Event, RunsOn};
ghost use Rattle.pm_net.specs.Settled.{IsSettledNetwork};
ghost use Rattle.pm_net.specs.SmallDevices.{devices_of, setpoints_given, offered_once, let_go_by_relay, deliver_3};
ghost use Rattle.pm_net.specs.Agents.{Setpoint, DeviceAgent, setpoints_for};
ghost use Rattle.pm_net.specs.Devices.{AgentIs, IsOfThisMembership, Devices, start_devices, devices_step, devices_after, IsRight, IsOfferWindow, IsGivenNumber};
ghost use Rattle.pm_net.specs.Devices.{DevicesAgree, DevicesGoOn};
ghost use Rattle.pm_net.specs.Devices.{SetpointsRise, IsToldNow};

/// Every setpoint that a device was ever given is right. Its index names a clearing, in whose cut the device has the
/// setpoint's number. Its power is what the device's own bid of this number asks for at the device's local step of this
/// clearing. Of two setpoints the one of the greater index is over no older bid. While a device does not restart, each
/// setpoint has a greater index than those before it. At most 9 offers are kept. An unanswered one is kept until a price
/// names it, or a later one, or the device leaves. Offers of a former membership are not kept, so no price for one gives a
/// setpoint.
pub fn setpoints_answer_offers()
    ensures run { (lists : Lists) (p : Pricing) (events : List Event) → Lawful lists →
        phases lists ≡ 1 → GoesByNodes lists p →
        DevicesGoOn lists p start (devices_after lists p (start_devices p) events) }
    ensures event { (lists : Lists) (p : Pricing) (devices : Devices) (s : State) (e : Event) →
        Lawful lists → phases lists ≡ 1 →
        GoesByNodes lists p →
        DevicesAgree lists p devices s → DevicesGoOn lists p s (devices_step lists p devices e) }
    ensures later { (lists : Lists) (p : Pricing) (s : State) (d : ℕ) (a b : Setpoint) →
        Lawful lists → (devices : Devices) →
        DevicesAgree lists p devices s →
        IsRight lists p s d b → a.index ≤ b.index → (e : ℕ) → IsLeaf lists e →
        cleared_cut s a.index e ≤ cleared_cut s b.index e }
    ensures rising { (lists : Lists) (p : Pricing) (events : List Event) (d : ℕ) → RunsOn d events →
        SetpointsRise (devices_after lists p (start_devices p) events) d }
    ensures few { (agent : DeviceAgent) → IsOfferWindow agent →
        length agent.offers ≤ window_size + 1 }
    ensures membership { (lists : Lists) (p : Pricing) (d count index : ℕ) (agent : DeviceAgent) →
        AgentIs lists p d count index agent →
        All (IsOfThisMembership lists d agent.number) agent.offers }
    ensures given { (agent : DeviceAgent) (price : PriceMessage) → IsOfferWindow agent →
        agent.index < price.index → agent.answered < price.number →
        IsGivenNumber agent.number price.number → length (setpoints_for agent price) ≡ 1 }
{}

/// In a settled network the control of each member that did not restart, and that its parent did not let go since its newest
/// bid, was told a power. It is what this bid asks for at the member's local step over the newest bids of all devices.
pub fn settled_devices_were_told()
    ensures { (lists : Lists) (p : Pricing) (events : List Event) (d : ℕ) → Lawful lists →
        phases lists ≡ 1 → GoesByNodes lists p →
        IsLeaf lists d →
        RunsOn d events → IsSettledNetwork lists
        (devices_after lists p (start_devices p) events).net →
        is_member lists d ((devices_after lists p (start_devices p) events).net.counts d) ≡ true →
        ((devices_after lists p (start_devices p) events).agents d).number
        ≡ (devices_after lists p (start_devices p) events).net.counts d →
        IsToldNow p (devices_after lists p (start_devices p) events) d }
{}

/// A device below a relay, worked out. Its agent gives the numbers 2, 4, 6 and 8; the others are its parent's.
pub fn small_devices_are_as_worked_out()
    // The auction clears at the second step, so the control is told to deliver 3; the price that comes again gives nothing.
    ensures told { setpoints_given
        (offered_once (Event.TakesPrice 1 0 ∷ Event.TakesPrice 2 0 ∷ Event.TakesPrice 2 0 ∷ []))
        ≡ deliver_3 2 1 ∷ [] }
    // Nothing is told to a device that left before the price came.
    ensures left { setpoints_given
        (offered_once (Event.TakesPrice 1 0 ∷ Event.Bids 2 ∷ Event.Bids 2 ∷ Event.Bids 2 ∷
        Event.Bids 2
        ∷ Event.TakesPrice 2 0 ∷ [])) ≡ [] }
    // Nor to one that left and joined again: the price is of its former membership.
    ensures joined_again { setpoints_given
        (offered_once (Event.TakesPrice 1 0 ∷ Event.Bids 2 ∷ Event.Bids 2 ∷ Event.Bids 2 ∷
        Event.Bids 2
        ∷ Event.Bids 2 ∷ Event.Bids 2 ∷ Event.TakesPrice 2 0 ∷ [])) ≡ [] }
    // One that restarts with no index stored is told the same again.
    ensures again { setpoints_given
        (offered_once
        (Event.TakesPrice 1 0 ∷ Event.TakesPrice 2 0 ∷ Event.Restarts 2 7 ∷ Event.TakesPrice 2 0 ∷
        []))
        ≡ deliver_3 2 1 ∷ deliver_3 2 1 ∷ [] }
    // A device that its relay lets go, under number 3, counts no more: the relay announces nothing. The device sends its bid 2
    // again, and the relay does not take it.
    ensures let_go { let devices = devices_of
        (offered_once (let_go_by_relay (Event.TakesBid 2 1 ∷ []))) in
        (devices.net.bids_sent 1
        ≡ bid_message 1 false (pos 5 ∷ negsuc 2 ∷ []) ∷ bid_message 2 false (pos 0 ∷ pos 0 ∷ []) ∷
        [])
        × ((devices.net.heard 2).number ≡ 3) × ((devices.agents 2).number ≡ 2) }
    // It makes its offer anew, under number 4, and is told what to do by that.
    ensures back { setpoints_given
        (offered_once (let_go_by_relay (Event.Bids 2 ∷ Event.TakesBid 2 3 ∷ Event.Sends 1 ∷
        Event.TakesBid 1 2
        ∷ Event.Clears ∷ Event.TakesPrice 1 2 ∷ Event.TakesPrice 2 0 ∷ [])))
        ≡ deliver_3 4 3 ∷ [] }
{}
