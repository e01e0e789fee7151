//! The law of the network: devices, relays and an auctioneer on machines of their own run the market of cuts. Their channels
//! lose, repeat and reorder messages, and they restart.
//!
//! A channel is the list of all messages that were ever sent on it. A node takes any of them, at any time and as often as it
//! likes. Each law is the contract of a function with an empty body. Those of devices with setpoints are in `devices`.
#![tactic(auto)]

ghost use Rattle.std.specs.Prelude.{◌≡◌, ◌⊎◌, ℕ, ◌<◌, ◌≤◌, ℤ, true, false, pos, negsuc, List, [], ◌∷◌, length, Option};
ghost use Rattle.std.specs.Prelude.{Some, None};
ghost use Rattle.pm_base.specs.Cuts.{Cut};
ghost use Rattle.pm_base.specs.Limits.{AreLimits, window_size};
ghost use Rattle.pm_base.specs.declared.limits.Limits.{Limits};
ghost use Rattle.pm_bid.specs.Bids.{zeros};
ghost use Rattle.pm_market.specs.Lists.{Lists, phases, is_member, IsNode, IsLeaf, IsConcentrator, Lawful};
ghost use Rattle.pm_market.specs.State.{State, start, part, last_index, clearings, cleared_cut};
ghost use Rattle.pm_market.specs.Moves.{after_from};
ghost use Rattle.pm_market.specs.Held.{holding};
ghost use Rattle.pm_net.specs.Pricing.{Pricing, GoesByNodes, LimitsGoByDevices, IsChildDevice, HasOneLimit, given_limits, fixed_limits};
ghost use Rattle.pm_net.specs.Messages.{bid_message, price_message};
ghost use Rattle.pm_net.specs.Network.{Network, start_network, sent_price, IsUnbroken};
ghost use Rattle.pm_net.specs.Running.{recorded_number, is_caught_up, can_send, can_clear};
ghost use Rattle.pm_net.specs.Restarts.{can_rebuild};
ghost use Rattle.pm_net.specs.Events.{Event, network_step, network_after, KeepsRunning, RunsOn, IsSameOrNewer};
ghost use Rattle.pm_net.specs.Agrees.{price_of_clearing, HoldsIts, NetworkAgrees, GoesOn, GoesForward};
ghost use Rattle.pm_net.specs.Settled.{IsSettledNetwork, AllTaken};
ghost use Rattle.pm_net.specs.HeldPrice.{goes_by, IsOfItsClearing};
ghost use Rattle.pm_net.specs.TreeAuction.{TreeDemand, IsTreeDemand, add_below, tree_pricing, AreAsGood, with_limits};
ghost use Rattle.pm_net.specs.SmallRuns.{one_relay, run_of, limited_run_of, device_holds, cleared_once, index_held, with_skipped_price, window_sent};
ghost use Rattle.pm_net.specs.SmallRuns.{with_giver, changing_run, with_changed_limits};

mod devices;
mod taken;

pub use devices::{
    setpoints_answer_offers, settled_devices_were_told, small_devices_are_as_worked_out,
};
pub use taken::devices_take_what_is_announced;

/// Each run of a network, with whatever losses, repetitions and restarts, is a legal journal of the market of cuts. Some
/// legal moves lead from the start to a state that the network then stands for. An event goes on from whatever state the
/// network stood for, so the journal of a longer run continues that of a shorter.
pub fn networks_run_the_market()
    ensures run { (lists : Lists) (p : Pricing) (events : List Event) → Lawful lists →
        phases lists ≡ 1 → GoesByNodes lists p →
        GoesOn lists p start (network_after lists p (start_network p) events) }
    ensures event { (lists : Lists) (p : Pricing) (net : Network) (s : State) (e : Event) →
        Lawful lists → phases lists ≡ 1 → GoesByNodes lists p →
        NetworkAgrees lists p net s → GoesOn lists p s (network_step lists p net e) }
{}

/// Every price that was ever sent to a node names the node's own number in the cut of its clearing. It also names the
/// node's local step there. Of two of them the one of the greater index is over no older bid.
pub fn prices_answer_numbered_bids()
    ensures named { (lists : Lists) (p : Pricing) (net : Network) (s : State) (x k : ℕ) →
        NetworkAgrees lists p net s → IsNode lists x →
        k < length (net.prices_sent x) → sent_price net x k
        ≡ price_of_clearing lists p s x (sent_price net x k).index }
    ensures back { (lists : Lists) (p : Pricing) (net : Network) (s : State) (x i j d : ℕ) →
        Lawful lists → NetworkAgrees lists p net s →
        IsNode lists x →
        i < length (net.prices_sent x) → j < length (net.prices_sent x) →
        (sent_price net x i).index ≤ (sent_price net x j).index → IsLeaf lists d →
        cleared_cut s (sent_price net x i).index d ≤ cleared_cut s (sent_price net x j).index d }
{}

/// The limits by which a relay settles for a price are those of the bid that the price answers. This is the bid that the relay
/// sent under the number which the price names, however often the limits have changed since.
pub fn prices_settle_by_their_limits()
    ensures limits { (lists : Lists) (p : Pricing) (net : Network) (s : State) (c k : ℕ) →
        Lawful lists → GoesByNodes lists p → NetworkAgrees lists p net s → IsConcentrator lists c →
        k < length (net.prices_sent c) →
        p.limits c (cleared_cut s (sent_price net c k).index)
        ≡ p.limits c (part lists s c (sent_price net c k).number) }
    ensures given { (lists : Lists) (p : Pricing) (net : Network) (s : State) (c k d : ℕ) →
        Lawful lists → NetworkAgrees lists p net s → IsConcentrator lists c →
        k < length (net.prices_sent c) → IsChildDevice lists c d →
        cleared_cut s (sent_price net c k).index d
        ≡ part lists s c (sent_price net c k).number d }
{}

/// Nobody's place in the journal ever falls. What a node holds is nothing, or a price that is due to it, of no later clearing
/// than the last one passed to it. A price that it is given makes no move if its clearing is not later than that one;
/// otherwise it is the last one then. Only prices of greater indices replace what a node holds, except when the node itself
/// restarts. It may then come back with an older one, and be given those after that one again, or for the first time.
pub fn nobody_goes_back()
    ensures place { (lists : Lists) (p : Pricing) (net : Network) (s : State)
        (goes : GoesOn lists p s net) (old : Network) (x : ℕ) → Lawful lists →
        NetworkAgrees lists p old s → last_index s x ≤ last_index
        (after_from lists s goes.moves) x }
    ensures held { (lists : Lists) (p : Pricing) (net : Network) (s : State) (x : ℕ) →
        NetworkAgrees lists p net s → IsNode lists x →
        HoldsIts lists p s x (net.taken x) × ((net.taken x).index ≤ last_index s x) }
    ensures forward { (lists : Lists) (p : Pricing) (net : Network) (s : State) (x k : ℕ) →
        Lawful lists → GoesByNodes lists p →
        NetworkAgrees lists p net s →
        GoesForward lists p s x (sent_price net x k).index
        (network_step lists p net (Event.TakesPrice x k)) }
    ensures rises { (lists : Lists) (p : Pricing) (net : Network) (e : Event) (x : ℕ) →
        KeepsRunning x e →
        IsSameOrNewer net x (network_step lists p net e) }
    ensures since { (lists : Lists) (p : Pricing) (net : Network) (events : List Event) (x : ℕ) →
        RunsOn x events →
        (net.taken x).index ≤ ((network_after lists p net events).taken x).index }
    ensures restarts { (lists : Lists) (p : Pricing) (net : Network) (x k : ℕ) →
        ((network_step lists p net (Event.Restarts x k)).taken x).index ≤ (net.taken x).index }
{}

/// A device drops the price of a former membership. What a device goes by that never restarted is what the market says that
/// it holds. Whatever price a device came back with, what it goes by is of that price's clearing. It is its own number
/// there and its local step, and is no older than its last join. In a settled network each member goes by its newest bid at
/// its local step over the newest bids of all devices.
pub fn devices_go_by_held_prices()
    ensures held { (lists : Lists) (p : Pricing) (net : Network) (s : State) (d : ℕ) →
        Lawful lists → NetworkAgrees lists p net s → IsLeaf lists d →
        net.restarts d ≡ 0 → goes_by lists net d ≡ holding lists p.local s d }
    ensures of_its_clearing { (lists : Lists) (p : Pricing) (net : Network) (s : State)
        (d step number : ℕ) → Lawful lists →
        NetworkAgrees lists p net s →
        IsLeaf lists d → goes_by lists net d ≡ Some (step, number) →
        IsOfItsClearing lists p net s d step number }
    ensures settled { (lists : Lists) (p : Pricing) (net : Network) (s : State) (d : ℕ) →
        Lawful lists → GoesByNodes lists p →
        NetworkAgrees lists p net s →
        IsSettledNetwork lists net → IsLeaf lists d → is_member lists d (net.counts d) ≡ true →
        goes_by lists net d ≡ Some (p.local net.counts d, net.counts d) }
{}

/// A relay, restarted or not, takes each newer price that was ever sent to it. For this it holds of each child a number
/// that is not below the one in its newest record. It also has that record again if it can.
pub fn relays_take_newer_prices()
    ensures { (lists : Lists) (p : Pricing) (net : Network) (s : State) (c k : ℕ) → Lawful lists →
        NetworkAgrees lists p net s →
        IsConcentrator lists c →
        k < length (net.prices_sent c) → (net.taken c).index < (sent_price net c k).index →
        is_caught_up lists net c ≡ true →
        can_rebuild lists net c ≡ false → (network_step lists p net (Event.TakesPrice c k)).taken c
        ≡ sent_price net c k }
{}

/// Settled is current, also over restarts. A network is settled if each parent holds the newest bid of each child, each node
/// holds the newest price sent to it, and nobody can send anything new. Then the last clearing is over the newest bid of each device,
/// and each member holds its local step over them, at its own newest number. While nothing restarted, a network is settled
/// if no message is left that anybody would take, and nothing new can be sent.
pub fn settled_networks_are_current()
    ensures counted { (lists : Lists) (p : Pricing) (net : Network) (s : State) (d : ℕ) →
        Lawful lists → GoesByNodes lists p →
        NetworkAgrees lists p net s →
        IsSettledNetwork lists net → IsLeaf lists d → cleared_cut s (clearings s) d ≡ net.counts d }
    ensures held { (lists : Lists) (p : Pricing) (net : Network) (s : State) (d : ℕ) →
        Lawful lists → GoesByNodes lists p →
        NetworkAgrees lists p net s →
        IsSettledNetwork lists net → IsLeaf lists d → is_member lists d (net.counts d) ≡ true →
        net.taken d ≡ price_message (net.counts d) (clearings s) (p.local net.counts d) }
    ensures unbroken { (lists : Lists) (p : Pricing) (net : Network) (s : State) → Lawful lists →
        NetworkAgrees lists p net s → IsUnbroken net →
        AllTaken lists p net → IsSettledNetwork lists net }
{}

/// The auction of a tree by its own definition, with limits at any relay, goes by nodes: so all of the above holds of it.
/// Adding up the children in the order of the nodes is one way to add.
pub fn tree_auctions_go_by_nodes()
    ensures goes { (lists : Lists) (a : TreeDemand) → Lawful lists → IsTreeDemand lists a →
        GoesByNodes lists (tree_pricing lists a) }
    ensures in_node_order { (lists : Lists) (a : TreeDemand) → a.add ≡ add_below lists a.steps →
        ((d : ℕ) → a.demand d 0 ≡ zeros a.steps) →
        ((x : ℕ) (cut : Cut) (l : Limits) → a.limits x cut ≡ Some l → AreLimits l) →
        LimitsGoByDevices lists a.limits → IsTreeDemand lists a }
{}

/// Limits that a device gives, which is a child of the relay, go by devices: under each number of that device those of the number.
/// So do fixed ones, and fixed ones at some relays where at the others a device gives them.
pub fn limits_may_change()
    ensures given { (lists : Lists) (limits : ℕ → ℕ → Option Limits) (giver : ℕ → ℕ) →
        ((c : ℕ) → IsChildDevice lists c (giver c) ⊎ HasOneLimit (limits c)) →
        LimitsGoByDevices lists (given_limits limits giver) }
    ensures fixed { (lists : Lists) (limits : ℕ → Option Limits) →
        LimitsGoByDevices lists (fixed_limits limits) }
{}

/// A relay whose limits never bind is a concentrator without limits. Such limits may be taken out and put in: the same
/// offers go up and the same steps come down.
pub fn limits_that_never_bind_change_nothing()
    ensures { (lists : Lists) (p : Pricing) (limits : ℕ → Cut → Option Limits) →
        GoesByNodes lists p →
        AreAsGood lists p limits →
        GoesByNodes lists (with_limits p limits) }
{}

/// Small networks, worked out: what a lost price, a repeated message and a restart do, and why less would not be enough.
pub fn small_networks_are_as_worked_out()
    // Every message comes twice, and the device holds the step of clearing 1 for its bid 1.
    ensures repeated { device_holds
        (Event.Bids 2 ∷ Event.TakesBid 2 0 ∷ Event.TakesBid 2 0 ∷ Event.Sends 1 ∷ Event.Sends 1 ∷
        Event.TakesBid 1 0
        ∷ Event.Clears
        ∷ Event.TakesBid 1 0 ∷ Event.Clears ∷ Event.TakesPrice 1 0 ∷ Event.TakesPrice 1 0 ∷
        Event.TakesPrice 2 0 ∷ Event.TakesPrice 2 0 ∷ [])
        ≡ price_message 1 1 1 }
    // The price to the relay is lost, and the device holds none.
    ensures lost { device_holds (cleared_once (Event.TakesPrice 2 0 ∷ [])) ≡ price_message 0 0 0 }
    // A relay that restarts leaves the price of its newest bid until it has heard its children again, and then passes it on.
    ensures waits { device_holds
        (cleared_once (Event.Restarts 1 0 ∷ Event.TakesPrice 1 0 ∷ Event.TakesPrice 2 0 ∷ []))
        ≡ price_message 0 0 0 }
    ensures rebuilt { device_holds
        (cleared_once
        (Event.Restarts 1 0 ∷ Event.TakesBid 2 0 ∷ Event.Rebuilds 1 ∷ Event.TakesPrice 1 0 ∷
        Event.TakesPrice 2 0 ∷ []))
        ≡ price_message 1 1 1 }
    // A device that left and joined again drops the price of its former membership, though it holds it.
    ensures dropped { goes_by one_relay (run_of one_relay (cleared_once
        (Event.TakesPrice 1 0 ∷ Event.TakesPrice 2 0 ∷ Event.Bids 2 ∷ Event.Bids 2 ∷ []))) 2
        ≡ None }
    // A price that a relay skipped before it restarted is passed on after it: a journal that passes to the relay just what it
    // took, clearing 1 and then 3, cannot go on.
    ensures skipped_is_passed { index_held (with_skipped_price (Event.TakesPrice 2 2 ∷ [])) ≡ 2 }
    // A device that took price 3 does not go back to it, but it does where it restarts itself with the index of price 1.
    ensures not_back { index_held (with_skipped_price
        (Event.TakesPrice 2 1 ∷ Event.TakesPrice 2 2 ∷ [])) ≡ 3 }
    ensures goes_back { index_held (with_skipped_price
        (Event.TakesPrice 2 1 ∷ Event.Restarts 2 0 ∷ Event.TakesPrice 2 2 ∷ [])) ≡ 2 }
    // A relay that stops before its bid 1 is sent has no news then, and no message is left, though nobody is told anything; it
    // has to send that bid again.
    ensures stopped { let net = run_of one_relay
        (Event.Bids 2 ∷ Event.TakesBid 2 0 ∷ Event.StopsBidding 1 ∷ []) in
        (can_send one_relay net 1 ≡ false) × (can_clear one_relay net ≡ false)
        × (net.bids_sent 1 ≡ []) }
    ensures sent_again { device_holds
        (Event.Bids 2 ∷ Event.TakesBid 2 0 ∷ Event.StopsBidding 1 ∷ Event.Restarts 1 0 ∷
        Event.TakesBid 2 0 ∷
        Event.Rebuilds 1
        ∷ Event.Resends 1 ∷ Event.TakesBid 1 0 ∷ Event.Clears ∷ Event.TakesPrice 1 0 ∷
        Event.TakesPrice 2 0 ∷ []) ≡ price_message 1 1 1 }
    // An auctioneer that stops before a price is sent has no news then either; it has to tell its children again.
    ensures untold { let net = run_of one_relay
        (Event.Bids 2 ∷ Event.TakesBid 2 0 ∷ Event.Sends 1 ∷ Event.TakesBid 1 0 ∷
        Event.StopsClearing ∷ []) in
        (can_clear one_relay net ≡ false) × (net.prices_sent 1 ≡ []) }
    ensures told_again { device_holds
        (Event.Bids 2 ∷ Event.TakesBid 2 0 ∷ Event.Sends 1 ∷ Event.TakesBid 1 0 ∷
        Event.StopsClearing ∷
        Event.Restarts 0 0
        ∷ Event.TakesBid 1 0 ∷ Event.Rebuilds 0 ∷ Event.TellsOne 1 ∷ Event.TakesPrice 1 0 ∷
        Event.TakesPrice 2 0 ∷ []) ≡ price_message 1 1 1 }
    // As many bids were sent as the window has, and all are answered. With an older number answered than belongs to the index the window seems full,
    // and no price would ever come to open it.
    ensures seems_full { (can_send one_relay (window_sent window_size) 1 ≡ true)
        × (can_send one_relay (window_sent 0) 1 ≡ false) }
{}

/// Small networks, worked out: limits that change.
pub fn limits_change_as_worked_out()
    // The price of bid 1 settles by the limits of bid 1: by the newest ones it would be passed down as it is.
    ensures by_its_limits { (changing_run (with_changed_limits [])).prices_sent 2
        ≡ price_message 1 1 0 ∷ [] }
    // Nothing goes up before the relay sends. Its next bid is by the new limits, and the price of that bid too.
    ensures not_before { (changing_run (with_changed_limits [])).bids_sent 1
        ≡ bid_message 1 false (pos 5 ∷ pos 5 ∷ []) ∷ [] }
    ensures next_bid { (changing_run (with_changed_limits (Event.Sends 1 ∷ []))).bids_sent 1
        ≡ bid_message 1 false (pos 5 ∷ pos 5 ∷ [])
        ∷ bid_message 2 false (pos 5 ∷ negsuc 2 ∷ []) ∷ [] }
    ensures next_price { (changing_run (with_changed_limits
        (Event.Sends 1 ∷ Event.TakesBid 1 1 ∷ Event.Clears ∷ Event.TakesPrice 1 1
        ∷ []))).prices_sent 2
        ≡ price_message 1 1 0 ∷ price_message 1 2 1 ∷ [] }
    // A bid that is sent again is the bid that it was.
    ensures sent_again { (changing_run (with_changed_limits (Event.Resends 1 ∷ []))).bids_sent 1
        ≡ bid_message 1 false (pos 5 ∷ pos 5 ∷ []) ∷ bid_message 1 false (pos 5 ∷ pos 5 ∷ []) ∷ [] }
    // The same limits again are no news.
    ensures no_news { can_send with_giver
        (changing_run (with_changed_limits (Event.Sends 1 ∷ Event.TakesBid 3 0 ∷ []))) 1
        ≡ false }
    // A relay that restarts sends nothing until it has its limits again, and then has the record with them.
    ensures guarded { can_send with_giver (changing_run (with_changed_limits
        (Event.Sends 1 ∷ Event.Restarts 1 0 ∷ Event.TakesBid 2 0 ∷ []))) 1 ≡ false }
    ensures again { (changing_run (with_changed_limits
        (Event.Sends 1 ∷ Event.TakesBid 1 1 ∷ Event.Clears ∷ Event.Restarts 1 0
        ∷ Event.TakesBid 2 0 ∷ Event.TakesBid 3 0 ∷
        Event.Rebuilds 1 ∷ Event.TakesPrice 1 1 ∷ []))).prices_sent 2
        ≡ price_message 1 1 0 ∷ price_message 1 2 1 ∷ [] }
{}

/// Small networks, worked out: each rule of a node, one by one.
pub fn small_networks_keep_the_rules()
    // Bids have numbers 1, 2, ..; the device leaves by its bid 2.
    ensures numbered { (run_of one_relay (Event.Bids 2 ∷ Event.Bids 2 ∷ [])).bids_sent 2
        ≡ bid_message 1 false (pos 5 ∷ negsuc 2 ∷ []) ∷ bid_message 2 true (pos 0 ∷ pos 0 ∷ []) ∷
        [] }
    // An older bid is not taken.
    ensures newest_bid { ((run_of one_relay
        (Event.Bids 2 ∷ Event.Bids 2 ∷ Event.TakesBid 2 1 ∷ Event.TakesBid 2 0 ∷
        [])).heard 2).number ≡ 2 }
    // A relay between -1 and 6 watts announces 5 twice, since its device would deliver 3 at the second step. The market clears
    // there, and it passes the first step down.
    ensures limited { let net = limited_run_of one_relay (cleared_once (Event.TakesPrice 1 0 ∷ []))
        in
        (net.bids_sent 1 ≡ bid_message 1 false (pos 5 ∷ pos 5 ∷ []) ∷ [])
        × (net.prices_sent 2 ≡ price_message 1 1 0 ∷ []) }
    // The device left while the price was on its way, and its relay heard so; the price is passed by the record all the same, and
    // at the step that the record's sum gives.
    ensures by_record { (limited_run_of one_relay
        (cleared_once (Event.Bids 2 ∷ Event.TakesBid 2 1 ∷ Event.TakesPrice 1 0 ∷
        []))).prices_sent 2
        ≡ price_message 1 1 0 ∷ [] }
    // A child that is gone in the record is told nothing.
    ensures gone { (run_of one_relay
        (Event.Bids 2 ∷ Event.Bids 2 ∷ Event.TakesBid 2 1 ∷ Event.Sends 1 ∷ Event.TakesBid 1 0 ∷
        Event.Clears
        ∷ Event.TakesPrice 1 0 ∷ [])).prices_sent 2 ≡ [] }
    // A price names the receiver's own number: bid 3 of the device, and bid 1 of the relay, which answers it.
    ensures own_number { let net = run_of one_relay
        (Event.Bids 2 ∷ Event.Bids 2 ∷ Event.Bids 2 ∷ Event.TakesBid 2 2 ∷ Event.Sends 1 ∷
        Event.TakesBid 1 0
        ∷ Event.Clears ∷ Event.TakesPrice 1 0 ∷ []) in
        (net.prices_sent 2 ≡ price_message 3 1 1 ∷ [])
        × (net.prices_sent 1 ≡ price_message 1 1 1 ∷ []) × (net.answered 1 ≡ 1) }
    // Without news nothing is sent or cleared; nor is it after a restart, until the children are heard again.
    ensures no_news { (can_send one_relay (run_of one_relay (cleared_once [])) 1 ≡ false)
        × (can_clear one_relay (run_of one_relay
        (cleared_once [])) ≡ false) }
    ensures guarded { (can_send one_relay
        (run_of one_relay (cleared_once (Event.Restarts 1 0 ∷ []))) 1 ≡ false)
        × (can_clear one_relay (run_of one_relay (cleared_once (Event.Restarts 0 0 ∷ [])))
        ≡ false) }
    // A relay that restarts knows its last number, its child's number, and one price with the number that it answers.
    ensures stored { let net = run_of one_relay
        (cleared_once (Event.TakesPrice 1 0 ∷ Event.Restarts 1 0 ∷ [])) in
        (net.last_number 1 ≡ 1) × (recorded_number net 1 2 ≡ 1)
        × (net.taken 1 ≡ price_message 1 1 1) × (net.answered 1 ≡ 1) ×
        (net.restarts 1 ≡ 1) }
    ensures none_stored { let net = run_of one_relay
        (cleared_once (Event.TakesPrice 1 0 ∷ Event.Restarts 1 7 ∷ [])) in
        (net.taken 1 ≡ price_message 0 0 0) × (net.answered 1 ≡ 0) }
    // A device that holds price 1 does not come back with price 3, which was sent to it and which it never took.
    ensures never_newer { index_held (with_skipped_price
        (Event.TakesPrice 2 0 ∷ Event.Restarts 2 1 ∷ []))
        ≡ 1 }
    // The price of a record that can be had again is left for later; that of one which is overtaken is taken alone.
    ensures left_for_later { device_holds
        (cleared_once
        (Event.Restarts 1 0 ∷ Event.TakesPrice 1 0 ∷ Event.TakesBid 2 0 ∷ Event.Rebuilds 1
        ∷ Event.TakesPrice 1 0 ∷ Event.TakesPrice 2 0 ∷ [])) ≡ price_message 1 1 1 }
    ensures overtaken { let net = run_of one_relay
        (cleared_once (Event.Restarts 1 0 ∷ Event.Bids 2 ∷ Event.TakesBid 2 1 ∷ Event.Rebuilds 1
        ∷ Event.TakesPrice 1 0 ∷ [])) in (net.taken 1 ≡ price_message 1 1 1)
        × (net.prices_sent 2 ≡ []) × (net.whole_from 1 ≡ 2) }
    // A relay that stops after it passed the price on has not taken it.
    ensures to_one { let net = run_of one_relay (cleared_once (Event.PassesToOne 2 0 ∷ [])) in
        (net.prices_sent 2 ≡ price_message 1 1 1 ∷ []) × (net.taken 1 ≡ price_message 0 0 0) }
    // A bid that is sent again has its old number.
    ensures again { (run_of one_relay (cleared_once (Event.Resends 1 ∷ []))).bids_sent 1
        ≡ bid_message 1 false (pos 5 ∷ negsuc 2 ∷ []) ∷ bid_message 1 false
        (pos 5 ∷ negsuc 2 ∷ []) ∷ [] }
    // A relay, or an auctioneer, that has its record's numbers alone sends neither its bid nor a price again.
    ensures not_by_numbers { ((run_of one_relay
        (cleared_once (Event.Restarts 1 0 ∷ Event.Resends 1 ∷ []))).bids_sent 1
        ≡ bid_message 1 false (pos 5 ∷ negsuc 2 ∷ []) ∷ [])
        × ((run_of one_relay
        (cleared_once (Event.Restarts 0 0 ∷ Event.TellsOne 1 ∷ []))).prices_sent 1
        ≡ price_message 1 1 1 ∷ []) }
    // A device that left goes by no price, though it holds one.
    ensures left { goes_by one_relay
        (run_of one_relay
        (cleared_once (Event.TakesPrice 1 0 ∷ Event.TakesPrice 2 0 ∷ Event.Bids 2 ∷ []))) 2 ≡ None }
{}
