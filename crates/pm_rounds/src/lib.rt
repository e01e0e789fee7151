//! The law of rounds: a market settles. A round is a list of events in which each newest message arrives and each node is
//! asked, in any order and any number of times. After so many rounds in which no device makes a bid and no node restarts, the
//! network is settled. Nothing is assumed of times, or of who comes first. Each law is the contract of a function with an empty
//! body, over the definitions of `pm_net`.
#![tactic(auto)]

ghost use Rattle.std.specs.Prelude.{◌≡◌, ℕ, ◌+◌, ◌<◌, ◌≤◌, true, false, List, [], ◌∷◌, length};
ghost use Rattle.std.specs.List.{All};
ghost use Rattle.pm_base.specs.Limits.{window_size};
ghost use Rattle.pm_market.specs.Lists.{Lists, phases, path_depth, is_member, IsLeaf, IsConcentrator, Lawful};
ghost use Rattle.pm_market.specs.State.{State, clearings, cleared_cut};
ghost use Rattle.pm_net.specs.Pricing.{Pricing, GoesByNodes};
ghost use Rattle.pm_net.specs.Messages.{price_message};
ghost use Rattle.pm_net.specs.Network.{Network, start_network};
ghost use Rattle.pm_net.specs.Running.{can_send, can_clear};
ghost use Rattle.pm_net.specs.Restarts.{can_rebuild, can_resend};
ghost use Rattle.pm_net.specs.Events.{Event, network_after};
ghost use Rattle.pm_net.specs.Agrees.{NetworkAgrees};
ghost use Rattle.pm_net.specs.Settled.{IsSettledNetwork};
ghost use Rattle.pm_rounds.specs.Rounds.{AreRounds, AreFullRounds, after_rounds};
ghost use Rattle.pm_rounds.specs.Sent.{AllSent, CanGoOn, IsNoStop, RelaySendsAtOnce};
ghost use Rattle.pm_rounds.specs.Bounds.{round_bound, full_round_bound, rounds_of_depth, rounds_to_clear, RoundsHaveRoom};
ghost use Rattle.pm_rounds.specs.SmallRounds.{restless, restless_pricing, frozen};

/// A law: a network settles from every state that a run can reach, if its relays send each bid as they store it. The run begins
/// at the start. Messages are lost, repeated and reordered in it, any node restarts, and a device or the auctioneer may stop
/// between storing and sending. After more than `full_round_bound` full rounds the network is settled. Each member then holds
/// the price of the newest clearing, over the newest bids of all devices. For relays that stop between storing and sending this
/// is false (`rounds_need_all_sent`).
pub fn runs_settle()
    ensures settles { (lists : Lists) (p : Pricing) (events : List Event)
        (rounds : List (List Event)) → Lawful lists → phases lists ≡ 1 → GoesByNodes lists p →
        All (RelaySendsAtOnce lists) events →
        AreFullRounds lists p (network_after lists p (start_network p) events) rounds →
        full_round_bound lists < length rounds →
        IsSettledNetwork lists
        (after_rounds lists p (network_after lists p (start_network p) events) rounds) }
    ensures held { (lists : Lists) (p : Pricing) (events : List Event) (rounds : List (List Event))
        (d : ℕ) → Lawful lists → phases lists ≡ 1 → GoesByNodes lists p →
        All (RelaySendsAtOnce lists) events →
        AreFullRounds lists p (network_after lists p (start_network p) events) rounds →
        full_round_bound lists < length rounds → IsLeaf lists d →
        is_member lists d ((network_after lists p (start_network p) events).counts d) ≡ true →
        (after_rounds lists p (network_after lists p (start_network p) events) rounds).taken d
        ≡ price_message ((network_after lists p (start_network p) events).counts d)
        ((after_rounds lists p (network_after lists p (start_network p) events)
        rounds).last_number 0)
        (p.local (network_after lists p (start_network p) events).counts d) }
    ensures goes_on { (lists : Lists) (p : Pricing) (events : List Event) → Lawful lists →
        phases lists ≡ 1 → GoesByNodes lists p → All (RelaySendsAtOnce lists) events →
        CanGoOn lists p (network_after lists p (start_network p) events) }
{}

/// A law: a network settles in rounds, from any state with what the clause asks for.
///
/// - `settles`, `held`: if all that was made was sent, more than `round_bound` rounds settle it, and each member holds the price
///   over all bids.
/// - `run`: so it is after a run in which no node stopped between storing and sending.
/// - `stopped`: if each relay can go on, more than `full_round_bound` full rounds settle it.
/// - `in_time`: while no window is full, 3 D + 3 rounds settle a tree with at most D relays one below another.
/// - `cleared_in_time`: then 2 D + 2 rounds bring all bids into the newest clearing.
/// - `there_are`: from each state there are rounds, full ones too, as many as one likes.
pub fn rounds_settle()
    ensures settles { (lists : Lists) (p : Pricing) (net : Network) (s : State)
        (rounds : List (List Event)) → Lawful lists → phases lists ≡ 1 → GoesByNodes lists p →
        NetworkAgrees lists p net s → AllSent lists p net → AreRounds lists p net rounds →
        round_bound lists < length rounds →
        IsSettledNetwork lists (after_rounds lists p net rounds) }
    ensures held { (lists : Lists) (p : Pricing) (net : Network) (s : State)
        (rounds : List (List Event)) (d : ℕ) → Lawful lists → phases lists ≡ 1 →
        GoesByNodes lists p → NetworkAgrees lists p net s → AllSent lists p net →
        AreRounds lists p net rounds → round_bound lists < length rounds → IsLeaf lists d →
        is_member lists d (net.counts d) ≡ true →
        (after_rounds lists p net rounds).taken d
        ≡ price_message (net.counts d) ((after_rounds lists p net rounds).last_number 0)
        (p.local net.counts d) }
    ensures run { (lists : Lists) (p : Pricing) (events : List Event) (rounds : List (List Event)) →
        Lawful lists → phases lists ≡ 1 → GoesByNodes lists p → All IsNoStop events →
        AreRounds lists p (network_after lists p (start_network p) events) rounds →
        round_bound lists < length rounds →
        IsSettledNetwork lists
        (after_rounds lists p (network_after lists p (start_network p) events) rounds) }
    ensures stopped { (lists : Lists) (p : Pricing) (net : Network) (s : State)
        (rounds : List (List Event)) → Lawful lists → phases lists ≡ 1 → GoesByNodes lists p →
        NetworkAgrees lists p net s → CanGoOn lists p net → AreFullRounds lists p net rounds →
        full_round_bound lists < length rounds →
        IsSettledNetwork lists (after_rounds lists p net rounds) }
    ensures in_time { (lists : Lists) (p : Pricing) (net : Network) (s : State) (depth : ℕ)
        (rounds : List (List Event)) → Lawful lists → phases lists ≡ 1 → GoesByNodes lists p →
        ((c : ℕ) → IsConcentrator lists c → path_depth lists c ≤ depth) →
        NetworkAgrees lists p net s → AllSent lists p net → AreRounds lists p net rounds →
        RoundsHaveRoom lists p net rounds → rounds_of_depth depth ≤ length rounds →
        IsSettledNetwork lists (after_rounds lists p net rounds) }
    ensures cleared_in_time { (lists : Lists) (p : Pricing) (net : Network) (s t : State)
        (depth d : ℕ) (rounds : List (List Event)) → Lawful lists → phases lists ≡ 1 →
        GoesByNodes lists p → ((c : ℕ) → IsConcentrator lists c → path_depth lists c ≤ depth) →
        NetworkAgrees lists p net s → AllSent lists p net → AreRounds lists p net rounds →
        RoundsHaveRoom lists p net rounds → rounds_to_clear depth ≤ length rounds →
        NetworkAgrees lists p (after_rounds lists p net rounds) t → IsLeaf lists d →
        cleared_cut t (clearings t) d ≡ net.counts d }
    ensures there_are { (lists : Lists) (p : Pricing) (net : Network) (n : ℕ) →
        (rounds : List (List Event)) × AreRounds lists p net rounds
        × AreFullRounds lists p net rounds × (length rounds ≡ n) }
{}

/// A small market that never settles, worked out. A relay stops between storing and sending eight times, as often as its window
/// has numbers, and then hears a newer bid first. Its window is full of numbers that nobody received, and the record of the last is
/// lost and overtaken (`frozen`). So no number of full rounds settles it (`never`). If it restarts once more and hears just the
/// bid in its record, it goes on (`mended`).
pub fn rounds_need_all_sent()
    ensures frozen { let net = frozen [] in
        (can_send restless net 1 ≡ false) × (can_resend restless net 1 ≡ false)
        × (can_rebuild restless net 1 ≡ false) × (can_clear restless net ≡ false)
        × (net.bids_sent 1 ≡ []) × (net.prices_sent 1 ≡ []) × (net.prices_sent 2 ≡ [])
        × ((net.heard 2).number ≡ window_size + 1) × (net.last_number 1 ≡ window_size)
        × ((net.heard 1).number ≡ 0) }
    ensures never { (rounds : List (List Event)) →
        AreFullRounds restless restless_pricing (frozen []) rounds →
        IsSettledNetwork restless (after_rounds restless restless_pricing (frozen []) rounds) →
        ⊥ }
    ensures mended { (frozen
        (Event.Restarts 1 0 ∷ Event.TakesBid 2 7 ∷ Event.Rebuilds 1 ∷ Event.Resends 1 ∷
        Event.TakesBid 1 0 ∷ Event.Clears ∷ Event.TakesPrice 1 0 ∷ Event.TakesBid 2 window_size ∷
        Event.Sends 1 ∷ Event.TakesBid 1 1 ∷ Event.Clears ∷ Event.TakesPrice 1 1 ∷
        Event.TakesPrice 2 1 ∷ [])).taken 2 ≡ price_message (window_size + 1) 2 1 }
{}
