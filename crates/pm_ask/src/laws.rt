//! What a target is: one more bid.

ghost use Rattle.std.specs.Prelude.{◌≡◌, ◌≤◌, ◌∷◌, ℕ, ℤ, ◌-ℤ◌, List, length};
ghost use Rattle.pm_bid.specs.Bids.{demand_at, pairwise_sum, sum_of, HaveSteps};
ghost use Rattle.pm_bid.specs.Clearing.{Clears, IsFirstAtMost, clearing_step};
ghost use Rattle.pm_ask.specs.Asked.{asked_step, asked_total, target_bid};

/// A law: a target is one more bid. To ask a cluster to take so many watts gives the answer of the market in which a
/// participant offers these watts at every price. To ask it to deliver them gives that of the market in which a participant
/// takes them. So a dispatcher reads in the answer the price that the market would have with such a participant.
pub fn targets_are_bids()
    // The answer is the step of the plain auction of all bids and the bid of the target.
    ensures auction { (target : ℤ) (steps : ℕ) (bids : List (List ℤ)) → HaveSteps steps bids
        → asked_step target (sum_of steps bids) ≡ clearing_step
        (sum_of steps (target_bid target steps ∷ bids)) }

    // Of a total alone: with the bid of the target the market clears at the step that is answered, and at no other.
    ensures clears { (target : ℤ) (steps : ℕ) (total : List ℤ) → length total ≡ steps → 1 ≤ steps
        → Clears (pairwise_sum total (target_bid target steps)) (asked_step target total) }
    ensures only { (target : ℤ) (steps : ℕ) (total : List ℤ) (step : ℕ) → length total ≡ steps
        → Clears (pairwise_sum total (target_bid target steps)) step →
        step ≡ asked_step target total }

    // What is left over is the total of that market at its step: the watts of the cluster there less the target.
    ensures left_over { (target : ℤ) (steps : ℕ) (total : List ℤ) → length total ≡ steps
        → asked_total target total ≡ demand_at (pairwise_sum total (target_bid target steps))
        (asked_step target total) }
    ensures less { (target : ℤ) (total : List ℤ) → 1 ≤ length total
        → asked_total target total ≡ demand_at total (asked_step target total) -ℤ target }

    // It is the first step at which the cluster takes at most the target, and the last where it takes more at each.
    ensures first { (target : ℤ) (total : List ℤ) → 1 ≤ length total →
        IsFirstAtMost target total (asked_step target total) }
{}
