//! Adds, subtracts, clamps and clears demands step by step, and counts each element that it touches.

ghost use Rattle.std.specs.Prelude.{◌≡◌, ◌+◌, ◌*◌, ◌<◌, ◌≤ℤ◌, length};
ghost use Rattle.pm_bid.specs.Taken.{said_between};
ghost use Rattle.pm_bid.specs.Bids.{pairwise_sum, pairwise_difference, zeros, clamp, AllWithinLimit};
ghost use Rattle.pm_base.specs.Limits.{sum_limit, IsWithin};

use crate::steps::Steps;
use pm_base::DEMAND_LIMIT;
use std::sync::ledger::Ledger;

/// Adds the others step by step.
pub(crate) fn add_each<L: Ledger>(demands: &mut [i64], others: &[i64], counter: &mut Steps<L>)
    requires equal_lengths { length demands.old ≡ length others.now }
    requires within { AllWithinLimit sum_limit (pairwise_sum demands.old others.now) }
    ensures sum { demands.new ≡ pairwise_sum demands.old others.now }
    ensures cost { counter.new ≡ counter.old + length demands.old }
{
    for (step, demand) in demands.iter_mut().enumerate() {
        *demand += others[step];
        counter.tick();
    }
}

/// Takes the others off step by step.
pub(crate) fn take_each<L: Ledger>(demands: &mut [i64], others: &[i64], counter: &mut Steps<L>)
    requires equal_lengths { length demands.old ≡ length others.now }
    requires within { AllWithinLimit sum_limit (pairwise_difference demands.old others.now) }
    ensures rest { demands.new ≡ pairwise_difference demands.old others.now }
    ensures cost { counter.new ≡ counter.old + length demands.old }
{
    for (step, demand) in demands.iter_mut().enumerate() {
        *demand -= others[step];
        counter.tick();
    }
}

/// Takes the olds off and adds the news step by step.
pub(crate) fn exchange_each<L: Ledger>(
    demands: &mut [i64],
    olds: &[i64],
    news: &[i64],
    counter: &mut Steps<L>,
)
    requires old_length { length demands.old ≡ length olds.now }
    requires new_length { length demands.old ≡ length news.now }
    requires demands_within { AllWithinLimit sum_limit demands.old }
    requires olds_within { AllWithinLimit sum_limit olds.now }
    requires within { AllWithinLimit sum_limit
        (pairwise_sum (pairwise_difference demands.old olds.now) news.now) }
    ensures exchanged { demands.new ≡ pairwise_sum (pairwise_difference demands.old olds.now)
        news.now }
    ensures cost { counter.new ≡ counter.old + 2 * length demands.old }
{
    for (step, demand) in demands.iter_mut().enumerate() {
        *demand -= olds[step];
        counter.tick();
        *demand += news[step];
        counter.tick();
    }
}

/// Writes each demand moved to the nearest between floor and ceiling.
pub(crate) fn clamp_each<L: Ledger>(
    demands: &[i64],
    floor: i64,
    ceiling: i64,
    targets: &mut [i64],
    counter: &mut Steps<L>,
)
    requires equal_lengths { length demands.now ≡ length targets.old }
    requires order { floor ≤ℤ ceiling }
    requires floor_within { IsWithin sum_limit floor }
    requires ceiling_within { IsWithin sum_limit ceiling }
    ensures clamped { targets.new ≡ clamp floor ceiling demands.now }
    ensures within { AllWithinLimit sum_limit targets.new }
    ensures cost { counter.new ≡ counter.old + length demands.now }
{
    for (step, target) in targets.iter_mut().enumerate() {
        *target = demands[step].clamp(floor, ceiling);
        counter.tick();
    }
}

/// Writes for each step the demand at the nearest step from first to last, moved to the nearest that a bid may have.
pub(crate) fn announce_each<L: Ledger>(
    demands: &[i64],
    first: usize,
    last: usize,
    targets: &mut [i64],
    counter: &mut Steps<L>,
)
    requires equal_lengths { length demands.now ≡ length targets.old }
    requires first { first < length demands.now }
    requires last { last < length demands.now }
    ensures said { targets.new ≡ said_between first last demands.now }
    ensures within { AllWithinLimit sum_limit targets.new }
    ensures cost { counter.new ≡ counter.old + length demands.now }
{
    for (step, target) in targets.iter_mut().enumerate() {
        let settled = first.max(step.min(last));
        *target = demands[settled].clamp(-DEMAND_LIMIT, DEMAND_LIMIT);
        counter.tick();
    }
}

/// Makes each demand 0.
pub(crate) fn set_each_zero<L: Ledger>(demands: &mut [i64], counter: &mut Steps<L>)
    ensures zeros { demands.new ≡ zeros (length demands.old) }
    ensures cost { counter.new ≡ counter.old + length demands.old }
{
    counter.count(demands.len());
    demands.fill(0);
}
