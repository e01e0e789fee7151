//! A demand with at most three levels, and the bid that it fills.

ghost use Rattle.std.specs.Prelude.{◌≡◌, ℕ, ◌<◌, ◌≤◌, ◌<ℤ◌, ◌≤ℤ◌, pos, length};
ghost use Rattle.pm_base.specs.Limits.{demand_limit, IsWithin, most_steps};
ghost use Rattle.pm_bid.specs.Bids.{demand_at};
ghost use Rattle.pm_strategy.specs.Steps.{by_step};

use pm_bid::{ArrayBid, Steps, uncounted};

/// A demand in watts with at most three levels. One is at the steps before `first_end`, the next at those
/// before `second_end`, and the last at the others.
#[derive(Clone, Copy)]
pub(crate) struct Levels {
    pub(crate) first: i64,
    pub(crate) first_end: i64,
    pub(crate) second: i64,
    pub(crate) second_end: i64,
    pub(crate) third: i64,
}

impl Levels {
    ghost use Rattle.pm_strategy.specs.Levels.{level_at};
    ghost use Rattle.std.specs.Prelude.{if◌then◌else◌, int_lt};

    /// The same demand at each step.
    pub(crate) fn flat(demand: i64) -> Levels
        ensures { (step : ℕ) → level_at result step ≡ demand }
    {
        Levels::split(demand, 0, demand)
    }

    /// One demand at the steps before the end, and another from there on.
    pub(crate) fn split(before: i64, end: i64, after: i64) -> Levels
        ensures { (step : ℕ) → level_at result step
            ≡ (if int_lt (pos step) end then before else after) }
    {
        Levels {
            first: before,
            first_end: end,
            second: after,
            second_end: end,
            third: after,
        }
    }

    /// Makes the bid these levels.
    pub(crate) fn fill(&self, out: &mut ArrayBid)
        requires within { (step : ℕ) → IsWithin demand_limit (level_at self.now step) }
        ensures bid { out.new ≡ by_step (length out.old) (level_at self.now) }
    {
        let steps = out.steps();
        let second = first_step(self.first_end, 0, steps);
        let third = first_step(self.second_end, second, steps);
        fill_range(out, 0, second, self.first);
        fill_range(out, second, third, self.second);
        fill_range(out, third, steps, self.third);
    }
}

/// The first of the steps from `start` to `end` that is not before the threshold, and `end` if there is none.
fn first_step(threshold: i64, start: usize, end: usize) -> usize
    requires order { start ≤ end }
    requires few { end ≤ most_steps }
    ensures above { start ≤ result }
    ensures below { result ≤ end }
    ensures before { (step : ℕ) → start ≤ step → step < result → pos step <ℤ threshold }
    ensures behind { (step : ℕ) → result ≤ step → step < end → threshold ≤ℤ pos step }
{
    threshold.clamp(start as i64, end as i64) as usize
}

/// Sets the demand at each step from `start` on and before `end`, in watts.
fn fill_range(out: &mut ArrayBid, start: usize, end: usize, demand: i64)
    requires order { start ≤ end }
    requires end { end ≤ length out.old }
    requires within { start < end → IsWithin demand_limit demand }
    ensures filled { (step : ℕ) → start ≤ step → step < end → demand_at out.new step ≡ demand }
    ensures before { (step : ℕ) → step < start → demand_at out.new step ≡ demand_at out.old step }
    ensures same_length { length out.new ≡ length out.old }
{
    let mut counter = uncounted();
    for step in start..end {
        out.set(step, demand, &mut counter);
    }
}
