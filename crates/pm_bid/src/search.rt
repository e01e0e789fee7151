//! Searches for the first bad demand, and for the step at which demands cross a limit.

ghost use Rattle.std.specs.Prelude.{◌≡◌, ◌+◌, ◌<◌, ◌≤◌, ◌↔◌, IsTrue, length};
ghost use Rattle.pm_bid.specs.Checks.{first_rising, first_too_large};
ghost use Rattle.pm_bid.specs.Clearing.{first_at_most, last_at_least};
ghost use Rattle.pm_bid.specs.Limited.{NeverBind};
ghost use Rattle.pm_bid.specs.Taken.{HasStepWithin};

use crate::steps::Steps;
use pm_base::{DEMAND_LIMIT, Limits};
use std::sync::ledger::Ledger;

/// The first step whose demand is above the one before, else a step past the end.
pub(crate) fn find_rising(demands: &[i64]) -> usize
    requires { 2 ≤ length demands.now }
    ensures { result ≡ first_rising demands.now }
{
    for step in 1..demands.len() {
        if demands[step - 1] < demands[step] {
            return step;
        }
    }
    demands.len()
}

/// The first step whose demand is too large, else the number of steps.
pub(crate) fn find_too_large(demands: &[i64]) -> usize
    ensures { result ≡ first_too_large demands.now }
{
    for (step, demand) in demands.iter().enumerate() {
        if *demand > DEMAND_LIMIT || *demand < -DEMAND_LIMIT {
            return step;
        }
    }
    demands.len()
}

/// The first step whose demand is at most the limit, else the last one.
pub(crate) fn find_at_most<L: Ledger>(demands: &[i64], limit: i64, counter: &mut Steps<L>) -> usize
    requires { 1 ≤ length demands.now }
    ensures step { result ≡ first_at_most limit demands.now }
    ensures inside { result < length demands.now }
    ensures cost { counter.new ≤ counter.old + length demands.now }
    ensures rises { counter.old ≤ counter.new }
    ensures looks { counter.new ≡ counter.old + (result + 1) }
{
    for (step, demand) in demands.iter().enumerate() {
        counter.tick();
        if *demand <= limit {
            return step;
        }
    }
    demands.len() - 1
}

/// The last step whose demand is at least the limit, else step 0.
pub(crate) fn find_at_least<L: Ledger>(demands: &[i64], limit: i64, counter: &mut Steps<L>) -> usize
    requires { 1 ≤ length demands.now }
    ensures step { result ≡ last_at_least limit demands.now }
    ensures inside { result < length demands.now }
    ensures cost { counter.new ≤ counter.old + length demands.now }
    ensures rises { counter.old ≤ counter.new }
    ensures looks { counter.new + result ≡ counter.old + length demands.now }
{
    for step in (0..demands.len()).rev() {
        counter.tick();
        if demands[step] >= limit {
            return step;
        }
    }
    0
}

/// Whether some demand is within the limits.
pub(crate) fn is_some_within<L: Ledger>(
    demands: &[i64],
    limits: &Limits,
    counter: &mut Steps<L>,
) -> bool
    ensures within { IsTrue result ↔ HasStepWithin limits.now demands.now }
    ensures cost { counter.new ≤ counter.old + length demands.now }
    ensures rises { counter.old ≤ counter.new }
{
    for (step, demand) in demands.iter().enumerate() {
        counter.tick();
        if limits.floor <= *demand && *demand <= limits.ceiling {
            return true;
        }
    }
    false
}

/// Whether every demand is within the limits.
pub(crate) fn are_all_within<L: Ledger>(
    demands: &[i64],
    limits: &Limits,
    counter: &mut Steps<L>,
) -> bool
    ensures within { IsTrue result ↔ NeverBind limits.now demands.now }
    ensures cost { counter.new ≤ counter.old + length demands.now }
    ensures rises { counter.old ≤ counter.new }
{
    for (step, demand) in demands.iter().enumerate() {
        counter.tick();
        if *demand < limits.floor || *demand > limits.ceiling {
            return false;
        }
    }
    true
}
