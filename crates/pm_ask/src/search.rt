//! Searches for the first step at which a total is at most a target.

ghost use Rattle.std.specs.Prelude.{◌≡◌, ℕ, ◌+◌, ◌^◌, ◌<◌, ◌≤◌, length};
ghost use Rattle.pm_base.specs.Limits.{most_steps};
ghost use Rattle.pm_bid.specs.Bids.{NeverRises};
ghost use Rattle.pm_ask.specs.Asked.{asked_step};

use pm_bid::{ArrayBid, Steps};
use std::sync::ledger::Ledger;

/// The first step at which the total is at most the target, and the last step if there is no such one. It is found
/// by halving the steps that are left.
pub(crate) fn find_step<L: Ledger>(total: &ArrayBid, target: i64, counter: &mut Steps<L>) -> usize
    requires { NeverRises total.now }
    ensures step { result ≡ asked_step target total.now }
    ensures inside { result < length total.now }
    ensures small { result < most_steps }
    ensures cost { (looks : ℕ) → length total.now ≤ 2 ^ looks → counter.new ≤ counter.old + looks }
    ensures least { (looks : ℕ) → 2 ^ looks ≤ length total.now → counter.old + looks ≤ counter.new }
    ensures rises { counter.old ≤ counter.new }
{
    let mut low = 0;
    let mut high = total.steps() - 1;
    while low < high {
        let middle = low + (high - low) / 2;
        if total.at(middle, counter) <= target {
            high = middle;
        } else {
            low = middle + 1;
        }
    }
    low
}
