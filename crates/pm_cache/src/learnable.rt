//! Tests whether a child's bid may be learnt, for callers whose messages no contract vouches for.

ghost use Rattle.std.specs.Prelude.{◌≡◌, ◌+◌, ◌*◌, ◌<◌, ◌≤◌, ◌+ℤ◌, ◌-ℤ◌, true, false, IfSome, length};
ghost use Rattle.std.specs.Option.{option_copied};
ghost use Rattle.pm_base.specs.Limits.{sum_limit, IsWithin};
ghost use Rattle.pm_cache.specs.Cache.{child_demand, aggregate_of};
ghost use Rattle.pm_cache.specs.Learning.{CanLearn, offered_at, IsWithinAt};

use crate::cache::BidCache;
use pm_base::SUM_LIMIT;
use pm_bid::{ArrayBid, Steps};
use std::sync::ledger::Ledger;

impl BidCache {
    /// Whether a child's bid may be learnt. It is a child's, it has the cache's steps, and all entries with it in the child's
    /// place sum within ±256,000,000,000 watts at every step. [`BidCache::learn`] asks for exactly this.
    pub fn can_learn<L: Ledger>(
        &self,
        child: usize,
        demand: Option<&ArrayBid>,
        counter: &mut Steps<L>,
    ) -> bool
        ensures yes { result ≡ true → CanLearn self.now child (option_copied demand.entry) }
        ensures no { result ≡ false → CanLearn self.now child (option_copied demand.entry) → ⊥ }
        ensures cost { counter.new ≤ counter.old + 3 * self.now.steps }
        ensures passes { result ≡ true → counter.old + 2 * self.now.steps ≤ counter.new }
        ensures rises { counter.old ≤ counter.new }
    {
        let steps = self.aggregate().steps();
        if child >= self.heads().len() || !has_steps(demand, steps) {
            return false;
        }
        for step in 0..steps {
            if !is_within(self, child, demand, step, counter) {
                return false;
            }
        }
        true
    }
}

/// Whether a demand has so many steps; None fits every number of them.
fn has_steps(demand: Option<&ArrayBid>, steps: usize) -> bool
    ensures yes { result ≡ true → IfSome (option_copied demand.entry) (λ bid. length bid ≡ steps) }
    ensures no { result ≡ false → IfSome (option_copied demand.entry) (λ bid. length bid ≡ steps) →
        ⊥ }
{
    match demand {
        Some(bid) => bid.steps() == steps,
        None => true,
    }
}

/// Whether the sum with a demand in the child's place is within the limit at a step.
fn is_within<L: Ledger>(
    cache: &BidCache,
    child: usize,
    demand: Option<&ArrayBid>,
    step: usize,
    counter: &mut Steps<L>,
) -> bool
    requires child { child < length cache.now.heads }
    requires steps { IfSome (option_copied demand) (λ bid. length bid ≡ cache.now.steps) }
    requires step { step < cache.now.steps }
    ensures yes { result ≡ true → IsWithinAt cache.now child (option_copied demand.entry) step }
    ensures no { result ≡ false → IsWithinAt cache.now child (option_copied demand.entry) step → ⊥ }
    ensures cost { counter.new ≤ counter.old + 3 }
    ensures looks { counter.old + 2 ≤ counter.new }
    ensures rises { counter.old ≤ counter.new }
{
    let new = demand_offered(demand, step, counter);
    let sum = cache.aggregate().at(step, counter);
    let old = cache.demand(child, step, counter);
    is_sum_within(sum, old, new)
}

/// Whether a sum with a new demand in place of an old one is within the limit, in watts.
fn is_sum_within(sum: i64, old: i64, new: i64) -> bool
    requires sum { IsWithin sum_limit sum }
    requires old { IsWithin sum_limit old }
    requires new { IsWithin sum_limit new }
    ensures yes { result ≡ true → IsWithin sum_limit ((sum -ℤ old) +ℤ new) }
    ensures no { result ≡ false → IsWithin sum_limit ((sum -ℤ old) +ℤ new) → ⊥ }
{
    let total = sum - old + new;
    -SUM_LIMIT <= total && total <= SUM_LIMIT
}

/// The demand that is offered at a step, in watts.
fn demand_offered<L: Ledger>(demand: Option<&ArrayBid>, step: usize, counter: &mut Steps<L>) -> i64
    requires { IfSome (option_copied demand) (λ bid. step < length bid) }
    ensures demand { result ≡ offered_at (option_copied demand.entry) step }
    ensures within { IsWithin sum_limit result }
    ensures cost { counter.new ≤ counter.old + 1 }
    ensures rises { counter.old ≤ counter.new }
{
    match demand {
        Some(bid) => bid.at(step, counter),
        None => 0,
    }
}
