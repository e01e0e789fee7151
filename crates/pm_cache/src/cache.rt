//! The newest bid of each child of a node, with their running sum.

ghost use Rattle.std.specs.Prelude.{◌≡◌, ◌+◌, ◌*◌, ◌<◌, ◌≤◌, true, false, length, IfOk, OnOk, OnErr};
ghost use Rattle.pm_bid.specs.Bids.{AllWithinLimit, demand_at, zeros};
ghost use Rattle.pm_base.specs.Limits.{AreSteps, most_nodes, sum_limit, IsWithin};
ghost use Rattle.std.specs.Option.{option_copied};
ghost use Rattle.pm_cache.specs.Learning.{CanLearn, after_learning, bid_demand};
ghost use Rattle.pm_cache.specs.Cache.{kept_number, aggregate_of, aggregate_with, empty_cache, with_bid, with_gone, answer_to, IsCache, child_demand};

use crate::fault::CacheFault;
use pm_bid::{ArrayBid, BidHead, Steps};
use std::alloc::{AllocError, Global};
use std::marker::Model;
use std::mem;
use std::sync::ledger::Ledger;

/// The newest bid of each of up to 256 children, and the sum of these bids.
///
/// Contracts see it as its entries. Each child has the head of its newest bid and the demand in
/// watts at each step, all zeros if the child is gone. Children count from 0. The last
/// parameter of each call that touches demands is the counter of touched elements.
pub struct BidCache {
    heads: Vec<BidHead>,
    demands: Vec<ArrayBid>,
    aggregate: ArrayBid,
}

impl Model for BidCache {
    ghost use Rattle.std.specs.Option.{option_copied};
    ghost use Rattle.pm_cache.specs.Learning.{CanLearn, after_learning};
    ghost use Rattle.pm_cache.specs.Cache.{Cache};

    ghost Value = { Cache };

    ghost use Rattle.pm_cache.specs.CacheFields.{cache_of, KeepsSum};

    ghost view = { cache_of };

    ghost invariant = { KeepsSum };
}

/// Its owner lets go of it in one step; a derived drop would be one for each part.
impl Drop for BidCache {
    fn drop(self) {
        let BidCache {
            heads: _,
            demands: _,
            aggregate: _,
        } = self;
    }
}

impl BidCache {
    /// A cache of children that sent nothing: every entry has number 0 and is gone. All memory of
    /// the cache is taken here.
    pub fn new<L: Ledger>(
        alloc: Global,
        children: usize,
        steps: usize,
        counter: &mut Steps<L>,
    ) -> Result<BidCache, AllocError>
        requires few_children { children ≤ most_nodes }
        requires steps { AreSteps steps }
        ensures empty { IfOk result (λ cache. cache ≡ empty_cache children steps) }
        ensures cost { OnOk result (counter.new ≡ counter.old + (children + 1) * steps) }
        ensures rises { counter.old ≤ counter.new }
    {
        let nothing_sent = BidHead {
            number: 0,
            gone: true,
        };
        let heads = vec![in alloc; nothing_sent; children]?;
        let mut demands = Vec::with_capacity(alloc, children)?;
        for _child in 0..children {
            demands.push(ArrayBid::zero(alloc, steps, counter)?)?;
        }
        let aggregate = ArrayBid::zero(alloc, steps, counter)?;
        Ok(BidCache {
            heads,
            demands,
            aggregate,
        })
    }

    /// Takes a child's newer bid in the place of the one before. The bid has as many steps as the
    /// cache, and all entries with it in the child's place sum within ±256,000,000,000 watts. `Old`
    /// comes exactly if the number is at most the kept one; nothing changes then.
    pub fn replace<L: Ledger>(
        &mut self,
        child: usize,
        number: u32,
        bid: &ArrayBid,
        counter: &mut Steps<L>,
    ) -> Result<(), CacheFault>
        requires child { child < length self.old.heads }
        requires equal_lengths { length bid.now ≡ self.old.steps }
        requires within { AllWithinLimit sum_limit (aggregate_with self.old child bid.now) }
        ensures answer { result ≡ answer_to (kept_number self.old child) number }
        ensures replaced { OnOk result (self.new ≡ with_bid self.old child number bid.now) }
        ensures unchanged { OnErr result (self.new ≡ self.old) }
        ensures cost { counter.new ≤ counter.old + 3 * self.old.steps }
        ensures passes { OnOk result (counter.new ≡ counter.old + 3 * self.old.steps) }
        ensures rises { counter.old ≤ counter.new }
    {
        check_newer(self.heads[child].number, number)?;
        let old = &mut self.demands[child];
        self.aggregate.exchange(old, bid, counter);
        bid.copy_into(old, counter);
        self.heads[child] = BidHead {
            number,
            gone: false,
        };
        Ok(())
    }

    /// Makes a child gone, with this newer number. The entries that remain sum within
    /// ±256,000,000,000 watts. `Old` comes as in [`BidCache::replace`].
    pub fn remove<L: Ledger>(
        &mut self,
        child: usize,
        number: u32,
        counter: &mut Steps<L>,
    ) -> Result<(), CacheFault>
        requires child { child < length self.old.heads }
        requires within { AllWithinLimit sum_limit
            (aggregate_with self.old child (zeros self.old.steps)) }
        ensures answer { result ≡ answer_to (kept_number self.old child) number }
        ensures removed { OnOk result (self.new ≡ with_gone self.old child number) }
        ensures unchanged { OnErr result (self.new ≡ self.old) }
        ensures cost { counter.new ≤ counter.old + 3 * self.old.steps }
        ensures passes { OnOk result (counter.new ≡ counter.old + 2 * self.old.steps) }
        ensures rises { counter.old ≤ counter.new }
    {
        check_newer(self.heads[child].number, number)?;
        let old = &mut self.demands[child];
        self.aggregate.take_from(old, counter);
        old.set_zero(counter);
        self.heads[child] = BidHead { number, gone: true };
        Ok(())
    }

    /// Learns a child's bid under this number: by [`BidCache::replace`] if there is a demand,
    /// otherwise by [`BidCache::remove`]. `Old` comes exactly if the number is at most the kept
    /// one; nothing changes then.
    pub fn learn<L: Ledger>(
        &mut self,
        child: usize,
        number: u32,
        demand: Option<&ArrayBid>,
        counter: &mut Steps<L>,
    ) -> Result<(), CacheFault>
        requires bid { CanLearn self.old child (option_copied demand) }
        ensures answer { result ≡ answer_to (kept_number self.old child) number }
        ensures learnt { self.new ≡ after_learning self.old child number
            (option_copied demand.entry) }
        ensures cost { counter.new ≤ counter.old + 3 * self.old.steps }
        ensures passes { OnOk result (counter.old + 2 * self.old.steps ≤ counter.new) }
        ensures rises { counter.old ≤ counter.new }
    {
        match demand {
            Some(bid) => self.replace(child, number, bid, counter),
            None => self.remove(child, number, counter),
        }
    }

    /// Learns a child's bid with this head as [`BidCache::learn`] does, and copies nothing: the cache
    /// keeps the demand, and the caller has that of the child's bid before in its place. If the bid is
    /// gone, or `Old`, the caller's demand stays.
    pub fn exchange_bid<L: Ledger>(
        &mut self,
        child: usize,
        head: BidHead,
        demand: &mut ArrayBid,
        counter: &mut Steps<L>,
    ) -> Result<(), CacheFault>
        requires bid { CanLearn self.old child (bid_demand head.gone demand.old) }
        ensures answer { result ≡ answer_to (kept_number self.old child) head.number }
        ensures learnt { self.new ≡ after_learning self.old child head.number
            (bid_demand head.gone demand.old) }
        ensures before { OnOk result
            (head.gone ≡ false → demand.new ≡ child_demand self.old child) }
        ensures gone { head.gone ≡ true → demand.new ≡ demand.old }
        ensures old { OnErr result (demand.new ≡ demand.old) }
        ensures same_length { length demand.new ≡ length demand.old }
        ensures cost { counter.new ≤ counter.old + 3 * self.old.steps }
        ensures passes { OnOk result (counter.new ≡ counter.old + 2 * self.old.steps) }
        ensures rises { counter.old ≤ counter.new }
    {
        let BidHead { number, gone } = head;
        if gone {
            return self.remove(child, number, counter);
        }
        check_newer(self.heads[child].number, number)?;
        let old = &mut self.demands[child];
        self.aggregate.exchange(old, demand, counter);
        mem::swap(old, demand);
        self.heads[child] = BidHead {
            number,
            gone: false,
        };
        Ok(())
    }

    /// The sum of all entries. No element is touched.
    pub fn aggregate(&self) -> &ArrayBid
        ensures sum { result.now ≡ aggregate_of self.now }
        ensures steps { length result.now ≡ self.now.steps }
        ensures sound { IsCache self.now }
    {
        &self.aggregate
    }

    /// For each child the number of its newest bid, and whether the child is gone.
    pub fn heads(&self) -> &[BidHead]
        ensures heads { result.now ≡ self.now.heads }
        ensures sound { IsCache self.now }
    {
        &self.heads
    }

    /// The demand of a child at a step, in watts.
    pub fn demand<L: Ledger>(&self, child: usize, step: usize, counter: &mut Steps<L>) -> i64
        requires child { child < length self.now.heads }
        requires step { step < self.now.steps }
        ensures demand { result ≡ demand_at (child_demand self.now child) step }
        ensures within { IsWithin sum_limit result }
        ensures cost { counter.new ≡ counter.old + 1 }
    {
        self.demands[child].at(step, counter)
    }
}

/// Refuses a number that is at most the kept one.
fn check_newer(kept: u32, number: u32) -> Result<(), CacheFault>
    ensures { result ≡ answer_to kept number }
{
    if number <= kept {
        return Err(CacheFault::Old { kept });
    }
    Ok(())
}
