//! Tests of caches: the sum follows the newest bids, and the count of touched elements is exact.

ghost use Rattle.std.specs.Prelude.{◌≡◌, ◌<◌, ◌≤◌, length, IfOk};
ghost use Rattle.std.specs.Option.{option_copied};
ghost use Rattle.pm_bid.specs.Bids.{AllWithinLimit};
ghost use Rattle.pm_base.specs.Limits.{demand_limit, sum_limit};
ghost use Rattle.pm_cache.specs.Learning.{HasSingleBids, demand_of_offer};

use crate::bids::bid_of;
use crate::same::same;
use crate::shared::may_be_shared;
use pm_bid::{ArrayBid, BidHead, Steps, uncounted};
use pm_cache::{BidCache, CacheFault};
use std::alloc::{AllocError, Global};
use std::marker::Brand;
use std::process::Abort;

/// Hands a child's bid to the cache, or removes the child if there is no bid.
fn learn(
    cache: &mut BidCache,
    child: usize,
    number: u32,
    bid: Option<&ArrayBid>,
) -> Result<(), CacheFault>
    requires child { child < length cache.old.heads }
    requires steps { length (demand_of_offer cache.old (option_copied bid)) ≡ cache.old.steps }
    requires small { AllWithinLimit demand_limit (demand_of_offer cache.old (option_copied bid)) }
    requires single { HasSingleBids cache.old }
    ensures steps { cache.new.steps ≡ cache.old.steps }
    ensures children { length cache.new.heads ≡ length cache.old.heads }
    ensures single { HasSingleBids cache.new }
{
    let mut counter = uncounted();
    // The call tells a fact of the type: the sum is that of the bids kept.
    let _heads = cache.heads();
    cache.learn(child, number, bid, &mut counter)
}

/// What the newer bid of a child counts on a counter at 0, if there are 256 children and 1000
/// steps.
fn steps_of_a_newer_bid(alloc: Global, bid: &ArrayBid) -> Result<Steps<Brand>, AllocError>
    requires thousand { length bid.now ≡ 1000 }
    requires within { AllWithinLimit sum_limit bid.now }
    ensures cost { IfOk result (λ steps. steps ≤ 3000) }
{
    let mut cache = BidCache::new(alloc, 256, 1000, &mut uncounted())?;
    let mut counter = uncounted();
    let _ = cache.replace(0, 1, bid, &mut counter);
    Ok(counter)
}

/// Makes the call of [`learn`] for a bid of these demands, and compares its answer and the aggregate after it.
fn learns(
    rt: &impl Abort,
    alloc: Global,
    cache: &mut BidCache,
    child: usize,
    number: u32,
    demands: Option<[i64; 2]>,
    wanted: (Result<(), CacheFault>, [i64; 2]),
)
    requires child { child < length cache.old.heads }
    requires steps { cache.old.steps ≡ 2 }
    requires single { HasSingleBids cache.old }
    ensures steps { cache.new.steps ≡ 2 }
    ensures children { length cache.new.heads ≡ length cache.old.heads }
    ensures single { HasSingleBids cache.new }
{
    let answer = match demands {
        Some(demands) => learn(cache, child, number, Some(&bid_of(rt, alloc, demands))),
        None => learn(cache, child, number, None),
    };
    same(rt, (child, number), answer, wanted.0);
    let mut counter = uncounted();
    let aggregate = cache.aggregate();
    let sum = [aggregate.at(0, &mut counter), aggregate.at(1, &mut counter)];
    same(rt, (child, number), sum, wanted.1);
}

/// The answer to an old bid.
fn old(kept: u32) -> Result<(), CacheFault> {
    Err(CacheFault::Old { kept })
}

/// A child's newer bid takes the place of its older one, and an old one changes nothing.
fn bids_are_learnt(rt: &impl Abort, alloc: Global, cache: &mut BidCache)
    requires children { length cache.old.heads ≡ 2 }
    requires steps { cache.old.steps ≡ 2 }
    requires single { HasSingleBids cache.old }
{
    learns(rt, alloc, cache, 0, 1, Some([5, 3]), (Ok(()), [5, 3]));
    learns(rt, alloc, cache, 1, 1, Some([2, -4]), (Ok(()), [7, -1]));
    learns(rt, alloc, cache, 0, 1, Some([9, 9]), (old(1), [7, -1]));
    learns(rt, alloc, cache, 0, 2, None, (Ok(()), [2, -4]));
    learns(rt, alloc, cache, 0, 2, None, (old(2), [2, -4]));
    let mut counter = uncounted();
    same(rt, "demand", cache.demand(1, 1, &mut counter), -4);
}

/// The heads that are kept then.
const HEADS: &[BidHead] = &[
    BidHead {
        number: 2,
        gone: true,
    },
    BidHead {
        number: 1,
        gone: false,
    },
];

#[test]
fn the_aggregate_follows_the_newest_bids(rt: HostRuntime) {
    let cache = BidCache::new(rt.alloc(), 2, 2, &mut uncounted());
    let mut cache = cache.expect(&rt, "memory");
    bids_are_learnt(&rt, rt.alloc(), &mut cache);
    same(&rt, "heads", cache.heads(), HEADS);
}

#[test]
fn a_newer_bid_of_a_thousand_steps_is_counted(rt: HostRuntime) {
    let widest = ArrayBid::zero(rt.alloc(), 1000, &mut uncounted());
    let widest = widest.expect(&rt, "memory");
    let _steps = steps_of_a_newer_bid(rt.alloc(), &widest).expect(&rt, "memory");
}

/// Caches and faults may be sent to threads and shared by them: it is proved here.
#[test]
fn caches_may_be_shared() {
    may_be_shared::<(BidCache, CacheFault)>();
}
