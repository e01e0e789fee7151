//! Tests of the auctioneer: it clears once something is learnt, and not otherwise.

ghost use Rattle.std.specs.Prelude.{◌≡◌, ◌+◌, ◌≤◌, length};
ghost use Rattle.pm_bid.specs.Bids.{AllWithinLimit};
ghost use Rattle.pm_base.specs.Limits.{demand_limit};
ghost use Rattle.pm_cache.specs.Learning.{HasSingleBids};

use crate::bids::long_bid_of;
use crate::same::same;
use crate::shared::may_be_shared;
use pm_auctioneer::{Auctioneer, ClearFault, Cleared};
use pm_bid::ArrayBid;
use pm_cache::CacheFault;
use pm_session::{Link, PriceUpdate};
use std::alloc::Global;
use std::process::Abort;
use std::slice::from_mut;

/// Learns the only child's bid of ten steps under number 1.
fn learn(auctioneer: &mut Auctioneer, bid: &ArrayBid) -> Result<(), CacheFault>
    requires child { length auctioneer.old.cache.heads ≡ 1 }
    requires steps { auctioneer.old.cache.steps ≡ 10 }
    requires bid_steps { length bid.now ≡ 10 }
    requires small { AllWithinLimit demand_limit bid.now }
    requires single { HasSingleBids auctioneer.old.cache }
    ensures child { length auctioneer.new.cache.heads ≡ 1 }
    ensures steps { auctioneer.new.cache.steps ≡ 10 }
    ensures single { HasSingleBids auctioneer.new.cache }
    ensures index { auctioneer.new.index ≡ auctioneer.old.index }
{
    // The call tells a fact of the type: the sum is that of the bids kept.
    let _heads = auctioneer.cache().heads();
    auctioneer.learn(0, 1, Some(bid))
}

/// The answer of a clearing on a new link, and the price that the only child then takes from it.
fn clear<R: Abort>(
    rt: &R,
    alloc: Global,
    auctioneer: &mut Auctioneer,
) -> (Result<Cleared, ClearFault>, Option<PriceUpdate>)
    requires child { length auctioneer.old.cache.heads ≡ 1 }
    requires index { auctioneer.old.index ≤ 2 }
    ensures cache { auctioneer.new.cache ≡ auctioneer.old.cache }
    ensures index { auctioneer.new.index ≤ auctioneer.old.index + 1 }
{
    let mut down = Link::new(alloc, 10).expect(rt, "memory");
    let answer = auctioneer.clear(from_mut(&mut down));
    (answer, down.take_price())
}

/// What comes of a clearing of which nothing changed.
const NOT_CHANGED: (Result<Cleared, ClearFault>, Option<PriceUpdate>) = (
    Err(ClearFault::NotChanged),
    None,
);

/// The price of the first clearing of a load of 100 watts.
const PRICE: PriceUpdate = PriceUpdate {
    step: 9,
    number: 1,
    index: 1,
};

/// What comes of that clearing.
const CLEARED: (Result<Cleared, ClearFault>, Option<PriceUpdate>) = (
    Ok(Cleared { index: 1, step: 9 }),
    Some(PRICE),
);

fn clears_once<R: Abort>(rt: &R, alloc: Global, auctioneer: &mut Auctioneer, load: &ArrayBid)
    requires child { length auctioneer.old.cache.heads ≡ 1 }
    requires steps { auctioneer.old.cache.steps ≡ 10 }
    requires bid_steps { length load.now ≡ 10 }
    requires small { AllWithinLimit demand_limit load.now }
    requires single { HasSingleBids auctioneer.old.cache }
    requires index { auctioneer.old.index ≡ 0 }
{
    same(rt, "no bid", clear(rt, alloc, auctioneer), NOT_CHANGED);
    same(rt, "a bid", learn(auctioneer, load), Ok(()));
    same(rt, "one bid", clear(rt, alloc, auctioneer), CLEARED);
    same(rt, "no more", clear(rt, alloc, auctioneer), NOT_CHANGED);
    let old = Err(CacheFault::Old { kept: 1 });
    same(rt, "again", learn(auctioneer, load), old);
}

#[test]
fn the_market_clears_where_something_was_learnt(rt: HostRuntime) {
    let load = long_bid_of(&rt, rt.alloc(), &[100; 10]);
    let mut auctioneer = Auctioneer::new(rt.alloc(), 1, 10).expect(&rt, "memory");
    clears_once(&rt, rt.alloc(), &mut auctioneer, &load);
}

/// The answer of a clearing, and the price of the only child, as values.
fn clear_as_values(
    auctioneer: &mut Auctioneer,
) -> (Result<Cleared, ClearFault>, Option<PriceUpdate>)
    requires child { length auctioneer.old.cache.heads ≡ 1 }
    requires index { auctioneer.old.index ≤ 2 }
    ensures cache { auctioneer.new.cache ≡ auctioneer.old.cache }
    ensures index { auctioneer.new.index ≤ auctioneer.old.index + 1 }
{
    let answer = auctioneer.next_clearing();
    (answer, auctioneer.prices().for_child(0))
}

fn clears_as_values<R: Abort>(rt: &R, auctioneer: &mut Auctioneer, load: &ArrayBid)
    requires child { length auctioneer.old.cache.heads ≡ 1 }
    requires steps { auctioneer.old.cache.steps ≡ 10 }
    requires bid_steps { length load.now ≡ 10 }
    requires small { AllWithinLimit demand_limit load.now }
    requires single { HasSingleBids auctioneer.old.cache }
    requires index { auctioneer.old.index ≡ 0 }
{
    same(rt, "no bid", clear_as_values(auctioneer), NOT_CHANGED);
    same(rt, "learnt", learn(auctioneer, load), Ok(()));
    same(rt, "value", clear_as_values(auctioneer), CLEARED);
    let no_more = (Err(ClearFault::NotChanged), Some(PRICE));
    same(rt, "again", clear_as_values(auctioneer), no_more);
}

fn clears_on_links<R: Abort>(rt: &R, alloc: Global, auctioneer: &mut Auctioneer, load: &ArrayBid)
    requires child { length auctioneer.old.cache.heads ≡ 1 }
    requires steps { auctioneer.old.cache.steps ≡ 10 }
    requires bid_steps { length load.now ≡ 10 }
    requires small { AllWithinLimit demand_limit load.now }
    requires single { HasSingleBids auctioneer.old.cache }
    requires index { auctioneer.old.index ≡ 0 }
{
    same(rt, "learnt", learn(auctioneer, load), Ok(()));
    same(rt, "link", clear(rt, alloc, auctioneer), CLEARED);
}

/// A clearing as values is what goes over a link. Until the next one its price is told again.
#[test]
fn prices_as_values_are_those_on_links(rt: HostRuntime) {
    let load = long_bid_of(&rt, rt.alloc(), &[100; 10]);
    let mut valued = Auctioneer::new(rt.alloc(), 1, 10).expect(&rt, "memory");
    clears_as_values(&rt, &mut valued, &load);
    let mut linked = Auctioneer::new(rt.alloc(), 1, 10).expect(&rt, "memory");
    clears_on_links(&rt, rt.alloc(), &mut linked, &load);
}

/// Auctioneers, clearings and faults may be sent to threads and shared by them: it is proved here.
#[test]
fn auctioneers_may_be_shared() {
    may_be_shared::<(Auctioneer, Cleared, ClearFault)>();
}
