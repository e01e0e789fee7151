//! Tests of concentrators: full windows, and local steps within limits.

ghost use Rattle.std.specs.Prelude.{◌≡◌, ◌+◌, ◌<◌, ◌≤◌, length, None};
ghost use Rattle.pm_bid.specs.Bids.{AllWithinLimit};
ghost use Rattle.pm_base.specs.Limits.{demand_limit};
ghost use Rattle.pm_cache.specs.Learning.{HasSingleBids};
ghost use Rattle.pm_session.specs.Prices.{IsNewIndex};
ghost use Rattle.pm_concentrator.specs.Limited.{IsStepOf};

use crate::bids::long_bid_of;
use crate::same::same;
use crate::shared::may_be_shared;
use pm_bid::{ArrayBid, uncounted};
use pm_cache::CacheFault;
use pm_concentrator::{Concentrator, PublishFault};
use pm_session::{Link, PriceUpdate};
use std::alloc::Global;
use std::process::Abort;

/// Learns a child's bid of ten steps.
fn learn(c: &mut Concentrator, child: usize, number: u32, bid: &ArrayBid) -> Result<(), CacheFault>
    requires child { child < length c.old.cache.heads }
    requires steps { c.old.cache.steps ≡ 10 }
    requires bid_steps { length bid.now ≡ 10 }
    requires small { AllWithinLimit demand_limit bid.now }
    requires single { HasSingleBids c.old.cache }
    ensures children { length c.new.cache.heads ≡ length c.old.cache.heads }
    ensures steps { c.new.cache.steps ≡ 10 }
    ensures single { HasSingleBids c.new.cache }
    ensures window { c.new.window ≡ c.old.window }
    ensures limits { c.new.limits ≡ c.old.limits }
{
    // The call tells a fact of the type: the sum is that of the bids kept.
    let _heads = c.cache().heads();
    c.learn(child, number, Some(bid))
}

/// Learns the only child's bid under the next number, and publishes that number.
fn publishes(rt: &impl Abort, c: &mut Concentrator, up: &mut Link, number: u32, bid: &ArrayBid)
    requires number { number ≡ c.old.window.last + 1 }
    requires few { number < 100 }
    requires offered { up.old.up.offered ≡ c.old.window.last }
    requires up_steps { up.old.steps ≡ 10 }
    requires child { length c.old.cache.heads ≡ 1 }
    requires steps { c.old.cache.steps ≡ 10 }
    requires bid_steps { length bid.now ≡ 10 }
    requires small { AllWithinLimit demand_limit bid.now }
    requires single { HasSingleBids c.old.cache }
    ensures last { c.new.window.last ≡ number }
    ensures offered { up.new.up.offered ≡ number }
    ensures up_steps { up.new.steps ≡ 10 }
    ensures child { length c.new.cache.heads ≡ 1 }
    ensures steps { c.new.cache.steps ≡ 10 }
    ensures single { HasSingleBids c.new.cache }
    ensures limits { c.new.limits ≡ c.old.limits }
{
    same(rt, number, learn(c, 0, number, bid), Ok(()));
    assert_eq!(rt; c.publish(up), Ok(number));
}

/// So many links of ten steps on which nothing was offered.
fn new_links<R: Abort>(rt: &R, alloc: Global, count: usize) -> Vec<Link>
    ensures count { length result.items ≡ count }
    ensures new { IsNewIndex 1 result.items }
{
    let mut links = Vec::new(alloc);
    for _link in 0..count {
        let link = Link::new(alloc, 10).expect(rt, "memory");
        links.push(link).expect(rt, "memory");
    }
    links
}

/// Passes a price of this step that answers the number, under index 1, and takes it as child 0.
fn passed(
    rt: &impl Abort,
    c: &mut Concentrator,
    downs: &mut [Link],
    step: u32,
    number: u32,
) -> Option<PriceUpdate>
    requires downs { length downs.old ≡ length c.old.cache.heads }
    requires child { 1 ≤ length downs.old }
    requires new { IsNewIndex 1 downs.old }
    requires step { IsStepOf c.old.limits c.old.cache.steps step }
    ensures cache { c.new.cache ≡ c.old.cache }
    ensures limits { c.new.limits ≡ c.old.limits }
    ensures last { c.new.window.last ≡ c.old.window.last }
{
    let index = 1;
    let price = PriceUpdate {
        step,
        number,
        index,
    };
    assert!(rt; c.keeps(number));
    same(rt, price, c.pass(price, downs), Ok(()));
    downs[0].take_price()
}

/// Publishes nothing, for this reason.
fn refuses(rt: &impl Abort, c: &mut Concentrator, up: &mut Link, fault: PublishFault)
    requires number { up.old.up.offered < c.old.window.last + 1 }
    requires few { c.old.window.last < 100 }
    requires up_steps { up.old.steps ≡ c.old.cache.steps }
    ensures unchanged { (c.new ≡ c.old) × (up.new ≡ up.old) }
{
    match c.publish(up) {
        Ok(number) => panic!(rt; "published under {number}"),
        Err(have) => same(rt, "refused", have, fault),
    }
}

/// Publishes numbers 1 to 8 of the only child's bid.
fn fills_the_window(rt: &impl Abort, c: &mut Concentrator, up: &mut Link, bid: &ArrayBid)
    requires last { c.old.window.last ≡ 0 }
    requires offered { up.old.up.offered ≡ 0 }
    requires up_steps { up.old.steps ≡ 10 }
    requires child { length c.old.cache.heads ≡ 1 }
    requires steps { c.old.cache.steps ≡ 10 }
    requires bid_steps { length bid.now ≡ 10 }
    requires small { AllWithinLimit demand_limit bid.now }
    requires single { HasSingleBids c.old.cache }
    ensures last { c.new.window.last ≡ 8 }
    ensures offered { up.new.up.offered ≡ 8 }
    ensures up_steps { up.new.steps ≡ 10 }
    ensures child { length c.new.cache.heads ≡ 1 }
    ensures steps { c.new.cache.steps ≡ 10 }
    ensures single { HasSingleBids c.new.cache }
    ensures limits { c.new.limits ≡ c.old.limits }
{
    for number in 1..9 {
        publishes(rt, c, up, number, bid);
    }
}

/// With eight numbers published, the ninth follows if a price answers one of them.
fn publishes_the_ninth(
    rt: &impl Abort,
    alloc: Global,
    c: &mut Concentrator,
    up: &mut Link,
    bid: &ArrayBid,
)
    requires last { c.old.window.last ≡ 8 }
    requires offered { up.old.up.offered ≡ 8 }
    requires up_steps { up.old.steps ≡ 10 }
    requires child { length c.old.cache.heads ≡ 1 }
    requires steps { c.old.cache.steps ≡ 10 }
    requires limits { c.old.limits ≡ None }
    requires bid_steps { length bid.now ≡ 10 }
    requires small { AllWithinLimit demand_limit bid.now }
    requires single { HasSingleBids c.old.cache }
{
    same(rt, "a ninth bid", learn(c, 0, 9, bid), Ok(()));
    refuses(rt, c, up, PublishFault::WindowFull { unanswered: 8 });
    let mut downs = new_links(rt, alloc, 1);
    let price = PriceUpdate {
        step: 9,
        number: 8,
        index: 1,
    };
    same(rt, "price", passed(rt, c, &mut downs, 9, 8), Some(price));
    same(rt, "published", c.publish(up), Ok(9));
}

#[test]
fn a_full_window_publishes_after_a_price(rt: HostRuntime) {
    let alloc = rt.alloc();
    let load = long_bid_of(&rt, alloc, &[100; 10]);
    let mut c = Concentrator::new(alloc, 1, 10).expect(&rt, "memory");
    let mut up = Link::new(alloc, 10).expect(&rt, "memory");
    refuses(&rt, &mut c, &mut up, PublishFault::NotChanged);
    fills_the_window(&rt, &mut c, &mut up, &load);
    refuses(&rt, &mut c, &mut up, PublishFault::NotChanged);
    publishes_the_ninth(&rt, alloc, &mut c, &mut up, &load);
}

/// The step that goes down to child 0 of two for a price of this step that answers number 1.
fn step_below(rt: &impl Abort, alloc: Global, c: &mut Concentrator, step: u32) -> u32
    requires children { length c.old.cache.heads ≡ 2 }
    requires step { IsStepOf c.old.limits c.old.cache.steps step }
    ensures children { length c.new.cache.heads ≡ 2 }
    ensures steps { c.new.cache.steps ≡ c.old.cache.steps }
    ensures limits { c.new.limits ≡ c.old.limits }
{
    let mut downs = new_links(rt, alloc, 2);
    passed(rt, c, &mut downs, step, 1)
        .expect(rt, "a price")
        .step
}

/// Publishes under number 1 on a new link.
fn publishes_first(rt: &impl Abort, alloc: Global, c: &mut Concentrator)
    requires last { c.old.window.last ≡ 0 }
    requires steps { c.old.cache.steps ≡ 10 }
    ensures children { length c.new.cache.heads ≡ length c.old.cache.heads }
    ensures steps { c.new.cache.steps ≡ 10 }
    ensures limits { c.new.limits ≡ c.old.limits }
{
    let mut up = Link::new(alloc, 10).expect(rt, "memory");
    same(rt, "first", c.publish(&mut up), Ok(1));
}

/// The steps below for prices whose sums are above the ceiling, below the floor and between them.
fn steps_are_within(rt: &impl Abort, alloc: Global, c: &mut Concentrator)
    requires children { length c.old.cache.heads ≡ 2 }
    requires steps { c.old.cache.steps ≡ 10 }
{
    same(rt, "above", step_below(rt, alloc, c, 0), 3);
    same(rt, "below", step_below(rt, alloc, c, 9), 8);
    same(rt, "between", step_below(rt, alloc, c, 5), 5);
}

/// The second child sends nothing.
#[test]
fn the_local_step_is_within_the_limits(rt: HostRuntime) {
    let alloc = rt.alloc();
    let bid = long_bid_of(&rt, alloc, &DEMANDS);
    let mut c = Concentrator::limited(alloc, 2, 10, -100, 150).expect(&rt, "memory");
    same(&rt, "learnt", learn(&mut c, 0, 1, &bid), Ok(()));
    publishes_first(&rt, alloc, &mut c);
    steps_are_within(&rt, alloc, &mut c);
}

/// What goes up for a first bid: its number, and its demand at each of ten steps, in watts.
type FirstBid = (Result<u32, PublishFault>, [i64; 10]);

/// The demand at each of ten steps.
fn demands_of(bid: &ArrayBid) -> [i64; 10]
    requires { length bid.now ≡ 10 }
{
    let mut demands = [0; 10];
    for step in 0..10 {
        demands[step] = bid.at(step, &mut uncounted());
    }
    demands
}

/// The first bid as a value.
fn bid_as_value(c: &mut Concentrator) -> FirstBid
    requires last { c.old.window.last ≡ 0 }
    requires steps { c.old.cache.steps ≡ 10 }
    ensures cache { c.new.cache ≡ c.old.cache }
    ensures limits { c.new.limits ≡ c.old.limits }
{
    let number = c.next_bid();
    (number, demands_of(c.demand()))
}

/// The first bid as it goes over a link.
fn bid_on_link<R: Abort>(rt: &R, alloc: Global, c: &mut Concentrator) -> FirstBid
    requires last { c.old.window.last ≡ 0 }
    requires steps { c.old.cache.steps ≡ 10 }
    ensures cache { c.new.cache ≡ c.old.cache }
    ensures limits { c.new.limits ≡ c.old.limits }
{
    let mut up = Link::new(alloc, 10).expect(rt, "memory");
    let number = c.publish(&mut up);
    let mut demand = ArrayBid::zero(alloc, 10, &mut uncounted()).expect(rt, "memory");
    up.take_bid(&mut demand).expect(rt, "a bid");
    (number, demands_of(&demand))
}

/// The prices of two children for a price that answers number 1, as values.
fn prices_as_values(
    rt: &impl Abort,
    c: &mut Concentrator,
    price: PriceUpdate,
) -> [Option<PriceUpdate>; 2]
    requires children { length c.old.cache.heads ≡ 2 }
    requires step { IsStepOf c.old.limits c.old.cache.steps price.step }
{
    assert!(rt; c.keeps(price.number));
    let prices = c.prices(price);
    let each = [prices.for_child(0), prices.for_child(1)];
    c.answer(price.number);
    each
}

/// The prices of two children for a price of index 1, as they go over links.
fn prices_on_links(
    rt: &impl Abort,
    alloc: Global,
    c: &mut Concentrator,
    price: PriceUpdate,
) -> [Option<PriceUpdate>; 2]
    requires children { length c.old.cache.heads ≡ 2 }
    requires index { price.index ≡ 1 }
    requires step { IsStepOf c.old.limits c.old.cache.steps price.step }
{
    assert!(rt; c.keeps(price.number));
    let mut downs = new_links(rt, alloc, 2);
    same(rt, price, c.pass(price, &mut downs), Ok(()));
    [downs[0].take_price(), downs[1].take_price()]
}

/// The price of step 0 that answers number 1.
const ANSWER: PriceUpdate = PriceUpdate {
    step: 0,
    number: 1,
    index: 1,
};

/// What goes down for it to two children of whom the first bids, if its step is then this one.
fn below(step: u32) -> [Option<PriceUpdate>; 2] {
    [Some(PriceUpdate { step, ..ANSWER }), None]
}

/// After the first child's bid it sends these demands as values, and a price of this step for the price that answers it.
fn values_are<R: Abort>(rt: &R, c: &mut Concentrator, bid: &ArrayBid, demands: [i64; 10], step: u32)
    requires last { c.old.window.last ≡ 0 }
    requires steps { c.old.cache.steps ≡ 10 }
    requires children { length c.old.cache.heads ≡ 2 }
    requires bid_steps { length bid.now ≡ 10 }
    requires small { AllWithinLimit demand_limit bid.now }
    requires single { HasSingleBids c.old.cache }
    requires price { IsStepOf c.old.limits c.old.cache.steps 0 }
{
    same(rt, "learnt", learn(c, 0, 1, bid), Ok(()));
    same(rt, "bid as a value", bid_as_value(c), (Ok(1), demands));
    let have = prices_as_values(rt, c, ANSWER);
    same(rt, "prices as values", have, below(step));
}

/// The same over links.
fn links_are<R: Abort>(
    rt: &R,
    alloc: Global,
    c: &mut Concentrator,
    bid: &ArrayBid,
    demands: [i64; 10],
    step: u32,
)
    requires last { c.old.window.last ≡ 0 }
    requires steps { c.old.cache.steps ≡ 10 }
    requires children { length c.old.cache.heads ≡ 2 }
    requires bid_steps { length bid.now ≡ 10 }
    requires small { AllWithinLimit demand_limit bid.now }
    requires single { HasSingleBids c.old.cache }
    requires price { IsStepOf c.old.limits c.old.cache.steps 0 }
{
    same(rt, "learnt", learn(c, 0, 1, bid), Ok(()));
    let have = bid_on_link(rt, alloc, c);
    same(rt, "bid on a link", have, (Ok(1), demands));
    let have = prices_on_links(rt, alloc, c, ANSWER);
    same(rt, "prices on links", have, below(step));
}

/// Demands of a child. Step 3 is the first at which they are at most 150 watts.
const DEMANDS: [i64; 10] = [300, 250, 200, 150, 100, 50, 0, -50, -100, -150];

/// The same within a floor of -100 watts and a ceiling of 150.
const LIMITED: [i64; 10] = [150, 150, 150, 150, 100, 50, 0, -50, -100, -100];

/// The first of two children bids; the second sends nothing. At step 0 the sum is 300 watts.
#[test]
fn messages_as_values_are_those_on_links(rt: HostRuntime) {
    let alloc = rt.alloc();
    let bid = long_bid_of(&rt, alloc, &DEMANDS);
    let mut valued = Concentrator::new(alloc, 2, 10).expect(&rt, "memory");
    values_are(&rt, &mut valued, &bid, DEMANDS, 0);
    let mut linked = Concentrator::new(alloc, 2, 10).expect(&rt, "memory");
    links_are(&rt, alloc, &mut linked, &bid, DEMANDS, 0);
}

/// The same within limits.
#[test]
fn limited_messages_are_those_on_links(rt: HostRuntime) {
    let alloc = rt.alloc();
    let bid = long_bid_of(&rt, alloc, &DEMANDS);
    let mut valued = Concentrator::limited(alloc, 2, 10, -100, 150).expect(&rt, "memory");
    values_are(&rt, &mut valued, &bid, LIMITED, 3);
    let mut linked = Concentrator::limited(alloc, 2, 10, -100, 150).expect(&rt, "memory");
    links_are(&rt, alloc, &mut linked, &bid, LIMITED, 3);
}

/// Concentrators and faults may be sent to threads and shared by them: it is proved here.
#[test]
fn concentrators_may_be_shared() {
    may_be_shared::<(Concentrator, PublishFault)>();
}
