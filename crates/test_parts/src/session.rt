//! Tests of links, windows and ports: what waits, what is kept, and what a port drops.

ghost use Rattle.std.specs.Prelude.{◌≡◌, length};
ghost use Rattle.pm_session.specs.Links.{new_session};
ghost use Rattle.pm_session.specs.Windows.{Keeps};

use crate::bids::long_bid_of;
use crate::same::same;
use crate::shared::may_be_shared;
use pm_bid::{ArrayBid, uncounted};
use pm_session::{BidHead, Held, Link, Port, PriceUpdate, Prices, Record, Window};
use std::alloc::Global;
use std::process::Abort;

/// A load of 100 watts at ten steps.
fn load<R: Abort>(rt: &R, alloc: Global) -> ArrayBid
    ensures { length result ≡ 10 }
{
    long_bid_of(rt, alloc, &[100; 10])
}

/// A bid of ten steps without power.
fn no_power<R: Abort>(rt: &R, alloc: Global) -> ArrayBid
    ensures { length result ≡ 10 }
{
    ArrayBid::zero(alloc, 10, &mut uncounted()).expect(rt, "memory")
}

/// A new link of ten steps.
fn link_of<R: Abort>(rt: &R, alloc: Global) -> Link
    ensures { result ≡ new_session 10 }
{
    Link::new(alloc, 10).expect(rt, "memory")
}

#[test]
fn the_price_that_waits_is_given_once(rt: HostRuntime) {
    let mut link = link_of(&rt, rt.alloc());
    let price = PriceUpdate {
        step: 9,
        number: 1,
        index: 1,
    };
    same(&rt, "none", link.take_price(), None);
    same(&rt, "offered", link.offer_price(price), Ok(()));
    same(&rt, "first", link.take_price(), Some(price));
    same(&rt, "second", link.take_price(), None);
}

#[test]
fn the_newest_bid_is_given_alone(rt: HostRuntime) {
    let load = load(&rt, rt.alloc());
    let mut link = link_of(&rt, rt.alloc());
    let mut taken = no_power(&rt, rt.alloc());
    same(&rt, "load", link.offer_bid(1, Some(&load)), Ok(()));
    same(&rt, "gone", link.offer_bid(2, None), Ok(()));
    let gone = BidHead {
        number: 2,
        gone: true,
    };
    same(&rt, "first", link.take_bid(&mut taken), Some(gone));
    same(&rt, "second", link.take_bid(&mut taken), None);
}

/// A link that takes the load's bid gives in exchange what it had. A newer bid in its place gives the load's back.
#[test]
fn a_bid_is_given_in_exchange(rt: HostRuntime) {
    let mut bid = load(&rt, rt.alloc());
    let mut newer = no_power(&rt, rt.alloc());
    let mut link = link_of(&rt, rt.alloc());
    link.exchange_bid(1, &mut bid);
    link.exchange_bid(2, &mut newer);
    let mut counter = uncounted();
    same(&rt, "older", newer.at(9, &mut counter), 100);
    let newest = BidHead {
        number: 2,
        gone: false,
    };
    same(&rt, "newest", link.take_bid(&mut newer), Some(newest));
    same(&rt, "demand", newer.at(9, &mut counter), 0);
}

/// Answers number 1 with its record, after which there is room for 8 more.
fn gives_the_record(rt: &impl Abort, window: &mut Window, head: BidHead)
    requires kept { Keeps window.old 1 }
    ensures kept { Keeps window.new 1 }
{
    let record = window.answered(1);
    same(rt, "number", record.number(), 1);
    same(rt, "children", record.children(), [head].as_slice());
    assert!(rt; record.sum().is_none());
    same(rt, "room", window.room(), 8);
}

#[test]
fn the_record_that_is_answered_is_kept(rt: HostRuntime) {
    let head = BidHead {
        number: 1,
        gone: false,
    };
    let mut window = Window::new(rt.alloc(), 1).expect(&rt, "memory");
    same(&rt, "room", window.room(), 8);
    same(&rt, "sent", window.sent(1, &[head]), Ok(()));
    same(&rt, "room", window.room(), 7);
    gives_the_record(&rt, &mut window, head);
    gives_the_record(&rt, &mut window, head);
}

/// The step and the number of the price that the port holds.
fn held(port: &Port) -> Option<(u32, u32)> {
    let held = port.held()?;
    Some((held.step, held.number))
}

fn price(step: u32, number: u32, index: u32) -> PriceUpdate {
    PriceUpdate {
        step,
        number,
        index,
    }
}

#[test]
fn a_port_drops_the_price_of_a_former_session(rt: HostRuntime) {
    let mut port = Port::new();
    port.joined(1);
    port.price(price(9, 1, 1));
    same(&rt, "joined", held(&port), Some((9, 1)));
    port.left();
    same(&rt, "left", held(&port), None);
    port.joined(3);
    port.price(price(4, 1, 2));
    same(&rt, "former", held(&port), None);
    port.price(price(4, 3, 3));
    same(&rt, "newest", held(&port), Some((4, 3)));
}

/// Links, windows, records, ports and prices may be sent to threads and shared by them: it is
/// proved here.
#[test]
fn sessions_may_be_shared() {
    may_be_shared::<(Link, PriceUpdate, Prices)>();
    may_be_shared::<(Window, Record)>();
    may_be_shared::<(Port, Held)>();
}
