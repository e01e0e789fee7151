//! The test of a link without a lock between two threads.

ghost use Rattle.std.specs.Prelude.{◌≡◌, IfOk};
ghost use Rattle.std.specs.Thread.{IsSync};

use super::gone;
use crate::same::same;
use pm_cells::{
    ChildEnd, FreeLink, LinkLog, ParentEnd, PriceUpdate, close_link, open_link, put_bid, put_price,
    take_bid, take_price,
};
use std::alloc::{AllocError, Global};
use std::process::Abort;
use std::thread::{Threads, join};

const TURNS: u32 = 2000;

/// Takes a price, if one waits.
fn take_waiting(link: &FreeLink, end: &mut ChildEnd)
    requires { end.old.link ≡ link.now }
    ensures { end.new.link ≡ end.old.link }
{
    if end.takes().len() < end.room() {
        let _taken = take_price(link, end).is_ok();
    }
}

/// Puts the next bid, and takes a price.
fn child_turn(link: &FreeLink, end: &mut ChildEnd)
    requires { end.old.link ≡ link.now }
    ensures { end.new.link ≡ end.old.link }
{
    let newest = end.newest_put();
    if end.puts().len() < end.room() && newest < TURNS {
        let _put = put_bid(link, end, gone(newest + 1)).is_ok();
    }
    take_waiting(link, end);
}

/// Takes a bid, and puts the next price for the newest bid taken.
fn parent_turn(link: &FreeLink, end: &mut ParentEnd)
    requires { end.old.link ≡ link.now }
    ensures { end.new.link ≡ end.old.link }
{
    if end.takes().len() < end.room() {
        let _taken = take_bid(link, end).is_ok();
    }
    let newest = end.newest_put();
    let number = end.newest_taken();
    if end.has_taken(number) && end.puts().len() < end.room() && newest < TURNS {
        let price = PriceUpdate {
            step: 0,
            number,
            index: newest + 1,
        };
        let _put = put_price(link, end, price).is_ok();
    }
}

fn child_turns(link: &FreeLink, end: ChildEnd) -> ChildEnd
    requires { end.link ≡ link.now }
    ensures { result.link ≡ end.link }
{
    let mut end = end;
    for _ in 0..TURNS {
        child_turn(link, &mut end);
    }
    end
}

fn parent_turns(link: &FreeLink, end: ParentEnd) -> ParentEnd
    requires { end.link ≡ link.now }
    ensures { result.link ≡ end.link }
{
    let mut end = end;
    for _ in 0..TURNS {
        parent_turn(link, &mut end);
    }
    end
}

/// A thread for each end.
fn drive<R: Threads + Sync>(
    rt: &R,
    link: &FreeLink,
    child: ChildEnd,
    parent: ParentEnd,
) -> (ChildEnd, ParentEnd)
    requires child { child.link ≡ link.now }
    requires parent { parent.link ≡ link.now }
    ensures child { result.0.link ≡ child.link }
    ensures parent { result.1.link ≡ parent.link }
{
    join(
        rt,
        move || -> ChildEnd
            requires { child.link ≡ link.now }
            ensures { result.link ≡ child.link }
        { child_turns(link, child) },
        move || -> ParentEnd
            requires { parent.link ≡ link.now }
            ensures { result.link ≡ parent.link }
        { parent_turns(link, parent) },
    )
}

/// Bids and prices were put, and the last of each was taken.
fn newest_is_taken(rt: &impl Abort, log: &LinkLog) {
    assert!(rt; !log.bid_puts.is_empty() && !log.price_puts.is_empty());
    same(rt, "bid", log.bid_takes.last(), log.bid_puts.last());
    same(rt, "price", log.price_takes.last(), log.price_puts.last());
}

/// Whatever the two threads did, the newest bid and the newest price are left on the link, and both are taken then. A thread
/// that was put aside within a call kept the other from the slot. So each end has one more turn when both are back.
#[test]
fn a_link_between_two_threads(rt: HostRuntime) {
    let room = TURNS as usize + 1;
    let (link, child, parent) = open_link(rt.alloc(), room).expect(&rt, "memory");
    let (mut child, mut parent) = drive(&rt, &link, child, parent);
    child_turn(&link, &mut child);
    parent_turn(&link, &mut parent);
    take_waiting(&link, &mut child);
    newest_is_taken(&rt, &close_link(link, child, parent));
}
