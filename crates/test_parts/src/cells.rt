//! Tests of links without a lock on one thread: the newest message is taken once.

ghost use Rattle.std.specs.Prelude.{◌≡◌};

mod two_threads;

use crate::same::same;
use crate::shared::may_be_shared;
use pm_cells::{
    Busy, ChildEnd, FreeLink, LinkLog, ParentEnd, PriceUpdate, PutBidFault, UpMessage, close_link,
    open_link, put_bid, put_price, take_bid, take_price,
};
use std::process::Abort;

/// A bid that is gone.
fn gone(number: u32) -> UpMessage
    ensures { result.number ≡ number }
{
    UpMessage {
        number,
        demand: None,
    }
}

/// Puts a bid.
fn put_number(rt: &impl Abort, link: &FreeLink, end: &mut ChildEnd, number: u32)
    requires { end.old.link ≡ link.now }
    ensures { end.new.link ≡ end.old.link }
{
    assert!(rt; end.newest_put() < number && end.puts().len() < end.room());
    same(rt, number, put_bid(link, end, gone(number)).is_ok(), true);
}

/// Takes a bid: its number.
fn take_number(rt: &impl Abort, link: &FreeLink, end: &mut ParentEnd) -> Option<u32>
    requires { end.old.link ≡ link.now }
    ensures { end.new.link ≡ end.old.link }
{
    assert!(rt; end.takes().len() < end.room());
    match take_bid(link, end) {
        Ok(Some(bid)) => Some(bid.number),
        Ok(None) => None,
        Err(Busy) => panic!(rt; "the slot of the bids is taken"),
    }
}

/// Puts a price.
fn put_update(rt: &impl Abort, link: &FreeLink, end: &mut ParentEnd, price: PriceUpdate)
    requires { end.old.link ≡ link.now }
    ensures { end.new.link ≡ end.old.link }
{
    assert!(rt; end.newest_put() < price.index && end.puts().len() < end.room());
    assert!(rt; end.has_taken(price.number));
    same(rt, price, put_price(link, end, price), Ok(()));
}

/// Takes a price.
fn take_update(
    rt: &impl Abort,
    link: &FreeLink,
    end: &mut ChildEnd,
) -> Result<Option<PriceUpdate>, Busy>
    requires { end.old.link ≡ link.now }
    ensures { end.new.link ≡ end.old.link }
{
    assert!(rt; end.takes().len() < end.room());
    take_price(link, end)
}

/// Two bids are put, and the second is taken, once.
fn bids_go_up(rt: &impl Abort, link: &FreeLink, child: &mut ChildEnd, parent: &mut ParentEnd)
    requires child { child.old.link ≡ link.now }
    requires parent { parent.old.link ≡ link.now }
    ensures child { child.new.link ≡ child.old.link }
    ensures parent { parent.new.link ≡ parent.old.link }
{
    same(rt, "none", take_number(rt, link, parent), None);
    put_number(rt, link, child, 1);
    put_number(rt, link, child, 2);
    same(rt, "first", take_number(rt, link, parent), Some(2));
    same(rt, "second", take_number(rt, link, parent), None);
    let newest = (child.newest_put(), parent.newest_taken());
    same(rt, "newest", newest, (2, 2));
}

/// A price is put, and taken once.
fn prices_come_down(rt: &impl Abort, link: &FreeLink, child: &mut ChildEnd, parent: &mut ParentEnd)
    requires child { child.old.link ≡ link.now }
    requires parent { parent.old.link ≡ link.now }
    ensures child { child.new.link ≡ child.old.link }
    ensures parent { parent.new.link ≡ parent.old.link }
{
    let price = PriceUpdate {
        step: 9,
        number: 2,
        index: 1,
    };
    put_update(rt, link, parent, price);
    same(rt, "first", take_update(rt, link, child), Ok(Some(price)));
    same(rt, "second", take_update(rt, link, child), Ok(None));
    let newest = (parent.newest_put(), child.newest_taken());
    same(rt, "newest", newest, (1, 1));
}

/// Both bids and the second of them, then the price, which was put and taken.
fn log_is(rt: &impl Abort, log: &LinkLog) {
    let bids = (log.bid_puts.as_slice(), log.bid_takes.as_slice());
    same(rt, "bids", bids, (&[1, 2], &[2]));
    let prices = (log.price_puts.as_slice(), log.price_takes.as_slice());
    same(rt, "prices", prices, (&[1], &[1]));
}

#[test]
fn the_newest_message_is_taken_once(rt: HostRuntime) {
    let (link, mut child, mut parent) = open_link(rt.alloc(), 4).expect(&rt, "memory");
    bids_go_up(&rt, &link, &mut child, &mut parent);
    prices_come_down(&rt, &link, &mut child, &mut parent);
    log_is(&rt, &close_link(link, child, parent));
}

/// Types that it is called with may be sent to threads: that is proved at each call.
fn may_be_sent<T: Send>() {}

/// A link may be shared by threads, and its ends, messages, faults and log may be sent to them: it is proved here.
#[test]
fn links_may_be_shared_and_ends_sent() {
    may_be_shared::<FreeLink>();
    may_be_sent::<(UpMessage, PutBidFault)>();
    may_be_sent::<(PriceUpdate, Busy)>();
    may_be_sent::<(ChildEnd, ParentEnd, LinkLog)>();
}
