//! The calls of a node on its ends of links; what cannot be put now waits.

ghost use Rattle.std.specs.Prelude.{◌≡◌};
ghost use Rattle.pm_phase.specs.Ends.{IsUpOf, IsDownOf};
ghost use Rattle.pm_phase.specs.Waiting.{PutsBid, PutsPrice, TakesBidFromLink, TakesPriceFromLink};

use pm_cells::{
    Busy, ChildEnd, FreeLink, ParentEnd, PutBidFault, PutPriceFault, UpMessage, put_bid, put_price,
    take_bid, take_price,
};
use pm_session::PriceUpdate;

/// A node's end of the link to its parent, and where that link stands among the links.
#[derive(Drop)]
pub(crate) struct UpEnd {
    pub(crate) at: usize,
    pub(crate) end: ChildEnd,
}

/// A node's end of the link to a child, and where that link stands among the links.
#[derive(Drop)]
pub(crate) struct DownEnd {
    pub(crate) at: usize,
    pub(crate) end: ParentEnd,
}

/// Puts the bid that waits, if there is one; whether it was put. A bid that is handed back waits on, and one that the end may
/// not put is dropped.
pub(crate) fn put_waiting_bid(
    links: &[FreeLink],
    up: &mut UpEnd,
    waiting: &mut Option<UpMessage>,
) -> bool
    requires { IsUpOf links.now up.old }
    ensures link { IsUpOf links.now up.new }
    ensures place { up.new.at ≡ up.old.at }
    ensures put { PutsBid up.old.end up.new.end waiting.old waiting.new result }
{
    let Some(bid) = waiting.take() else {
        return false;
    };
    if bid.number <= up.end.newest_put() || up.end.puts().len() >= up.end.room() {
        return false;
    }
    match put_bid(&links[up.at], &mut up.end, bid) {
        Ok(()) => true,
        Err(PutBidFault::Busy { message }) => {
            *waiting = Some(message);
            false
        }
    }
}

/// Takes a price from the parent, if the end may and one waits there.
pub(crate) fn take_price_from_parent(links: &[FreeLink], up: &mut UpEnd) -> Option<PriceUpdate>
    requires { IsUpOf links.now up.old }
    ensures link { IsUpOf links.now up.new }
    ensures place { up.new.at ≡ up.old.at }
    ensures taken { TakesPriceFromLink up.old.end up.new.end result }
{
    if up.end.takes().len() >= up.end.room() {
        return None;
    }
    match take_price(&links[up.at], &mut up.end) {
        Ok(price) => price,
        Err(Busy) => None,
    }
}

/// Takes a bid from a child, if the end may and one waits there.
pub(crate) fn take_bid_from_child(links: &[FreeLink], down: &mut DownEnd) -> Option<UpMessage>
    requires { IsDownOf links.now down.old }
    ensures link { IsDownOf links.now down.new }
    ensures place { down.new.at ≡ down.old.at }
    ensures taken { TakesBidFromLink down.old.end down.new.end result }
{
    if down.end.takes().len() >= down.end.room() {
        return None;
    }
    match take_bid(&links[down.at], &mut down.end) {
        Ok(bid) => bid,
        Err(Busy) => None,
    }
}

/// Puts the price that waits for a child, if there is one; whether it was put. A price that is handed back waits on, and one
/// that the end may not put is dropped.
pub(crate) fn put_waiting_price(
    links: &[FreeLink],
    down: &mut DownEnd,
    waiting: &mut Option<PriceUpdate>,
) -> bool
    requires { IsDownOf links.now down.old }
    ensures link { IsDownOf links.now down.new }
    ensures place { down.new.at ≡ down.old.at }
    ensures put { PutsPrice down.old.end down.new.end waiting.old waiting.new result }
{
    let Some(price) = waiting.take() else {
        return false;
    };
    let is_new = price.index > down.end.newest_put() && down.end.puts().len() < down.end.room();
    if !is_new || !down.end.has_taken(price.number) {
        return false;
    }
    match put_price(&links[down.at], &mut down.end, price) {
        Ok(()) => true,
        Err(PutPriceFault::Busy { price }) => {
            *waiting = Some(price);
            false
        }
    }
}
