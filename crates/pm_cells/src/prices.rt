//! Puts a price into the link's cell for prices, and takes the newest from it, without a lock.

ghost use Rattle.std.specs.Prelude.{◌≡◌, ◌≢◌, ◌<◌, All, Contains, IfOk, IfErr, IfSome, IfNone, Some, None, length};
ghost use Rattle.pm_cells.specs.declared.message.Message.TheVariants as Messages;
ghost use Rattle.pm_cells.specs.Numbers.{newest_number};
ghost use Rattle.pm_cells.specs.Calls.{PutsOne, TakesOne, LosesOne, FindsNone};
ghost use Rattle.pm_cells.specs.Ends.{LinkEnd, price_handed_back, after_put_price, after_lost_price, after_taken_price, after_no_price};

use crate::ends::{ChildEnd, PRICES, ParentEnd};
use crate::fault::{Busy, PutPriceFault};
use crate::link::FreeLink;
use crate::message::{Message, UpMessage};
use crate::steps::{ClaimToPutPrice, ClaimToTakePrice, ReleasePutPrice, ReleaseTakenPrice};
use pm_session::PriceUpdate;

/// Puts a price, whole as it is, whose index is above all put before, and which names a bid that this end took. It takes
/// the place of one that was not taken. `Busy` comes exactly where the end lost its claim of the slot; the price is
/// handed back then.
pub fn put_price(
    link: &FreeLink,
    end: &mut ParentEnd,
    price: PriceUpdate,
) -> Result<(), PutPriceFault>
    requires end { end.old.link ≡ link.now }
    requires index { newest_number end.old.known.down.puts < price.index }
    requires number { Contains end.old.known.up.takes price.number }
    requires room { length end.old.known.down.puts < end.old.room }
    ensures put { IfOk result (λ _. end.new ≡ after_put_price end.old price) }
    ensures lost { IfErr result (λ _. end.new ≡ after_lost_price end.old) }
    ensures back { IfErr result (λ fault. fault ≡ price_handed_back price) }

    // The same in numbers and lists: `lost` rises by one exactly with `Busy`, and this price is the one that was put.
    ensures puts_one { IfOk result (λ _.
        PutsOne end.old.known.down end.new.known.down price.index (Messages.Price price)) }
    ensures loses_one { IfErr result (λ _. LosesOne end.old.known.down end.new.known.down) }
    ensures bids_stay { end.new.known.up ≡ end.old.known.up }
{
    let shared = &link.table.shared;
    let found = shared.fetch_or::<ClaimToPutPrice>(&mut end.seat, PRICES, 1);
    if found % 2 == 1 {
        return Err(PutPriceFault::Busy { price });
    }
    let old = shared.exchange(&mut end.seat, PRICES, Some(Message::Price(price)));
    shared.store::<ReleasePutPrice>(&mut end.seat, PRICES, u64::from(price.index) * 2);
    drop(old);
    end.puts.push_reserved(price.index);
    Ok(())
}

/// Takes the price that waits, whose index is above all taken before, and answers it whole as it was found. It names a
/// bid that this end put. None comes exactly where the word has the index that was taken last, 0 at first. `Busy` comes
/// exactly where the end lost its claim of the slot.
pub fn take_price(link: &FreeLink, end: &mut ChildEnd) -> Result<Option<PriceUpdate>, Busy>
    requires end { end.old.link ≡ link.now }
    requires room { length end.old.known.down.takes < end.old.room }
    ensures taken { IfOk result (λ taken. IfSome taken
        (λ price. end.new ≡ after_taken_price end.old price)) }
    ensures above { IfOk result (λ taken. IfSome taken
        (λ price. All (λ n. n < price.index) end.old.known.down.takes)) }
    ensures names { IfOk result (λ taken. IfSome taken
        (λ price. Contains end.old.known.up.puts price.number)) }
    ensures none { IfOk result (λ taken. IfNone taken (end.new ≡ after_no_price end.old)) }
    ensures lost { IfErr result (λ _. end.new ≡ after_lost_price end.old) }

    // The same in numbers and lists: `empty` rises by one exactly with None and `lost` exactly with `Busy`, and this price is
    // the one that was taken.
    ensures takes_one { IfOk result (λ taken. IfSome taken (λ price.
        TakesOne end.old.known.down end.new.known.down price.index (Messages.Price price))) }
    ensures finds_none { IfOk result (λ taken. IfNone taken
        (FindsNone end.old.known.down end.new.known.down)) }
    ensures loses_one { IfErr result (λ _. LosesOne end.old.known.down end.new.known.down) }
    ensures bids_stay { end.new.known.up ≡ end.old.known.up }
{
    let shared = &link.table.shared;
    let found = shared.fetch_or::<ClaimToTakePrice>(&mut end.seat, PRICES, 1);
    if found % 2 == 1 {
        return Err(Busy);
    }
    let message = shared.exchange(&mut end.seat, PRICES, None);
    shared.store::<ReleaseTakenPrice>(&mut end.seat, PRICES, found);
    match price_in(message) {
        Some(price) => {
            end.takes.push_reserved(price.index);
            Ok(Some(price))
        }
        None => Ok(None),
    }
}

/// The price in a slot that has no bid.
fn price_in(message: Option<Message>) -> Option<PriceUpdate>
    requires { (bid : UpMessage) → message ≢ Some (Messages.Bid bid) }
    ensures some { IfSome result (λ price. message ≡ Some (Messages.Price price)) }
    ensures none { IfNone result (message ≡ None) }
{
    match message {
        Some(Message::Price(price)) => Some(price),
        Some(Message::Bid(_)) => unreachable!(),
        None => None,
    }
}
