//! Puts a bid into the link's cell for bids, and takes the newest from it, without a lock.

ghost use Rattle.std.specs.Prelude.{◌≡◌, ◌<◌, All, IfOk, IfErr, IfSome, IfNone, length};
ghost use Rattle.pm_cells.specs.Numbers.{newest_number};
ghost use Rattle.pm_cells.specs.Calls.{PutsOne, TakesOne, LosesOne, FindsNone};
ghost use Rattle.pm_cells.specs.declared.message.Message.TheVariants as Messages;
ghost use Rattle.pm_cells.specs.Ends.{LinkEnd, bid_handed_back, after_put_bid, after_lost_bid, after_taken_bid, after_no_bid};

use crate::ends::{BIDS, ChildEnd, ParentEnd};
use crate::fault::{Busy, PutBidFault};
use crate::link::FreeLink;
use crate::message::{Message, UpMessage};
use crate::steps::{ClaimToPutBid, ClaimToTakeBid, ReleasePutBid, ReleaseTakenBid};

/// Puts a bid, whole as it is, under a number that is above all put before. It takes the place of one that was not taken.
/// `Busy` comes exactly where the end lost its claim of the slot; the message is handed back then.
pub fn put_bid(link: &FreeLink, end: &mut ChildEnd, message: UpMessage) -> Result<(), PutBidFault>
    requires end { end.old.link ≡ link.now }
    requires number { newest_number end.old.known.up.puts < message.number }
    requires room { length end.old.known.up.puts < end.old.room }
    ensures put { IfOk result (λ _. end.new ≡ after_put_bid end.old message) }
    ensures lost { IfErr result (λ _. end.new ≡ after_lost_bid end.old) }
    ensures back { IfErr result (λ fault. fault ≡ bid_handed_back message) }

    // The same in numbers and lists: `lost` rises by one exactly with `Busy`, and this message is the one that was put.
    ensures puts_one { IfOk result (λ _.
        PutsOne end.old.known.up end.new.known.up message.number (Messages.Bid message)) }
    ensures loses_one { IfErr result (λ _. LosesOne end.old.known.up end.new.known.up) }
    ensures prices_stay { end.new.known.down ≡ end.old.known.down }
{
    let shared = &link.table.shared;
    let found = shared.fetch_or::<ClaimToPutBid>(&mut end.seat, BIDS, 1);
    if found % 2 == 1 {
        return Err(PutBidFault::Busy { message });
    }
    let number = message.number;
    let old = shared.exchange(&mut end.seat, BIDS, Some(Message::Bid(message)));
    shared.store::<ReleasePutBid>(&mut end.seat, BIDS, u64::from(number) * 2);
    // Dropped only now, so that the slot is not kept while memory is freed.
    drop(old);
    end.puts.push_reserved(number);
    Ok(())
}

/// Takes the bid that waits, whose number is above all taken before, and answers it whole as it was found. None comes
/// exactly where the word has the number that was taken last, 0 at first. `Busy` comes exactly where the end lost its
/// claim of the slot.
pub fn take_bid(link: &FreeLink, end: &mut ParentEnd) -> Result<Option<UpMessage>, Busy>
    requires end { end.old.link ≡ link.now }
    requires room { length end.old.known.up.takes < end.old.room }
    ensures taken { IfOk result (λ taken. IfSome taken
        (λ bid. end.new ≡ after_taken_bid end.old bid)) }
    ensures above { IfOk result (λ taken. IfSome taken
        (λ bid. All (λ n. n < bid.number) end.old.known.up.takes)) }
    ensures none { IfOk result (λ taken. IfNone taken (end.new ≡ after_no_bid end.old)) }
    ensures lost { IfErr result (λ _. end.new ≡ after_lost_bid end.old) }

    // The same in numbers and lists: `empty` rises by one exactly with None and `lost` exactly with `Busy`, and this bid is the
    // one that was taken.
    ensures takes_one { IfOk result (λ taken. IfSome taken (λ bid.
        TakesOne end.old.known.up end.new.known.up bid.number (Messages.Bid bid))) }
    ensures finds_none { IfOk result (λ taken. IfNone taken
        (FindsNone end.old.known.up end.new.known.up)) }
    ensures loses_one { IfErr result (λ _. LosesOne end.old.known.up end.new.known.up) }
    ensures prices_stay { end.new.known.down ≡ end.old.known.down }
{
    let shared = &link.table.shared;
    let found = shared.fetch_or::<ClaimToTakeBid>(&mut end.seat, BIDS, 1);
    if found % 2 == 1 {
        return Err(Busy);
    }
    let message = shared.exchange(&mut end.seat, BIDS, None);
    shared.store::<ReleaseTakenBid>(&mut end.seat, BIDS, found);
    match message {
        Some(Message::Bid(bid)) => {
            end.takes.push_reserved(bid.number);
            Ok(Some(bid))
        }
        Some(Message::Price(_)) => unreachable!(),
        None => Ok(None),
    }
}
