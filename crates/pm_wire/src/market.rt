//! What the auctioneer of a stream knows, and how it answers a frame.

ghost use Rattle.std.specs.Prelude.{◌≡◌, ◌+◌, ◌*◌, ◌<◌, ◌≤◌, ◌++◌, ◌^◌, length, vec_len, vec_capacity, IfOk, OnOk, OnErr, Some};
ghost use Rattle.std.specs.Option.{option_copied};
ghost use Rattle.pm_base.specs.Limits.{AreSteps, demand_limit};
ghost use Rattle.pm_bid.specs.Bids.{AllWithinLimit};
ghost use Rattle.pm_cache.specs.Learning.{demand_of_offer};
ghost use Rattle.pm_session.specs.Prices.{head_at};
ghost use Rattle.pm_wire.specs.Kinds.{bare_price_size};
ghost use Rattle.pm_wire.specs.Frames.{MayStand};
ghost use Rattle.pm_wire.specs.Answers.{open_market, after_entry, after_clear, receipt, price_for, prices, reply_bytes, answers_to, market_after};
ghost use Rattle.pm_wire.specs.Memory.{reply_limit};
ghost use Rattle.pm_wire.specs.ServerFields.{IsMarket};

use crate::answer::Reply;
use crate::frame::Frame;
use crate::kinds::BARE_PRICE_SIZE;
use pm_auctioneer::Auctioneer;
use pm_base::MOST_NODES;
use pm_bid::ArrayBid;
use pm_cache::CacheFault;
use pm_session::Prices;
use std::alloc::{AllocError, Global};
use std::marker::Model;

/// The most bytes of the answers to a frame: a price for each child.
pub(crate) const REPLY_LIMIT: usize = BARE_PRICE_SIZE * MOST_NODES;

/// The auctioneer once it has a basis.
///
/// Contracts see the newest Bid or Gone of each child that counted, the index of the last clearing, 0 if there is none,
/// and whether a Bid or Gone counted since.
#[derive(Drop)]
pub(crate) struct OpenMarket {
    auctioneer: Auctioneer,
}

impl Model for OpenMarket {
    ghost use Rattle.pm_wire.specs.Answers.{OpenMarket};

    ghost Value = { OpenMarket };

    ghost use Rattle.pm_wire.specs.MarketFields.{market_of};

    ghost view = { λ inside. market_of inside.auctioneer };
}

/// Appends the price for the child in a place, unless it is gone. On the stream the children count from 1. An allocation
/// fails only where there was no room for a price.
fn write_price(clearing: &Prices<'_>, place: usize, out: &mut Vec<u8>) -> Result<(), AllocError>
    requires place { place < length clearing.now.heads.now }
    requires children { length clearing.now.heads.now + 1 < 2 ^ 16 }
    requires step { clearing.now.step < 2 ^ 16 }
    ensures written { OnOk result (out.new.items ≡ out.old.items
        ++ reply_bytes (price_for clearing.now.index clearing.now.step (place + 1)
        (head_at clearing.now.heads.now place))) }
    ensures full { OnErr result (vec_capacity out.old < vec_len out.old + bare_price_size) }
    ensures capacity { vec_capacity out.old ≤ vec_capacity out.new }
{
    let Some(price) = clearing.for_child(place) else {
        return Ok(());
    };
    let answer = Reply::Price {
        child: (place + 1) as u16,
        number: price.number,
        index: price.index,
        step: price.step as u16,
    };
    answer.write(out)
}

/// Appends the price for each child that is not gone, by their places. There is room for as many prices.
pub fn write_prices(clearing: &Prices<'_>, out: &mut Vec<u8>)
    requires children { length clearing.now.heads.now + 1 < 2 ^ 16 }
    requires step { clearing.now.step < 2 ^ 16 }
    requires room { vec_len out.old + bare_price_size * length clearing.now.heads.now
        ≤ vec_capacity out.old }
    ensures written { out.new.items ≡ out.old.items ++ reply_bytes
        (prices clearing.now.index clearing.now.step 1 clearing.now.heads.now) }
    ensures capacity { vec_capacity out.old ≤ vec_capacity out.new }
{
    for place in 0..clearing.children() {
        let Ok(()) = write_price(clearing, place, out) else {
            unreachable!()
        };
    }
}

impl OpenMarket {
    /// A market of so many steps in which nothing was sent.
    pub(crate) fn new(alloc: Global, steps: usize) -> Result<OpenMarket, AllocError>
        requires { AreSteps steps }
        ensures new { IfOk result (λ market. market ≡ open_market steps) }
        ensures sound { IfOk result IsMarket }
    {
        let auctioneer = Auctioneer::new(alloc, MOST_NODES, steps)?;
        Ok(OpenMarket { auctioneer })
    }

    /// Takes a child's Bid, or its Gone if there is no demand, and appends its receipt.
    fn count(
        &mut self,
        child: u16,
        number: u32,
        demand: Option<&ArrayBid>,
        out: &mut Vec<u8>,
    ) -> Result<(), AllocError>
        requires sound { IsMarket self.old }
        requires first { 1 ≤ child }
        requires last { child ≤ length self.old.cache.heads }
        requires steps { length (demand_of_offer self.old.cache (option_copied demand))
            ≡ self.old.cache.steps }
        requires small { AllWithinLimit demand_limit
            (demand_of_offer self.old.cache (option_copied demand)) }
        ensures counted { OnOk result (self.new ≡ after_entry self.old child number
            (option_copied demand.entry)) }
        ensures answered { OnOk result (out.new.items ≡ out.old.items
            ++ reply_bytes (receipt self.old child number)) }
        ensures unchanged { OnErr result ((self.new ≡ self.old) × (out.new.items ≡ out.old.items)) }
        ensures full { OnErr result (vec_capacity out.old < vec_len out.old + reply_limit) }
        ensures sound { IsMarket self.new }
    {
        let entry = usize::from(child) - 1;
        if let Err(CacheFault::Old { kept }) = self.auctioneer.learn(entry, number, demand) {
            return Reply::Old { child, kept }.write(out);
        }
        Ok(())
    }

    /// Clears the market, and appends the prices, or that nothing changed. The prices cost one search over the steps of the
    /// running sum and one pass over the children.
    fn clear(&mut self, out: &mut Vec<u8>) -> Result<(), AllocError>
        requires sound { IsMarket self.old }
        requires index { self.old.index + 1 < 2 ^ 32 }
        ensures cleared { OnOk result (self.new ≡ after_clear self.old) }
        ensures answered { OnOk result (out.new.items ≡ out.old.items
            ++ reply_bytes (answers_to (Some self.old) Frame.Clear)) }
        ensures unchanged { OnErr result ((self.new ≡ self.old) × (out.new.items ≡ out.old.items)) }
        ensures full { OnErr result (vec_capacity out.old < vec_len out.old + reply_limit) }
        ensures sound { IsMarket self.new }
    {
        // The room for the prices is taken first: if memory runs out, the market is not cleared.
        out.reserve(REPLY_LIMIT)?;
        match self.auctioneer.next_clearing() {
            Ok(_cleared) => {
                write_prices(&self.auctioneer.prices(), out);
                Ok(())
            }
            Err(_not_changed) => Reply::NotChanged.write(out),
        }
    }

    /// Takes a frame behind Hello, and appends the answers to it.
    pub(crate) fn take(&mut self, frame: &Frame, out: &mut Vec<u8>) -> Result<(), AllocError>
        requires sound { IsMarket self.old }
        requires stands { MayStand (Some self.old.cache.steps) frame.now }
        requires index { self.old.index + 1 < 2 ^ 32 }
        ensures taken { OnOk result (Some self.new ≡ market_after (Some self.old) frame.now) }
        ensures answered { OnOk result (out.new.items ≡ out.old.items
            ++ reply_bytes (answers_to (Some self.old) frame.now)) }
        ensures unchanged { OnErr result ((self.new ≡ self.old) × (out.new.items ≡ out.old.items)) }
        ensures full { OnErr result (vec_capacity out.old < vec_len out.old + reply_limit) }
        ensures sound { IsMarket self.new }
        ensures few { OnOk result (length out.new.items ≤ length out.old.items + reply_limit) }
    {
        match frame {
            Frame::Bid {
                child,
                number,
                demand,
            } => self.count(*child, *number, Some(demand), out),
            Frame::Gone { child, number } => self.count(*child, *number, None, out),
            Frame::Clear => self.clear(out),
            // Hello stands first and only there.
            Frame::Hello { .. } => Ok(()),
        }
    }
}
