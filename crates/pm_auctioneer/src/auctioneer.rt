//! The auctioneer: it learns its children's bids, clears the market, and has a price for each child.

ghost use Rattle.std.specs.Prelude.{◌≡◌, ◌+◌, ◌<◌, ◌≤◌, ◌^◌, true, false, length, IfOk, IfErr, OnOk, OnErr, ◌||◌, not, nat_le};
ghost use Rattle.std.specs.Option.{option_copied};
ghost use Rattle.pm_base.specs.Limits.{AreSteps, most_nodes};
ghost use Rattle.pm_cache.specs.Cache.{kept_number, child_demand, answer_to};
ghost use Rattle.pm_cache.specs.Learning.{CanLearn, after_learning, bid_demand};
ghost use Rattle.pm_session.specs.Prices.{IsNewIndex};
ghost use Rattle.pm_auctioneer.specs.Auctions.{new_auction, MarketCleared, ClearedAt};
ghost use Rattle.pm_auctioneer.specs.declared.fault.ClearFault.TheVariants.{NotChanged};

use crate::fault::ClearFault;
use pm_bid::{ArrayBid, BidHead, uncounted};
use pm_cache::{BidCache, CacheFault};
use pm_session::{Link, Prices};
use std::alloc::{AllocError, Global};
use std::marker::Model;

/// A clearing of the market.
#[derive(Clone, Copy, Debug, PartialEq, Eq)]
pub struct Cleared {
    /// The index of the clearing, from 1.
    pub index: u32,
    /// The step of the market basis at which the market clears.
    pub step: u32,
}

/// The root of the tree, with up to 256 children, which count from 0.
///
/// Contracts see the entries of its children (see [`BidCache`]), the step and the index of the last
/// clearing, and whether something was learnt since.
#[derive(Drop)]
pub struct Auctioneer {
    cache: BidCache,
    step: u32,
    index: u32,
    changed: bool,
}

impl Model for Auctioneer {
    ghost use Rattle.pm_auctioneer.specs.Auctions.{Auction};

    ghost Value = { Auction };

    ghost use Rattle.pm_auctioneer.specs.AuctioneerFields.{auction_of, AreAuctioneerFields};

    ghost view = { auction_of };

    ghost invariant = { AreAuctioneerFields };
}

impl Auctioneer {
    /// An auctioneer whose children sent nothing. All its memory is taken here.
    pub fn new(alloc: Global, children: usize, steps: usize) -> Result<Auctioneer, AllocError>
        requires few_children { children ≤ most_nodes }
        requires steps { AreSteps steps }
        ensures new { IfOk result (λ a. a ≡ new_auction children steps) }
    {
        let cache = BidCache::new(alloc, children, steps, &mut uncounted())?;
        Ok(Auctioneer {
            cache,
            step: 0,
            index: 0,
            changed: false,
        })
    }

    /// Learns a child's bid with its number; None is a bid that is gone. `Old` comes exactly if
    /// the number is at most the kept one; nothing changes then.
    pub fn learn(
        &mut self,
        child: usize,
        number: u32,
        demand: Option<&ArrayBid>,
    ) -> Result<(), CacheFault>
        requires bid { CanLearn self.old.cache child (option_copied demand) }
        ensures answer { result ≡ answer_to (kept_number self.old.cache child) number }
        ensures learnt { self.new ≡ record self.old {
          cache = after_learning self.old.cache child number (option_copied demand.entry);
          changed = self.old.changed || not (nat_le number (kept_number self.old.cache child));
        } }
    {
        let answer = self.cache.learn(child, number, demand, &mut uncounted());
        if answer.is_ok() {
            self.changed = true;
        }
        answer
    }

    /// Learns a child's bid with this head as [`Auctioneer::learn`] does, and copies nothing: the
    /// caller has the demand of the child's bid before in the place of its own. If the bid is gone, or
    /// `Old`, the caller's demand stays.
    pub fn exchange_bid(
        &mut self,
        child: usize,
        head: BidHead,
        demand: &mut ArrayBid,
    ) -> Result<(), CacheFault>
        requires bid { CanLearn self.old.cache child (bid_demand head.gone demand.old) }
        ensures answer { result ≡ answer_to (kept_number self.old.cache child) head.number }
        ensures learnt { self.new ≡ record self.old {
          cache = after_learning self.old.cache child head.number (bid_demand head.gone demand.old);
          changed = self.old.changed || not (nat_le head.number (kept_number self.old.cache child));
        } }
        ensures before { OnOk result
            (head.gone ≡ false → demand.new ≡ child_demand self.old.cache child) }
        ensures gone { head.gone ≡ true → demand.new ≡ demand.old }
        ensures old { OnErr result (demand.new ≡ demand.old) }
        ensures same_length { length demand.new ≡ length demand.old }
    {
        let answer = self
            .cache
            .exchange_bid(child, head, demand, &mut uncounted());
        if answer.is_ok() {
            self.changed = true;
        }
        answer
    }

    /// Clears the market: the step is the clearing step of the children's sum, the index the next
    /// one. `NotChanged` comes exactly if nothing was learnt since the last clearing; nothing
    /// changes then.
    pub fn next_clearing(&mut self) -> Result<Cleared, ClearFault>
        requires last { self.old.index + 1 < 2 ^ 32 }
        ensures cleared { IfOk result (λ cleared. MarketCleared self.old self.new cleared.index
            cleared.step) }
        ensures step { IfOk result (λ cleared. cleared.step < self.old.cache.steps) }
        ensures refused { IfErr result
            (λ fault. (self.old.changed ≡ false) × (fault ≡ NotChanged)) }
        ensures unchanged { OnErr result (self.new ≡ self.old) }
    {
        if !self.changed {
            return Err(ClearFault::NotChanged);
        }
        let total = self.cache.aggregate();
        let step = total.first_not_positive(&mut uncounted()) as u32;
        let index = self.index + 1;
        self.step = step;
        self.index = index;
        self.changed = false;
        Ok(Cleared { index, step })
    }

    /// The prices of the last clearing, by the heads that the children have now. Each child that
    /// is not gone has the step and the index, with the number of its head.
    pub fn prices(&self) -> Prices<'_>
        ensures heads { result.heads.now ≡ self.now.cache.heads }
        ensures step { result.step ≡ self.now.step }
        ensures index { result.index ≡ self.now.index }
    {
        Prices {
            heads: self.cache.heads(),
            step: self.step,
            index: self.index,
        }
    }

    /// Clears the market, and offers the price to each child that is not gone:
    /// [`Auctioneer::next_clearing`], with its faults, and [`Auctioneer::prices`] on links. Nothing
    /// changes if a fault comes.
    pub fn clear(&mut self, downs: &mut [Link]) -> Result<Cleared, ClearFault>
        requires same_length { length downs.old ≡ length self.old.cache.heads }
        requires last { self.old.index + 1 < 2 ^ 32 }
        requires index { IsNewIndex (self.old.index + 1) downs.old }
        ensures cleared { IfOk result (λ cleared. ClearedAt self.old self.new downs.old downs.new
            cleared.index cleared.step) }
        ensures step { IfOk result (λ cleared. cleared.step < self.old.cache.steps) }
        ensures refused { IfErr result
            (λ fault. (self.old.changed ≡ false) × (fault ≡ NotChanged)) }
        ensures unchanged { IfErr result
            (λ fault. (self.new ≡ self.old) × (downs.new ≡ downs.old)) }
    {
        let cleared = self.next_clearing()?;
        self.prices().offer(downs);
        Ok(cleared)
    }

    /// The entries of the children.
    pub fn cache(&self) -> &BidCache
        ensures cache { result.now ≡ self.now.cache }
    {
        &self.cache
    }

    /// The step of the last clearing, 0 if there is no clearing.
    pub fn step(&self) -> u32
        ensures step { result ≡ self.now.step }
        ensures inside { result < self.now.cache.steps }
    {
        self.step
    }

    /// The index of the last clearing, 0 if there is no clearing.
    pub fn index(&self) -> u32
        ensures index { result ≡ self.now.index }
    {
        self.index
    }

    /// Whether something was learnt since the last clearing.
    pub fn changed(&self) -> bool
        ensures changed { result ≡ self.now.changed }
    {
        self.changed
    }
}
