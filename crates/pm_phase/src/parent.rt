//! The part of a node with children in a phase: bids learnt, the bid that waits, and prices that wait for the children.

ghost use Rattle.std.specs.Prelude.{◌≡◌, true, false, None, OnErr, if◌then◌else◌, nat_lt, Some, IfOk, replicate};
ghost use Rattle.pm_phase.specs.Matchers.{cache_of_matcher, MayLearnBid};
ghost use Rattle.pm_phase.specs.Beginning.{BegunParent};
ghost use Rattle.pm_phase.specs.TellingParents.{TakesIn};
ghost use Rattle.pm_phase.specs.Parents.{IsNewParent, LearnsBid, MakesBid, HasNoBidToMake, PassesOn, DropsPending, ClearsMarket, HasNoClearing};

use crate::matcher::{Matcher, clear, next_bid, pass};
use pm_cells::UpMessage;
use pm_plan::Plan;
use pm_session::PriceUpdate;
use std::alloc::{AllocError, Global};

/// The part of a node with children: all that it owns beside its ends of the links.
pub(crate) struct ParentPart {
    pub(crate) matcher: Matcher,
    /// The bid that is to be put to the parent.
    pub(crate) waiting: Option<UpMessage>,
    /// The price that is to be passed on.
    pub(crate) pending: Option<PriceUpdate>,
    /// By the places of the children: the price that is to be put.
    pub(crate) prices: Vec<Option<PriceUpdate>>,
    /// By the places of the children: the bid that was learnt last.
    pub(crate) learnt: Vec<Option<UpMessage>>,
}

/// Its owner lets go of it in one step, where a derived drop would be one for each part.
impl Drop for ParentPart {
    fn drop(self) {
        let ParentPart {
            matcher: _,
            waiting: _,
            pending: _,
            prices: _,
            learnt: _,
        } = self;
    }
}

impl ParentPart {
    /// A node to which nobody sent anything.
    pub(crate) fn new(alloc: Global, plan: &Plan, node: u32) -> Result<ParentPart, AllocError>
        ensures new { IfOk result (IsNewParent plan.now node) }
    {
        let matcher = Matcher::of(alloc, plan, node)?;
        let children = matcher.cache().heads().len();
        Ok(ParentPart {
            matcher,
            waiting: None,
            pending: None,
            prices: nothing_each(alloc, children)?,
            learnt: nothing_each(alloc, children)?,
        })
    }

    /// A phase begins: no price of the phase before waits, or is to be passed on.
    pub(crate) fn begin(&mut self)
        ensures { BegunParent self.old self.new }
    {
        self.pending = None;
        for place in 0..self.prices.len() {
            self.prices[place] = None;
        }
    }

    /// Learns a child's bid, if it may, and keeps it. A bid that may not be learnt is dropped.
    pub(crate) fn learn(&mut self, child: usize, bid: UpMessage)
        ensures learnt { MayLearnBid (cache_of_matcher self.old.matcher) child bid →
            LearnsBid child bid self.old self.new }
        ensures dropped { (MayLearnBid (cache_of_matcher self.old.matcher) child bid → ⊥) →
            self.new ≡ self.old }
        ensures either { TakesIn child bid self.old self.new }
    {
        if !self.matcher.learn(child, &bid) {
            return;
        }
        if let Some(newest) = self.learnt.get_mut(child) {
            *newest = Some(bid);
        }
    }

    /// Is passed a price by the parent, which is dropped if its step is none of the plan's. It takes the place of one that was
    /// not passed on.
    pub(crate) fn take_price(&mut self, plan: &Plan, price: PriceUpdate)
        ensures { self.new ≡ record self.old {
          pending = if nat_lt price.step plan.now.basis.steps then Some price else self.old.pending;
        } }
    {
        if (price.step as usize) < plan.basis().steps() {
            self.pending = Some(price);
        }
    }

    /// The auctioneer clears the market, if something was learnt since the last clearing; whether it did. The prices of the
    /// children wait then.
    pub(crate) fn clear(&mut self) -> bool
        ensures cleared { result ≡ true → ClearsMarket self.old self.new }
        ensures not_cleared { result ≡ false → HasNoClearing self.old.matcher }
        ensures unchanged { result ≡ false → self.new ≡ self.old }
    {
        match &mut self.matcher {
            Matcher::Auctioneer(auctioneer) => clear(auctioneer, &mut self.prices),
            Matcher::Concentrator(_) => false,
        }
    }

    /// A concentrator makes its next bid, once the bid before it is put; whether it made one. The bid waits then.
    pub(crate) fn make_bid(&mut self, alloc: Global) -> Result<bool, AllocError>
        ensures made { result ≡ Ok true → MakesBid self.old self.new }
        ensures not_made { result ≡ Ok false → HasNoBidToMake self.old }
        ensures unchanged { result ≡ Ok false → self.new ≡ self.old }
        ensures failed { OnErr result (self.new ≡ self.old) }
    {
        if self.waiting.is_some() {
            return Ok(false);
        }
        let Matcher::Concentrator(concentrator) = &mut self.matcher else {
            return Ok(false);
        };
        self.waiting = next_bid(alloc, concentrator)?;
        Ok(self.waiting.is_some())
    }

    /// A concentrator passes on the price that its parent passed to it, if its record is kept; whether it did. A price whose
    /// record is not kept is dropped.
    pub(crate) fn pass_on(&mut self) -> bool
        ensures passed { result ≡ true → PassesOn self.old self.new }
        ensures not_passed { result ≡ false → DropsPending self.old self.new }
    {
        let Some(price) = self.pending.take() else {
            return false;
        };
        match &mut self.matcher {
            Matcher::Concentrator(concentrator) => pass(concentrator, price, &mut self.prices),
            Matcher::Auctioneer(_) => false,
        }
    }
}

/// Nothing for each of so many children.
fn nothing_each<T: Drop>(alloc: Global, children: usize) -> Result<Vec<Option<T>>, AllocError>
    ensures { IfOk result (λ each. each.items ≡ replicate children None) }
{
    let mut each = Vec::with_capacity(alloc, children)?;
    for _child in 0..children {
        each.push(None)?;
    }
    Ok(each)
}
