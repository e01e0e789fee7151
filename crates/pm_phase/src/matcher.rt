//! What a node with children is, and what it sends: its next bid, and the prices of a clearing.

ghost use Rattle.std.specs.Prelude.{◌≡◌, ◌⊎◌, ℕ, ◌+◌, ◌<◌, ◌≤◌, ◌^◌, true, false};
ghost use Rattle.std.specs.Prelude.{IfOk, IfSome, OnErr, length, Some, None};
ghost use Rattle.pm_base.specs.Limits.{AreLimits, most_nodes};
ghost use Rattle.pm_plan.specs.Plans.{node as planned_node, limits_of};
ghost use Rattle.pm_concentrator.specs.Concentrators.{BidMade, Passed, own_demand, IsNewConcentrator};
ghost use Rattle.pm_concentrator.specs.Limited.{local_step_of_record};
ghost use Rattle.pm_auctioneer.specs.Auctions.{MarketCleared};
ghost use Rattle.pm_session.specs.Windows.{record_of};
ghost use Rattle.pm_phase.specs.Matchers.{child_count, IsNewMatcher, cache_of_matcher, MayLearnBid, after_bid, HasNoBid};
ghost use Rattle.pm_phase.specs.Matchers.{MayPassOn, PricesWait, waiting_at, newer_price};

use pm_auctioneer::Auctioneer;
use pm_base::Limits;
use pm_bid::{ArrayBid, uncounted};
use pm_cache::BidCache;
use pm_cells::UpMessage;
use pm_concentrator::Concentrator;
use pm_plan::Plan;
use pm_session::{PriceUpdate, Prices};
use pm_tree::NodeId;
use std::alloc::{AllocError, Global};

/// What a node with children is.
#[derive(Drop)]
pub(crate) enum Matcher {
    Concentrator(Concentrator),
    Auctioneer(Auctioneer),
}

impl Matcher {
    /// The matcher of a node that is no device, before anybody sent anything.
    pub(crate) fn of(alloc: Global, plan: &Plan, node: u32) -> Result<Matcher, AllocError>
        ensures new { IfOk result (IsNewMatcher plan.now node) }
    {
        if node == 0 {
            let children = count_children(plan, node);
            let auctioneer = Auctioneer::new(alloc, children, plan.basis().steps())?;
            return Ok(Matcher::Auctioneer(auctioneer));
        }
        Ok(Matcher::Concentrator(planned_concentrator(alloc, plan, node)?))
    }

    /// The newest bids of the children.
    pub(crate) fn cache(&self) -> &BidCache
        ensures { result.now ≡ cache_of_matcher self.now }
    {
        match self {
            Matcher::Concentrator(concentrator) => concentrator.cache(),
            Matcher::Auctioneer(auctioneer) => auctioneer.cache(),
        }
    }

    /// Learns a child's bid, if it may; whether it did. A bid that may not be learnt, or that is old, changes nothing.
    pub(crate) fn learn(&mut self, child: usize, bid: &UpMessage) -> bool
        ensures learnt { result ≡ true → MayLearnBid (cache_of_matcher self.old) child bid.now
            × (self.new ≡ after_bid self.old child bid.now) }
        ensures not_learnt { result ≡ false →
            MayLearnBid (cache_of_matcher self.old) child bid.now → ⊥ }
        ensures unchanged { result ≡ false → self.new ≡ self.old }
    {
        let demand = bid.demand.as_ref();
        let mut counter = uncounted();
        match self {
            Matcher::Concentrator(concentrator) => {
                concentrator.cache().can_learn(child, demand, &mut counter)
                    && concentrator.learn(child, bid.number, demand).is_ok()
            }
            Matcher::Auctioneer(auctioneer) => {
                auctioneer.cache().can_learn(child, demand, &mut counter)
                    && auctioneer.learn(child, bid.number, demand).is_ok()
            }
        }
    }
}

/// The concentrator of a node, with the plan's limits.
fn planned_concentrator(alloc: Global, plan: &Plan, node: u32) -> Result<Concentrator, AllocError>
    ensures new { IfOk result (IsNewConcentrator (child_count plan.now node)
        plan.now.basis.steps (limits_of (planned_node plan.now node))) }
{
    let children = count_children(plan, node);
    let steps = plan.basis().steps();
    let Some(limits) = read_limits(plan, node) else {
        return Concentrator::new(alloc, children, steps);
    };
    Concentrator::limited(alloc, children, steps, limits.floor, limits.ceiling)
}

/// How many children a node of a plan has; none past the last node.
fn count_children(plan: &Plan, node: u32) -> usize
    ensures children { result ≡ child_count plan.now node }
    ensures few { result ≤ most_nodes }
{
    let tree = plan.tree();
    if node > tree.len() {
        return 0;
    }
    tree.children(NodeId(node)).len()
}

/// The limits of a node of a plan; none of a node that is no limited concentrator, and none past the last node.
fn read_limits(plan: &Plan, node: u32) -> Option<Limits>
    ensures limits { result ≡ limits_of (planned_node plan.now node) }
    ensures are_limits { IfSome result AreLimits }
{
    if node > plan.tree().len() {
        return None;
    }
    let (floor, ceiling) = plan.limits(NodeId(node))?;
    Some(Limits { floor, ceiling })
}

/// The next bid of a concentrator, with its demand; none if nothing changed, the window is full, or the numbers are used up.
/// Where an allocation fails no bid is made.
pub(crate) fn next_bid(
    alloc: Global,
    concentrator: &mut Concentrator,
) -> Result<Option<UpMessage>, AllocError>
    ensures made { IfOk result (λ made. IfSome made (λ bid.
        BidMade concentrator.old concentrator.new bid.number
        × (bid.demand ≡ Some (own_demand concentrator.new)))) }
    ensures none { result ≡ Ok None → HasNoBid concentrator.old }
    ensures unchanged { result ≡ Ok None → concentrator.new ≡ concentrator.old }
    ensures failed { OnErr result (concentrator.new ≡ concentrator.old) }
{
    if concentrator.last() == u32::MAX || !concentrator.changed() || concentrator.room() == 0 {
        return Ok(None);
    }
    let mut counter = uncounted();
    let steps = concentrator.demand().steps();
    let mut demand = ArrayBid::zero(alloc, steps, &mut counter)?;
    let Ok(number) = concentrator.next_bid() else {
        unreachable!()
    };
    concentrator.demand().copy_into(&mut demand, &mut counter);
    Ok(Some(UpMessage {
        number,
        demand: Some(demand),
    }))
}

/// Passes a price on, if its record is kept: the prices of the children wait to be put then. Whether it was passed.
pub(crate) fn pass(
    concentrator: &mut Concentrator,
    price: PriceUpdate,
    waiting: &mut Vec<Option<PriceUpdate>>,
) -> bool
    ensures passed { result ≡ true → MayPassOn concentrator.old price
        × Passed concentrator.old concentrator.new price.number }
    ensures prices { result ≡ true → let sent = record_of concentrator.old.window price.number in
        PricesWait sent.heads (local_step_of_record concentrator.old.limits price.step sent.sum)
        price.index waiting.old.items waiting.new.items }
    ensures not_passed { result ≡ false → MayPassOn concentrator.old price → ⊥ }
    ensures unchanged { result ≡ false →
        (concentrator.new ≡ concentrator.old) × (waiting.new ≡ waiting.old) }
{
    let steps = concentrator.demand().steps();
    if price.index == 0 || price.step as usize >= steps || !concentrator.keeps(price.number) {
        return false;
    }
    keep_prices(&concentrator.prices(price), waiting);
    concentrator.answer(price.number);
    true
}

/// Clears the market, if something was learnt since the last clearing: the prices of the children wait to be put then. Whether it
/// cleared.
pub(crate) fn clear(auctioneer: &mut Auctioneer, waiting: &mut Vec<Option<PriceUpdate>>) -> bool
    ensures cleared { result ≡ true →
        MarketCleared auctioneer.old auctioneer.new auctioneer.new.index auctioneer.new.step }
    ensures prices { result ≡ true → PricesWait auctioneer.new.cache.heads auctioneer.new.step
        auctioneer.new.index waiting.old.items waiting.new.items }
    ensures not_cleared { result ≡ false →
        (auctioneer.old.changed ≡ false) ⊎ (auctioneer.old.index + 1 ≡ 2 ^ 32) }
    ensures unchanged { result ≡ false →
        (auctioneer.new ≡ auctioneer.old) × (waiting.new ≡ waiting.old) }
{
    if auctioneer.index() == u32::MAX || auctioneer.next_clearing().is_err() {
        return false;
    }
    keep_prices(&auctioneer.prices(), waiting);
    true
}

/// Lets the price of each child that has one wait, in the child's place.
fn keep_prices(prices: &Prices<'_>, waiting: &mut Vec<Option<PriceUpdate>>)
    ensures { PricesWait prices.now.heads.now prices.now.step prices.now.index waiting.old.items
        waiting.new.items }
{
    for child in 0..prices.children() {
        keep_price(waiting, child, prices.for_child(child));
    }
}

/// Lets the price of a child wait in its place, if it has one.
fn keep_price(waiting: &mut Vec<Option<PriceUpdate>>, child: usize, price: Option<PriceUpdate>)
    ensures same_length { length waiting.new.items ≡ length waiting.old.items }
    ensures here { child < length waiting.old.items → waiting_at waiting.new.items child
        ≡ newer_price price (waiting_at waiting.old.items child) }
    ensures others { (other : ℕ) → (other ≡ child → ⊥) →
        waiting_at waiting.new.items other ≡ waiting_at waiting.old.items other }
{
    if price.is_some() && child < waiting.len() {
        waiting[child] = price;
    }
}
