//! A concentrator: it learns its children's bids, makes a bid of their sum, and passes prices down.

ghost use Rattle.std.specs.Prelude.{◌≡◌, ◌+◌, ◌-◌, ◌<◌, ◌≤◌, ◌^◌, length, option_map, Some, None, IfOk, IfErr, OnOk, OnErr, IsTrue};
ghost use Rattle.std.specs.Prelude.{IsFalse, ◌↔◌, unwrap_or, true, false};
ghost use Rattle.std.specs.Option.{option_copied};
ghost use Rattle.pm_base.specs.Limits.{AreSteps, AreLimits, most_nodes, window_size};
ghost use Rattle.pm_base.specs.declared.limits.Limits.{Limits};
ghost use Rattle.pm_bid.specs.Limited.{within_limits};
ghost use Rattle.pm_bid.specs.Taken.{announced};
ghost use Rattle.pm_cache.specs.Cache.{aggregate_of, kept_number, child_demand, answer_to};
ghost use Rattle.pm_cache.specs.Learning.{CanLearn, after_learning, bid_demand};
ghost use Rattle.pm_session.specs.Prices.{PricesOffered, IsNewIndex};
ghost use Rattle.pm_session.specs.Windows.{Keeps, unanswered_count, record_of, RecordSent, IsWindow, steps_of};
ghost use Rattle.pm_concentrator.specs.Limited.{LimitedValue, sum_kept, sum_steps, local_step_of_record, settled_step_of_record, IsStepOf};
ghost use Rattle.pm_concentrator.specs.Concentrators.{own_demand, published_heads, IsNewConcentrator};
ghost use Rattle.pm_concentrator.specs.Concentrators.{BidMade, BidSettled, Published, Passed, IsGathered};
ghost use Rattle.pm_concentrator.specs.Faults.{NotPublished};

use crate::fault::PublishFault;
use crate::limited::Limited;
use pm_base::{Limits, WINDOW_SIZE};
use pm_bid::{ArrayBid, BidHead, uncounted};
use pm_cache::{BidCache, CacheFault};
use pm_session::{Link, PriceUpdate, Prices, Record, Window};
use std::alloc::{AllocError, Global};
use std::marker::Model;

/// A node between the devices and the auctioneer, with up to 256 children, which count from 0.
///
/// Contracts see the entries of its children (see [`BidCache`]), and the records of what it published
/// (see [`Window`]). If it has limits, they also see these and the demand of its newest bid.
pub struct Concentrator {
    cache: BidCache,
    window: Window,
    limited: Option<Limited>,
}

impl Model for Concentrator {
    ghost use Rattle.pm_concentrator.specs.Concentrators.{Gathered};

    ghost Value = { Gathered };

    ghost use Rattle.pm_concentrator.specs.ConcentratorFields.{gathered_of, AreConcentratorFields};

    ghost view = { gathered_of };

    ghost invariant = { AreConcentratorFields };
}

/// Its owner lets go of it in one step; a derived drop would be one for each part.
impl Drop for Concentrator {
    fn drop(self) {
        let Concentrator {
            cache: _,
            window: _,
            limited: _,
        } = self;
    }
}

impl Concentrator {
    /// A concentrator without limits whose children sent nothing. All its memory is taken here.
    pub fn new(alloc: Global, children: usize, steps: usize) -> Result<Concentrator, AllocError>
        requires few_children { children ≤ most_nodes }
        requires steps { AreSteps steps }
        ensures new { IfOk result (λ c. IsNewConcentrator children steps None c) }
    {
        let cache = BidCache::new(alloc, children, steps, &mut uncounted())?;
        let window = Window::new(alloc, children)?;
        Ok(Concentrator {
            cache,
            window,
            limited: None,
        })
    }

    /// A concentrator whose children sent nothing, with limits on the power that it announces, in
    /// watts. All its memory is taken here.
    pub fn limited(
        alloc: Global,
        children: usize,
        steps: usize,
        floor: i64,
        ceiling: i64,
    ) -> Result<Concentrator, AllocError>
        requires few_children { children ≤ most_nodes }
        requires steps { AreSteps steps }
        requires limits { AreLimits (record { floor = floor; ceiling = ceiling }) }
        ensures new { IfOk result (λ c. IsNewConcentrator children steps
            (Some (record { floor = floor; ceiling = ceiling })) c) }
    {
        let cache = BidCache::new(alloc, children, steps, &mut uncounted())?;
        let window = Window::limited(alloc, children, steps)?;
        let limited = Limited::new(alloc, steps, Limits { floor, ceiling })?;
        Ok(Concentrator {
            cache,
            window,
            limited: Some(limited),
        })
    }

    /// Learns a child's bid with its number; None is a bid that is gone. `Old` comes exactly if
    /// the number is at most the kept one; nothing changes then.
    pub fn learn(
        &mut self,
        child: usize,
        number: u32,
        demand: Option<&ArrayBid>,
    ) -> Result<(), CacheFault>
        requires bid { CanLearn self.old.cache child (option_copied demand) }
        ensures answer { result ≡ answer_to (kept_number self.old.cache child) number }
        ensures learnt { self.new ≡ record self.old
            { cache = after_learning self.old.cache child number (option_copied demand.entry) } }
    {
        self.cache.learn(child, number, demand, &mut uncounted())
    }

    /// Learns a child's bid with this head as [`Concentrator::learn`] does, and copies nothing: the
    /// caller has the demand of the child's bid before in the place of its own. If the bid is gone, or
    /// `Old`, the caller's demand stays.
    pub fn exchange_bid(
        &mut self,
        child: usize,
        head: BidHead,
        demand: &mut ArrayBid,
    ) -> Result<(), CacheFault>
        requires bid { CanLearn self.old.cache child (bid_demand head.gone demand.old) }
        ensures answer { result ≡ answer_to (kept_number self.old.cache child) head.number }
        ensures learnt { self.new ≡ record self.old {
          cache = after_learning self.old.cache child head.number
              (bid_demand head.gone demand.old);
        } }
        ensures before { OnOk result
            (head.gone ≡ false → demand.new ≡ child_demand self.old.cache child) }
        ensures gone { head.gone ≡ true → demand.new ≡ demand.old }
        ensures old { OnErr result (demand.new ≡ demand.old) }
        ensures same_length { length demand.new ≡ length demand.old }
    {
        self.cache
            .exchange_bid(child, head, demand, &mut uncounted())
    }

    /// Makes the bid of the next number, which is the answer. Its demand is the sum of the children's
    /// bids, within the limits if there are some (see [`Concentrator::demand`]). The heads of the
    /// children are its record, with the sum as it was before the limits. `NotChanged` comes exactly
    /// if the heads equal those of the last record, or before the first those of the opening.
    /// Otherwise `WindowFull` comes exactly if eight numbers are unanswered. Nothing changes then.
    pub fn next_bid(&mut self) -> Result<u32, PublishFault>
        requires last { self.old.window.last + 1 < 2 ^ 32 }
        ensures made { IfOk result (λ number. BidMade self.old self.new number) }
        ensures refused { IfErr result (λ fault. NotPublished self.old fault) }
        ensures unchanged { OnErr result (self.new ≡ self.old) }
    {
        if !self.changed() {
            return Err(PublishFault::NotChanged);
        }
        if self.window.room() == 0 {
            return Err(PublishFault::WindowFull {
                unanswered: WINDOW_SIZE,
            });
        }
        let number = self.window.last() + 1;
        record_bid(&self.cache, &mut self.limited, &mut self.window, number);
        Ok(number)
    }

    /// Makes the bid of the next number as [`Concentrator::next_bid`] does, with its faults, for a node that settles for steps
    /// within its limits: the demand at a step is what the children take at the step that [`Concentrator::settled_prices`] has
    /// for it.
    pub fn next_settled_bid(&mut self) -> Result<u32, PublishFault>
        requires last { self.old.window.last + 1 < 2 ^ 32 }
        ensures made { IfOk result (λ number. BidSettled self.old self.new number) }
        ensures refused { IfErr result (λ fault. NotPublished self.old fault) }
        ensures unchanged { OnErr result (self.new ≡ self.old) }
    {
        if !self.changed() {
            return Err(PublishFault::NotChanged);
        }
        if self.room() == 0 {
            return Err(PublishFault::WindowFull {
                unanswered: WINDOW_SIZE,
            });
        }
        let number = self.window.last() + 1;
        record_settled_bid(&self.cache, &mut self.limited, &mut self.window, number);
        Ok(number)
    }

    /// The demand of the concentrator, in watts at each step. With limits it is that of its newest
    /// bid, zeros before the first. Without limits it is the sum of the children's bids. So it is
    /// that of its newest bid until the next bid of a child is learnt.
    pub fn demand(&self) -> &ArrayBid
        ensures demand { result.now ≡ own_demand self.now }
        ensures steps { length result.now ≡ self.now.cache.steps }
    {
        match &self.limited {
            None => self.cache.aggregate(),
            Some(limits) => limits.announced(),
        }
    }

    /// Offers the sum of the children's bids, within the limits if there are some, to the parent.
    /// The answer is the next number, under which it is offered. It is [`Concentrator::next_bid`],
    /// with its faults, on a link. Nothing changes if a fault comes.
    pub fn publish(&mut self, up: &mut Link) -> Result<u32, PublishFault>
        requires steps { up.old.steps ≡ self.old.cache.steps }
        requires last { self.old.window.last + 1 < 2 ^ 32 }
        requires number { up.old.up.offered < self.old.window.last + 1 }
        ensures published { IfOk result (λ number. Published self.old self.new up.old up.new
            number) }
        ensures refused { IfErr result (λ fault. NotPublished self.old fault) }
        ensures unchanged { IfErr result (λ fault. (self.new ≡ self.old) × (up.new ≡ up.old)) }
    {
        let number = self.next_bid()?;
        let _ = up.offer_bid(number, Some(self.demand()));
        Ok(number)
    }

    /// What a price is for each child that is not gone in the record of the number that the price names.
    /// It is the price with the child's number in that record. Of a limited concentrator the step is the
    /// local step of the record's sum. It takes the place of the price's step, which is one of its steps.
    pub fn prices(&self, price: PriceUpdate) -> Prices<'_>
        requires kept { Keeps self.now.window price.number }
        requires step { IsStepOf self.now.limits self.now.cache.steps price.step }
        ensures heads { result.heads.now ≡ (record_of self.now.window price.number).heads }
        ensures children { length result.heads.now ≡ length self.now.cache.heads }
        ensures step { result.step ≡ local_step_of_record self.now.limits price.step
            (record_of self.now.window price.number).sum }
        ensures inside { price.step < self.now.cache.steps → result.step < self.now.cache.steps }
        ensures index { result.index ≡ price.index }
    {
        let record = self.window.record(price.number);
        Prices {
            heads: record.children(),
            step: step_below(&self.limited, price.step, record),
            index: price.index,
        }
    }

    /// The limits, if there are some.
    pub fn limits(&self) -> Option<Limits>
        ensures limits { result ≡ self.now.limits }
    {
        match &self.limited {
            None => None,
            Some(limited) => Some(limited.limits()),
        }
    }

    /// Changes the limits, if there are some. The newest bid stays as it is: the new limits count from the next bid on.
    pub fn change_limits(&mut self, limits: Limits)
        requires limits { AreLimits limits }
        ensures changed { self.new ≡ record self.old
            { limits = option_map (λ (old : Limits). limits) self.old.limits } }
    {
        match &mut self.limited {
            None => {}
            Some(limited) => limited.change(limits),
        }
    }

    /// What a price is for each child as [`Concentrator::prices`] has it, for a node that settles for steps within its limits.
    /// These are the limits that the number was made under, which the caller knows: the present ones may be others.
    pub fn settled_prices(&self, price: PriceUpdate, limits: &Limits) -> Prices<'_>
        requires kept { Keeps self.now.window price.number }
        requires step { IsStepOf self.now.limits self.now.cache.steps price.step }
        ensures heads { result.heads.now ≡ (record_of self.now.window price.number).heads }
        ensures children { length result.heads.now ≡ length self.now.cache.heads }
        ensures step { result.step ≡ settled_step_of_record (Some limits.now) price.step
            (record_of self.now.window price.number).sum }
        ensures inside { price.step < self.now.cache.steps → result.step < self.now.cache.steps }
        ensures index { result.index ≡ price.index }
    {
        let record = self.window.record(price.number);
        let heads = record.children();
        Prices {
            heads,
            step: settled_step_below(&self.limited, limits, price.step, record),
            index: price.index,
        }
    }

    /// Takes the record of a number, which is kept, for the one answered last. The older records are
    /// dropped.
    pub fn answer(&mut self, number: u32)
        requires kept { Keeps self.old.window number }
        ensures passed { Passed self.old self.new number }
    {
        let _record = self.window.answered(number);
    }

    /// Passes a price on to each child that is not gone in the record of the number that the price
    /// names. It is [`Concentrator::prices`] on links, and [`Concentrator::answer`].
    pub fn pass(&mut self, price: PriceUpdate, downs: &mut [Link]) -> Result<(), AllocError>
        requires kept { Keeps self.old.window price.number }
        requires same_length { length downs.old ≡ length self.old.cache.heads }
        requires index { IsNewIndex price.index downs.old }
        requires step { IsStepOf self.old.limits self.old.cache.steps price.step }
        ensures ok { result ≡ Ok tt }
        ensures passed { Passed self.old self.new price.number }
        ensures prices { let sent = record_of self.old.window price.number in
            PricesOffered sent.heads (local_step_of_record self.old.limits price.step sent.sum)
            price.index downs.old downs.new }
        ensures inside { price.step < self.old.cache.steps
            → local_step_of_record self.old.limits price.step
            (record_of self.old.window price.number).sum < self.old.cache.steps }
    {
        self.prices(price).offer(downs);
        self.answer(price.number);
        Ok(())
    }

    /// The entries of the children.
    pub fn cache(&self) -> &BidCache
        ensures cache { result.now ≡ self.now.cache }
        ensures sound { IsGathered self.now }
    {
        &self.cache
    }

    /// How many more numbers may be published: 8 less those that are unanswered.
    pub fn room(&self) -> usize
        ensures room { result ≡ window_size - unanswered_count self.now.window }
        ensures sound { IsWindow self.now.window }
    {
        self.window.room()
    }

    /// The number published last, 0 if there is no such one.
    pub fn last(&self) -> u32
        ensures last { result ≡ self.now.window.last }
    {
        self.window.last()
    }

    /// Whether the record of the number is kept.
    pub fn keeps(&self, number: u32) -> bool
        ensures keeps { IsTrue result ↔ Keeps self.now.window number }
    {
        self.window.keeps(number)
    }

    /// Whether something was learnt since the last publish. It is false exactly if the heads
    /// equal those of the last record, or before the first those of the opening.
    pub fn changed(&self) -> bool
        ensures changed { IsFalse result ↔ (self.now.cache.heads ≡ published_heads self.now) }
    {
        !same_heads(self.cache.heads(), self.window.newest().children())
    }
}

/// Keeps the record of the bid of this number, and makes its demand if there are limits.
fn record_bid(cache: &BidCache, limited: &mut Option<Limited>, window: &mut Window, number: u32)
    requires limits { (limits : LimitedValue) → limited.old ≡ Some limits →
        length limits.announced ≡ cache.now.steps }
    requires room { unanswered_count window.old < window_size }
    requires number { number ≡ window.old.last + 1 }
    requires children { window.old.children ≡ length cache.now.heads }
    requires sum_steps { window.old.steps ≡ sum_steps
        (option_map (λ l. l.limits) limited.old) cache.now.steps }
    ensures sent { RecordSent window.old window.new
        (record {
          number = number;
          heads = cache.now.heads;
          sum = sum_kept (option_map (λ l. l.limits) limited.old) (aggregate_of cache.now);
        }) }
    ensures demand { unwrap_or (option_map (λ l. l.announced) limited.new) (aggregate_of cache.now)
        ≡ within_limits (option_map (λ l. l.limits) limited.old) (aggregate_of cache.now) }
    ensures steps { steps_of (option_map (λ l. l.announced) limited.new)
        ≡ sum_steps (option_map (λ l. l.limits) limited.old) cache.now.steps }
    ensures limits { option_map (λ l. l.limits) limited.new
        ≡ option_map (λ l. l.limits) limited.old }
{
    let sum = cache.aggregate();
    match limited {
        None => {
            let _ = window.sent(number, cache.heads());
        }
        Some(limits) => {
            limits.announce(sum);
            window.sent_limited(number, cache.heads(), sum);
        }
    }
}

/// The same for a node that settles for steps within its limits.
fn record_settled_bid(
    cache: &BidCache,
    limited: &mut Option<Limited>,
    window: &mut Window,
    number: u32,
)
    requires limits { (limits : LimitedValue) → limited.old ≡ Some limits →
        length limits.announced ≡ cache.now.steps }
    requires room { unanswered_count window.old < window_size }
    requires number { number ≡ window.old.last + 1 }
    requires children { window.old.children ≡ length cache.now.heads }
    requires sum_steps { window.old.steps ≡ sum_steps
        (option_map (λ l. l.limits) limited.old) cache.now.steps }
    ensures sent { RecordSent window.old window.new
        (record {
          number = number;
          heads = cache.now.heads;
          sum = sum_kept (option_map (λ l. l.limits) limited.old) (aggregate_of cache.now);
        }) }
    ensures demand { unwrap_or (option_map (λ l. l.announced) limited.new) (aggregate_of cache.now)
        ≡ announced (option_map (λ l. l.limits) limited.old) (aggregate_of cache.now) }
    ensures steps { steps_of (option_map (λ l. l.announced) limited.new)
        ≡ sum_steps (option_map (λ l. l.limits) limited.old) cache.now.steps }
    ensures limits { option_map (λ l. l.limits) limited.new
        ≡ option_map (λ l. l.limits) limited.old }
{
    let sum = cache.aggregate();
    match limited {
        None => {
            let _ = window.sent(number, cache.heads());
        }
        Some(limits) => {
            limits.settle(sum);
            window.sent_limited(number, cache.heads(), sum);
        }
    }
}

/// The step that a price of this step has for the children, whose bids have so many steps.
fn step_below(limited: &Option<Limited>, step: u32, sent: &Record) -> u32
    requires step { (limits : LimitedValue) → limited.now ≡ Some limits →
        step < length limits.announced }
    requires sums { (limits : LimitedValue) → limited.now ≡ Some limits →
        steps_of sent.now.sum ≡ Some (length limits.announced) }
    requires no_sums { limited.now ≡ None → sent.now.sum ≡ None }
    ensures step { result ≡ local_step_of_record (option_map (λ l. l.limits) limited.now) step
        sent.now.sum }
    ensures inside { (limits : LimitedValue) → limited.now ≡ Some limits →
        result < length limits.announced }
    ensures same { limited.now ≡ None → result ≡ step }
{
    match limited {
        None => step,
        Some(limits) => match sent.sum() {
            None => step,
            Some(sum) => limits.local_step(step, sum),
        },
    }
}

/// The same for a node that settles for steps within its limits.
fn settled_step_below(limited: &Option<Limited>, limits: &Limits, step: u32, sent: &Record) -> u32
    requires step { (limits : LimitedValue) → limited.now ≡ Some limits →
        step < length limits.announced }
    requires sums { (limits : LimitedValue) → limited.now ≡ Some limits →
        steps_of sent.now.sum ≡ Some (length limits.announced) }
    requires no_sums { limited.now ≡ None → sent.now.sum ≡ None }
    ensures step { result ≡ settled_step_of_record (Some limits.now) step sent.now.sum }
    ensures inside { (limits : LimitedValue) → limited.now ≡ Some limits →
        result < length limits.announced }
    ensures same { limited.now ≡ None → result ≡ step }
{
    match limited {
        None => step,
        Some(_own) => match sent.sum() {
            None => step,
            Some(sum) => { sum.settled_step(limits, step as usize, &mut uncounted()) as u32 }
        },
    }
}

/// Whether the heads are the same.
fn same_heads(heads: &[BidHead], others: &[BidHead]) -> bool
    ensures same { IsTrue result ↔ (heads.now ≡ others.now) }
{
    heads == others
}
