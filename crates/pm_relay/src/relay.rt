//! A relay: it learns its children's bids, sends bids of its own, takes prices, and comes back after a restart.

ghost use Rattle.std.specs.Prelude.{◌≡◌, ◌+◌, ◌-◌, ◌<◌, ◌≤◌, ◌^◌, ◌==◌, length, replicate, IfOk, IfErr};
ghost use Rattle.std.specs.Prelude.{OnErr, IsTrue, ◌↔◌, Some, None};
ghost use Rattle.std.specs.Prelude.{if◌then◌else◌};
ghost use Rattle.std.specs.Option.{option_copied};
ghost use Rattle.pm_base.specs.Limits.{AreSteps, demand_limit, most_nodes};
ghost use Rattle.pm_bid.specs.Bids.{AllWithinLimit};
ghost use Rattle.pm_cache.specs.Cache.{kept_number, answer_to};
ghost use Rattle.pm_cache.specs.Learning.{demand_of_offer};
ghost use Rattle.pm_concentrator.specs.Concentrators.{own_demand};
ghost use Rattle.pm_concentrator.specs.Limited.{settled_step_of_record};
ghost use Rattle.pm_relay.specs.Relays.{AreRelayLimits, RelayComesBack, newest_bid_number, with_child_bid, with_new_limits};
ghost use Rattle.pm_relay.specs.Relays.{limits_of_number, LooksForRecord};
ghost use Rattle.pm_relay.specs.Numbers.{IsCaughtUp, HearsNothingNewer, known_number, parents_number};
ghost use Rattle.pm_relay.specs.Relays.{HasOwnStepWithin, BidSent, NotSent, HasRecord, record_at, TakesPrice};

use crate::fault::SendFault;
use crate::numbers::{expiry_number, hears_nothing_newer, is_caught_up, note_numbers};
use crate::outcome::PriceOutcome;
use crate::resume::Resume;
use pm_base::{Limits, MOST_NODES, WINDOW_SIZE};
use pm_bid::{ArrayBid, uncounted};
use pm_cache::CacheFault;
use pm_concentrator::Concentrator;
use pm_session::{PriceUpdate, Prices};
use std::alloc::{AllocError, Global};
use std::marker::Model;

/// How many places there are for the limits of numbers.
const LIMITS_PLACES: usize = WINDOW_SIZE as usize + 1;

/// A node between its children and its parent, which are reached by messages that may be lost, come twice or out of order. It
/// has places for 256 children, which count from 0.
///
/// Contracts see what its concentrator gathered and sent since the relay came up, and by how much the relay's numbers are ahead
/// of the concentrator's; the number answered and the index of the price that it took last; of each child the number in its
/// newest bid; and the limits that its numbers were made under.
#[derive(Drop)]
pub struct Relay {
    concentrator: Concentrator,
    base: u32,
    answered: u32,
    index: u32,
    recorded: Vec<u32>,
    made_under: Vec<Limits>,
}

impl Model for Relay {
    ghost use Rattle.pm_relay.specs.Relays.{RelayValue};

    ghost Value = { RelayValue };

    ghost use Rattle.pm_relay.specs.RelayFields.{relay_of, AreRelayFields};

    ghost view = { relay_of };

    ghost invariant = { AreRelayFields };
}

impl Relay {
    /// A relay to which nothing was sent, with limits on the power that it announces, in watts. All its memory is taken here.
    pub fn new(alloc: Global, steps: usize, limits: Limits) -> Result<Relay, AllocError>
        requires steps { AreSteps steps }
        requires limits { AreRelayLimits limits }
        ensures new { IfOk result
            (λ r. RelayComesBack steps limits 0 0 0 (replicate most_nodes 0) limits r) }
    {
        let numbers = [0; MOST_NODES];
        let resume = Resume {
            last: 0,
            numbers: &numbers,
            limits,
            answered: 0,
            index: 0,
        };
        Relay::resumed(alloc, steps, limits, &resume)
    }

    /// A relay that comes back after a restart with what it gave before. It has heard nothing yet, not even the limits that it
    /// gave: until it is told limits by [`Relay::set_limits`] it has those of its first start, which are handed in. All its
    /// memory is taken here.
    pub fn resumed(
        alloc: Global,
        steps: usize,
        limits: Limits,
        resume: &Resume<'_>,
    ) -> Result<Relay, AllocError>
        requires steps { AreSteps steps }
        requires limits { AreRelayLimits limits }
        requires numbers { length resume.now.numbers.now ≡ most_nodes }
        requires answered { resume.now.answered ≤ resume.now.last }
        requires under { AreRelayLimits resume.now.limits }
        ensures back { IfOk result (λ r. RelayComesBack steps limits resume.now.last
            resume.now.answered resume.now.index resume.now.numbers.now resume.now.limits r) }
    {
        let Limits { floor, ceiling } = limits;
        let concentrator = Concentrator::limited(alloc, MOST_NODES, steps, floor, ceiling)?;
        let recorded = Vec::from_slice(alloc, resume.numbers)?;
        let made_under = Vec::from_slice(alloc, &[resume.limits; LIMITS_PLACES])?;
        Ok(Relay {
            concentrator,
            base: resume.last,
            answered: resume.answered,
            index: resume.index,
            recorded,
            made_under,
        })
    }

    /// What the relay comes back with if it restarts now.
    pub fn resume(&self) -> Resume<'_>
        ensures last { result.last ≡ newest_bid_number self.now }
        ensures numbers { result.numbers.now ≡ self.now.recorded }
        ensures limits { Some result.limits ≡ limits_of_number self.now result.last }
        ensures small { AreRelayLimits result.limits }
        ensures answered { result.answered ≡ self.now.answered }
        ensures index { result.index ≡ self.now.index }
        ensures children { length result.numbers.now ≡ most_nodes }
        ensures order { result.answered ≤ result.last }
    {
        let last = self.last();
        Resume {
            last,
            numbers: &self.recorded,
            limits: self.made_under[last as usize % LIMITS_PLACES],
            answered: self.answered,
            index: self.index,
        }
    }

    /// The number of the newest bid, 0 where there is none.
    pub fn last(&self) -> u32
        ensures { result ≡ newest_bid_number self.now }
    {
        self.base + self.concentrator.last()
    }

    /// Learns a child's bid with its number; None is a bid that is gone. `Old` comes exactly where the number is at most the
    /// kept one. With the bid the relay may have heard again the record that it lost in a restart, and has it then.
    pub fn learn(
        &mut self,
        child: usize,
        number: u32,
        demand: Option<&ArrayBid>,
    ) -> Result<(), CacheFault>
        requires child { child < most_nodes }
        requires steps { length (demand_of_offer self.old.gathered.cache (option_copied demand))
            ≡ self.old.gathered.cache.steps }
        requires small { AllWithinLimit demand_limit
            (demand_of_offer self.old.gathered.cache (option_copied demand)) }
        ensures answer { result ≡ answer_to (kept_number self.old.gathered.cache child) number }
        ensures learnt { LooksForRecord (with_child_bid self.old child number
            (option_copied demand.entry)) self.new }
        ensures steps { self.new.gathered.cache.steps ≡ self.old.gathered.cache.steps }
    {
        let answer = self.enter(child, number, demand);
        self.look_for_record();
        answer
    }

    /// Lets go of a child that is a device: it counts as gone from now on, under the number that is the answer. This is the
    /// first odd number not below the newest number known of the child, whether heard or in the newest bid. A device gives
    /// even numbers alone, so no bid has this number, and the device's next bid is newer. A relay is never let go.
    pub fn expire(&mut self, child: usize) -> u32
        requires child { child < most_nodes }
        ensures number { result ≡ parents_number (known_number self.old.recorded
            self.old.gathered.cache.heads child) }
        ensures gone { LooksForRecord (with_child_bid self.old child result None) self.new }
        ensures steps { self.new.gathered.cache.steps ≡ self.old.gathered.cache.steps }
    {
        let number = expiry_number(&self.recorded, self.concentrator.cache().heads(), child);
        let _old = self.learn(child, number, None);
        number
    }

    /// Learns limits with their number, as the bid of a child that asks for nothing: they have a place among the children, and no
    /// other bid comes there. They count from the next bid on; each number keeps the limits that it was made under. `Old` comes
    /// exactly where the number is at most the kept one, and the limits stay then.
    pub fn set_limits(
        &mut self,
        child: usize,
        number: u32,
        limits: Limits,
    ) -> Result<(), CacheFault>
        requires child { child < most_nodes }
        requires limits { AreRelayLimits limits }
        ensures answer { result ≡ answer_to (kept_number self.old.gathered.cache child) number }
        ensures set { LooksForRecord (with_new_limits self.old child number limits) self.new }
        ensures steps { self.new.gathered.cache.steps ≡ self.old.gathered.cache.steps }
    {
        let answer = self.enter_limits(child, number, limits);
        self.look_for_record();
        answer
    }

    /// Enters limits.
    fn enter_limits(&mut self, child: usize, number: u32, limits: Limits) -> Result<(), CacheFault>
        requires child { child < most_nodes }
        requires limits { AreRelayLimits limits }
        ensures answer { result ≡ answer_to (kept_number self.old.gathered.cache child) number }
        ensures set { self.new ≡ with_new_limits self.old child number limits }
    {
        let answer = self.enter(child, number, None);
        if answer.is_ok() {
            self.concentrator.change_limits(limits);
        }
        answer
    }

    /// The limits that the next bid is made under.
    pub fn limits(&self) -> Limits
        ensures limits { Some result ≡ self.now.gathered.limits }
        ensures small { AreRelayLimits result }
    {
        let Some(limits) = self.concentrator.limits() else {
            unreachable!()
        };
        limits
    }

    /// Whether some step of the sum of what the children bid is within the limits that the next bid is made under. Directly after
    /// [`Relay::send`], and where the relay has its record again, these are the sum and the limits of the newest bid.
    pub fn has_step_within(&self) -> bool
        ensures { IsTrue result ↔ HasOwnStepWithin self.now }
    {
        let limits = self.limits();
        let sum = self.concentrator.cache().aggregate();
        sum.has_step_within(&limits, &mut uncounted())
    }

    /// Enters a child's bid.
    fn enter(
        &mut self,
        child: usize,
        number: u32,
        demand: Option<&ArrayBid>,
    ) -> Result<(), CacheFault>
        requires child { child < most_nodes }
        requires steps { length (demand_of_offer self.old.gathered.cache (option_copied demand))
            ≡ self.old.gathered.cache.steps }
        requires small { AllWithinLimit demand_limit
            (demand_of_offer self.old.gathered.cache (option_copied demand)) }
        ensures answer { result ≡ answer_to (kept_number self.old.gathered.cache child) number }
        ensures entered { self.new ≡ with_child_bid self.old child number
            (option_copied demand.entry) }
    {
        // The call tells a fact of the type: the sum is that of the bids kept.
        let _heads = self.concentrator.cache().heads();
        self.concentrator.learn(child, number, demand)
    }

    /// If the record of the newest bid was lost, and each child's number is the one in it, what was heard becomes this record
    /// again.
    fn look_for_record(&mut self)
        ensures { LooksForRecord self.old self.new }
    {
        if self.base == 0 || self.concentrator.last() > 0 {
            return;
        }
        if !self.is_caught_up() || !self.hears_nothing_newer() {
            return;
        }
        let limits = self.limits();
        if self.concentrator.next_settled_bid().is_err() {
            return;
        }
        self.made_under[self.base as usize % LIMITS_PLACES] = limits;
        self.base -= 1;
        // The call tells a fact of the type: there is a demand where there are limits.
        let _cache = self.concentrator.cache();
        if self.answered > self.base {
            self.concentrator.answer(1);
        }
    }

    /// Whether the relay heard of each child as much as its newest bid had. This fails only after a restart.
    pub fn is_caught_up(&self) -> bool
        ensures { IsTrue result ↔ IsCaughtUp self.now.recorded self.now.gathered.cache.heads }
    {
        is_caught_up(&self.recorded, self.concentrator.cache().heads())
    }

    /// Whether the relay heard of no child more than its newest bid had.
    fn hears_nothing_newer(&self) -> bool
        ensures { IsTrue result
            ↔ HearsNothingNewer self.now.recorded self.now.gathered.cache.heads }
    {
        hears_nothing_newer(&self.recorded, self.concentrator.cache().heads())
    }

    /// Makes the relay's next bid, whose number is the answer: its demand is what the children take at the steps that [`Relay::prices`] has
    /// (see [`Relay::demand`]), and the heads of the children are its record. A fault comes exactly for its cause, and nothing
    /// changes then.
    pub fn send(&mut self) -> Result<u32, SendFault>
        ensures sent { IfOk result (λ number. BidSent self.old self.new number) }
        ensures refused { IfErr result (λ fault. NotSent self.old fault) }
        ensures unchanged { OnErr result (self.new ≡ self.old) }
    {
        if !self.is_caught_up() {
            return Err(SendFault::NotCaughtUp);
        }
        if !self.concentrator.changed() {
            return Err(SendFault::NotChanged);
        }
        let last = self.last();
        if last - self.answered >= WINDOW_SIZE {
            return Err(SendFault::WindowFull);
        }
        if last == u32::MAX {
            return Err(SendFault::OutOfNumbers);
        }
        let limits = self.limits();
        let Ok(_own_number) = self.concentrator.next_settled_bid() else {
            unreachable!()
        };
        let number = last + 1;
        self.made_under[number as usize % LIMITS_PLACES] = limits;
        note_numbers(self.concentrator.cache().heads(), &mut self.recorded);
        Ok(number)
    }

    /// The demand of the relay's newest bid, in watts at each step, zeros before the first.
    pub fn demand(&self) -> &ArrayBid
        ensures demand { result.now ≡ own_demand self.now.gathered }
        ensures steps { length result.now ≡ self.now.gathered.cache.steps }
        ensures small { AllWithinLimit demand_limit result.now }
    {
        self.concentrator.demand()
    }

    /// The number of the newest bid, to send it again with [`Relay::demand`]. None comes exactly where there is none, or its
    /// record was lost in a restart and is not had again.
    pub fn resend(&self) -> Option<u32>
        ensures { result ≡ (if self.now.gathered.window.last == 0 then None
            else Some (newest_bid_number self.now)) }
    {
        if self.concentrator.last() == 0 {
            return None;
        }
        Some(self.last())
    }

    /// Takes a price of its parent, or leaves it. What goes on to the children is [`Relay::prices`].
    pub fn take_price(&mut self, price: PriceUpdate) -> PriceOutcome
        ensures taken { TakesPrice self.old self.new price result }
        ensures record { result ≡ PriceOutcome.PassedOn → HasRecord self.new price.number }
        ensures cache { self.new.gathered.cache ≡ self.old.gathered.cache }
    {
        if price.index <= self.index || !self.may_name(price.number) {
            return PriceOutcome::Dropped;
        }
        if price.number > self.base {
            self.concentrator.answer(price.number - self.base);
            self.answered = price.number;
            self.index = price.index;
            return PriceOutcome::PassedOn;
        }
        if price.number == self.last() && self.hears_nothing_newer() {
            return PriceOutcome::Waits;
        }
        self.answered = price.number;
        self.index = price.index;
        PriceOutcome::Alone
    }

    /// Whether a price may name the number: one from the one answered last to the newest.
    fn may_name(&self, number: u32) -> bool
        ensures { IsTrue result ↔ ((1 ≤ number) × (self.now.answered ≤ number)
            × (number ≤ newest_bid_number self.now)) }
    {
        1 <= number && self.answered <= number && number <= self.last()
    }

    /// The prices for the children, by the record of the number that the price names. Each child that is not gone in this record
    /// gets the number that it has there, and the step for which the relay settles by the record's sum and limits.
    pub fn prices(&self, price: PriceUpdate) -> Prices<'_>
        requires record { HasRecord self.now price.number }
        requires step { price.step < self.now.gathered.cache.steps }
        ensures heads { result.heads.now ≡ (record_at self.now price.number).heads }
        ensures children { length result.heads.now ≡ most_nodes }
        ensures step { result.step ≡ settled_step_of_record (limits_of_number self.now price.number)
            price.step (record_at self.now price.number).sum }
        ensures inside { result.step < self.now.gathered.cache.steps }
        ensures index { result.index ≡ price.index }
    {
        let limits = &self.made_under[price.number as usize % LIMITS_PLACES];
        let own_price = PriceUpdate {
            step: price.step,
            number: price.number - self.base,
            index: price.index,
        };
        self.concentrator.settled_prices(own_price, limits)
    }
}
