//! The records of a concentrator's newest numbers, of which at most 8 are unanswered.

ghost use Rattle.std.specs.Prelude.{◌≡◌, ◌+◌, ◌-◌, ◌<◌, length, Some, None, IfOk, IsTrue, ◌↔◌};
ghost use Rattle.pm_base.specs.Limits.{AreSteps, window_size};
ghost use Rattle.pm_session.specs.Windows.{Keeps, unanswered_count, record_of, newest_record, RecordSent};
ghost use Rattle.pm_session.specs.Windows.{RecordAnswered, IsWindow, IsNewWindow, HasSteps, Fits};

use crate::record::Record;
use pm_base::WINDOW_SIZE;
use pm_bid::{ArrayBid, BidHead};
use std::alloc::{AllocError, Global};
use std::marker::Model;

/// How many records a window has room for: the one answered last, and each that may be unanswered.
const PLACES: usize = WINDOW_SIZE as usize + 1;

/// The records of what a concentrator sent, from the one answered last to the newest: at most
/// [`WINDOW_SIZE`] numbers are unanswered.
///
/// Contracts see the records by their numbers. A window for a limited concentrator keeps the
/// children's sum in each record.
#[derive(Drop)]
pub struct Window {
    children: usize,
    steps: Option<usize>,
    places: Vec<Record>,
    answered: u32,
    last: u32,
}

impl Model for Window {
    ghost use Rattle.pm_session.specs.Windows.{WindowValue};

    ghost Value = { WindowValue };

    ghost use Rattle.pm_session.specs.WindowFields.{IsRing, window_of};

    ghost view = { window_of };

    ghost invariant = { IsRing };
}

impl Window {
    ghost use Rattle.std.specs.Prelude.{⊤};
    ghost use Rattle.std.specs.Borrow.{sem};
    ghost use denote.Follow.{follows_so};
    ghost use mathlib.Core.Option.{none};
    ghost use Rattle.pm_session.specs.contracts.window.Window.{the_row};

    /// A window for so many children, in which nothing was sent. All memory of the window is taken
    /// here.
    pub fn new(alloc: Global, children: usize) -> Result<Window, AllocError>
        ensures new { IfOk result (λ window. IsNewWindow children None window) }
    {
        Window::opened(alloc, children, None)
    }

    /// The same, with sums of so many steps: for a limited concentrator.
    pub fn limited(alloc: Global, children: usize, steps: usize) -> Result<Window, AllocError>
        requires { AreSteps steps }
        ensures new { IfOk result (λ window. IsNewWindow children (Some steps) window) }
    {
        Window::opened(alloc, children, Some(steps))
    }

    fn opened(alloc: Global, children: usize, steps: Option<usize>) -> Result<Window, AllocError>
        requires { HasSteps steps }
        ensures { IfOk result (λ window. IsNewWindow children steps window) }
    {
        let mut places = Vec::with_capacity(alloc, PLACES)?;
        for _place in 0..PLACES {
            places.push(Record::new(alloc, children, steps)?)?;
        }
        Ok(Window {
            children,
            steps,
            places,
            answered: 0,
            last: 0,
        })
    }

    /// How many more may be sent: [`WINDOW_SIZE`] less the numbers that are unanswered.
    pub fn room(&self) -> usize
        ensures room { result ≡ window_size - unanswered_count self.now }
        ensures sound { IsWindow self.now }
    {
        (WINDOW_SIZE - (self.last - self.answered)) as usize
    }

    /// The newest number, 0 if nothing was sent.
    pub fn last(&self) -> u32
        ensures last { result ≡ self.now.last }
    {
        self.last
    }

    /// Whether the record of the number is kept.
    pub fn keeps(&self, number: u32) -> bool
        ensures keeps { IsTrue result ↔ Keeps self.now number }
    {
        1 <= number && self.answered <= number && number <= self.last
    }

    /// The newest record. If nothing was sent, it is that of the opening: all children are gone,
    /// with number 0.
    pub fn newest(&self) -> &Record
        ensures record { result.now ≡ newest_record self.now }
        ensures sound { IsWindow self.now }
    {
        &self.places[self.last as usize % PLACES]
    }

    /// The record of a number that is kept.
    pub fn record(&self, number: u32) -> &Record
        requires kept { Keeps self.now number }
        ensures record { result.now ≡ record_of self.now number }
        ensures fits { Fits self.now result.now }
        ensures number { result.now.number ≡ number }
    {
        &self.places[number as usize % PLACES]
    }

    /// Keeps a record under the next number, for a window without sums. There is room, and the list
    /// is as long as the window's children.
    pub fn sent(&mut self, number: u32, children: &[BidHead]) -> Result<(), AllocError>
        requires no_sums { self.old.steps ≡ None }
        requires room { unanswered_count self.old < window_size }
        requires number { number ≡ self.old.last + 1 }
        requires children { length children.now ≡ self.old.children }
        ensures ok { result ≡ Ok tt }
        ensures sent { RecordSent self.old self.new
            (record { number = number; heads = children.now; sum = None }) }
    {
        let record = &mut self.places[number as usize % PLACES];
        record.write(number, children);
        self.last = number;
        Ok(())
    }

    /// Keeps a record with the children's sum under the next number, for a window with sums of as
    /// many steps. There is room, and the list is as long as the window's children.
    pub fn sent_limited(&mut self, number: u32, children: &[BidHead], sum: &ArrayBid)
        requires sums { self.old.steps ≡ Some (length sum.now) }
        requires room { unanswered_count self.old < window_size }
        requires number { number ≡ self.old.last + 1 }
        requires children { length children.now ≡ self.old.children }
        ensures sent { RecordSent self.old self.new
            (record { number = number; heads = children.now; sum = Some sum.now }) }
    {
        let record = &mut self.places[number as usize % PLACES];
        record.write_limited(number, children, sum);
        self.last = number;
    }

    /// Notes that a number is answered, and gives its record, which is kept. The older records are dropped, this one stays.
    pub fn answered(&mut self, number: u32) -> &Record
        requires kept { Keeps self.old number }

        // The window that the caller has again once the record is no longer borrowed.
        ensures* after { sem 𝓛 (follows_so the_row the_row self.entry.ghost_name none (λ _ _. ⊤)
            (λ window. RecordAnswered self.old window number)) }
        ensures sent { result.now ≡ record_of self.old number }
        ensures fits { Fits self.old result.now }
        ensures number { result.now.number ≡ number }
    {
        self.answered = number;
        &self.places[number as usize % PLACES]
    }
}
