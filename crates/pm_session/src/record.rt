//! The record of what went into one number of a concentrator, with the sum if it has limits.

ghost use Rattle.std.specs.Prelude.{◌≡◌, length, replicate, Some, IfOk};
ghost use Rattle.std.specs.Option.{option_copied};
ghost use Rattle.pm_bid.specs.Heads.{nothing_sent};
ghost use Rattle.pm_session.specs.Windows.{HasSteps, steps_of};

use pm_bid::{ArrayBid, BidHead, uncounted};
use std::alloc::{AllocError, Global};
use std::marker::Model;

/// What went into one number of a concentrator: the heads of its children, and the children's sum
/// if the concentrator is limited.
#[derive(Drop)]
pub struct Record {
    number: u32,
    heads: Vec<BidHead>,
    sum: Option<ArrayBid>,
}

impl Model for Record {
    ghost use Rattle.pm_session.specs.Windows.{Sent};

    ghost Value = { Sent };

    ghost view = { λ r. record { number = r.number; heads = r.heads.items; sum = r.sum } };
}

impl Record {
    /// A record of children that sent nothing, with a sum of so many steps if there is one.
    pub(crate) fn new(
        alloc: Global,
        children: usize,
        steps: Option<usize>,
    ) -> Result<Record, AllocError>
        requires steps { HasSteps steps }
        ensures heads { IfOk result (λ r. r.heads ≡ replicate children nothing_sent) }
        ensures sum { IfOk result (λ r. steps_of r.sum ≡ steps) }
    {
        let nothing_sent = BidHead {
            number: 0,
            gone: true,
        };
        let heads = vec![in alloc; nothing_sent; children]?;
        let sum = match steps {
            None => None,
            Some(steps) => Some(ArrayBid::zero(alloc, steps, &mut uncounted())?),
        };
        Ok(Record {
            number: 0,
            heads,
            sum,
        })
    }

    /// The number.
    pub fn number(&self) -> u32
        ensures number { result ≡ self.now.number }
    {
        self.number
    }

    /// For each child the number of its bid that went in, and whether the child was gone.
    pub fn children(&self) -> &[BidHead]
        ensures heads { result.now ≡ self.now.heads }
    {
        &self.heads
    }

    /// The children's sum, before any clamping. None comes exactly if the record has no sum: it
    /// was made by [`Window::sent`](crate::Window::sent).
    pub fn sum(&self) -> Option<&ArrayBid>
        ensures sum { option_copied result ≡ self.now.sum }
    {
        self.sum.as_ref()
    }

    /// Writes a record without a sum over this one.
    pub(crate) fn write(&mut self, number: u32, children: &[BidHead])
        requires { length children.now ≡ length self.old.heads }
        ensures { self.new ≡ record self.old { number = number; heads = children.now } }
    {
        self.number = number;
        self.heads.copy_from_slice(children);
    }

    /// Writes a record with a sum over this one.
    pub(crate) fn write_limited(&mut self, number: u32, children: &[BidHead], sum: &ArrayBid)
        requires heads { length children.now ≡ length self.old.heads }
        requires steps { steps_of self.old.sum ≡ Some (length sum.now) }
        ensures { self.new ≡ record { number = number; heads = children.now; sum = Some sum.now } }
    {
        self.write(number, children);
        if let Some(kept) = &mut self.sum {
            sum.copy_into(kept, &mut uncounted());
        }
    }
}
