//! An offer that an agent keeps.

ghost use Rattle.std.specs.Prelude.{◌≡◌, pos, slice_index_or};

use pm_bid::{ArrayBid, uncounted};
use std::marker::Model;

/// The power that a device would take at each step, in watts, under its number.
#[derive(Drop)]
pub(crate) struct Offer {
    number: u32,
    demand: ArrayBid,
}

impl Model for Offer {
    ghost use Rattle.pm_net.specs.Agents.{Offer};

    ghost Value = { Offer };

    ghost view = { λ o. record { number = o.number; demand = o.demand } };
}

impl Offer {
    /// The offer of this demand under a number.
    pub(crate) fn new(number: u32, demand: ArrayBid) -> Offer
        ensures { result ≡ record { number = number; demand = demand } }
    {
        Offer { number, demand }
    }

    /// The same offer under another number.
    pub(crate) fn renumbered(self, number: u32) -> Offer
        ensures { result ≡ record { number = number; demand = self.demand } }
    {
        Offer {
            number,
            demand: self.demand,
        }
    }

    /// The number.
    pub(crate) fn number(&self) -> u32
        ensures { result ≡ self.now.number }
    {
        self.number
    }

    /// The power at each step.
    pub(crate) fn demand(&self) -> &ArrayBid
        ensures { result.now ≡ self.now.demand }
    {
        &self.demand
    }

    /// The power at a step, 0 past the last one.
    pub(crate) fn power(&self, step: u32) -> i64
        ensures { result ≡ slice_index_or self.now.demand step (pos 0) }
    {
        let step = step as usize;
        if step >= self.demand.steps() {
            return 0;
        }
        self.demand.at(step, &mut uncounted())
    }
}
