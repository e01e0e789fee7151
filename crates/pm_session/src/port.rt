//! The device's end of its link: whether the device is joined, and the price that it holds.

ghost use Rattle.std.specs.Prelude.{◌≡◌, Some, None};
ghost use Rattle.pm_session.specs.Ports.{held_by};

use crate::price::{Held, PriceUpdate};
use std::marker::Model;

/// A device's end of its link: whether the device is joined, and the price that it holds.
///
/// A device numbers its joins with its other changes, so a price names the number of a change. The
/// price of a former session, with a number below that of the last join, is not held.
#[derive(Drop)]
pub struct Port {
    joined: Option<u32>,
    given: Option<PriceUpdate>,
}

impl Model for Port {
    ghost use Rattle.pm_session.specs.Ports.{Seat};

    ghost Value = { Seat };

    ghost view = { λ p. record { joined = p.joined; given = p.given } };
}

impl Port {
    /// The port of a device that is not joined and was given no price.
    pub fn new() -> Port
        ensures new { result ≡ record { joined = None; given = None } }
    {
        Port {
            joined: None,
            given: None,
        }
    }

    /// The device joins by its change of this number.
    pub fn joined(&mut self, number: u32)
        ensures joined { self.new ≡ record self.old { joined = Some number } }
    {
        self.joined = Some(number);
    }

    /// The device leaves.
    pub fn left(&mut self)
        ensures left { self.new ≡ record self.old { joined = None } }
    {
        self.joined = None;
    }

    /// The device is given a price.
    pub fn price(&mut self, update: PriceUpdate)
        ensures given { self.new ≡ record self.old { given = Some update } }
    {
        self.given = Some(update);
    }

    /// The price that the device holds: the one given last. None comes exactly if the device is
    /// not joined, was given no price, or the price names a number below that of its last join.
    pub fn held(&self) -> Option<Held>
        ensures held { result ≡ held_by self.now }
    {
        let join = self.joined?;
        let price = self.given?;
        if price.number < join {
            return None;
        }
        Some(Held {
            step: price.step,
            number: price.number,
            index: price.index,
        })
    }
}
