//! What limits add to a concentrator: the demand that it announces, and the step that it passes down.

ghost use Rattle.std.specs.Prelude.{◌≡◌, ◌<◌, length, IfOk};
ghost use Rattle.pm_base.specs.Limits.{AreSteps, AreLimits};
ghost use Rattle.pm_bid.specs.Bids.{zeros, clamp};
ghost use Rattle.pm_bid.specs.Limited.{step_within};
ghost use Rattle.pm_bid.specs.Taken.{announced_in};

use pm_base::Limits;
use pm_bid::{ArrayBid, uncounted};
use std::alloc::{AllocError, Global};
use std::marker::Model;

/// The limits of a limited concentrator, and the demand of its newest bid.
#[derive(Drop)]
pub(crate) struct Limited {
    limits: Limits,
    announced: ArrayBid,
}

impl Model for Limited {
    ghost use Rattle.pm_base.specs.Limits.{AreLimits};
    ghost use Rattle.pm_concentrator.specs.Limited.{LimitedValue};

    ghost Value = { LimitedValue };

    ghost use Rattle.pm_concentrator.specs.LimitedFields.{limited_of};

    ghost view = { limited_of };

    ghost invariant = { λ inside. AreLimits inside.limits };
}

impl Limited {
    /// Limits for sums of so many steps. The newest bid is that of the opening, with zeros.
    pub(crate) fn new(alloc: Global, steps: usize, limits: Limits) -> Result<Limited, AllocError>
        requires steps { AreSteps steps }
        requires limits { AreLimits limits }
        ensures limits { IfOk result (λ limited. limited
            ≡ record { limits = limits; announced = zeros steps }) }
    {
        let announced = ArrayBid::zero(alloc, steps, &mut uncounted())?;
        Ok(Limited { limits, announced })
    }

    /// Makes the sum within the limits the demand of the newest bid.
    pub(crate) fn announce(&mut self, sum: &ArrayBid)
        requires steps { length sum.now ≡ length self.old.announced }
        ensures announced { self.new ≡ record self.old
            { announced = clamp self.old.limits.floor self.old.limits.ceiling sum.now } }
    {
        let Limits { floor, ceiling } = self.limits;
        let mut counter = uncounted();
        sum.clamp_into(floor, ceiling, &mut self.announced, &mut counter);
    }

    /// Makes what is taken of the sum, where the node settles for steps within its limits, the demand of the newest bid.
    pub(crate) fn settle(&mut self, sum: &ArrayBid)
        requires steps { length sum.now ≡ length self.old.announced }
        ensures announced { self.new ≡ record self.old
            { announced = announced_in self.old.limits sum.now } }
    {
        let mut counter = uncounted();
        sum.announce_into(&self.limits, &mut self.announced, &mut counter);
    }

    /// The demand of the newest bid.
    pub(crate) fn announced(&self) -> &ArrayBid
        ensures announced { result.now ≡ self.now.announced }
    {
        &self.announced
    }

    /// The step of the nodes below for a price of this step and the children's sum.
    pub(crate) fn local_step(&self, step: u32, sum: &ArrayBid) -> u32
        requires { step < length sum.now }
        ensures step { result ≡ step_within self.now.limits step sum.now }
        ensures inside { result < length sum.now }
    {
        sum.step_within(&self.limits, step as usize, &mut uncounted()) as u32
    }

    /// The limits.
    pub(crate) fn limits(&self) -> Limits
        ensures limits { result ≡ self.now.limits }
    {
        self.limits
    }

    /// Takes other limits. The demand of the newest bid stays.
    pub(crate) fn change(&mut self, limits: Limits)
        requires limits { AreLimits limits }
        ensures changed { self.new ≡ record self.old { limits = limits } }
    {
        self.limits = limits;
    }
}
