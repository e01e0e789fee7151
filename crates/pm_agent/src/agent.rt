//! The agent of one device, which turns each change of the device into a bid.

ghost use Rattle.std.specs.Prelude.{◌≡◌, length, IsTrue, IfOk};
ghost use Rattle.pm_base.specs.Limits.{AreSteps};
ghost use Rattle.pm_bid.specs.Bids.{HaveSteps};
ghost use Rattle.pm_device.specs.Kinds.{is_valid, state_fits};
ghost use Rattle.pm_agent.specs.MadeBids.{IsMade, demand_after_change};

use crate::made::Made;
use pm_bid::{ArrayBid, uncounted};
use pm_device::{Kind, Next};
use std::alloc::{AllocError, Global};
use std::marker::Model;

/// The agent of one device: it turns the device's changes into bids.
///
/// Contracts see it as the device's kind, the number of its node, and the number of steps of its bids.
#[derive(Drop)]
pub struct DeviceAgent {
    made: Made,
}

impl Model for DeviceAgent {
    ghost use Rattle.std.specs.Prelude.{length};
    ghost use Rattle.pm_agent.specs.Agents.{Agent, IsAgent};

    ghost Value = { Agent };

    ghost view = { λ a. record {
      kind = a.made.kind;
      device = a.made.next.device;
      steps = length a.made.demand;
    } };

    ghost invariant = { λ a. IsAgent (record {
      kind = a.made.kind;
      device = a.made.next.device;
      steps = length a.made.demand;
    }) };
}

impl DeviceAgent {
    ghost use Rattle.std.specs.Prelude.{⊤};
    ghost use Rattle.std.specs.Borrow.{sem};
    ghost use denote.Follow.{follows_so};
    ghost use mathlib.Core.Option.{none};
    ghost use Rattle.pm_agent.specs.Agents.{IsAgent};
    ghost use Rattle.pm_agent.specs.contracts.agent.DeviceAgent.{the_row};

    /// The agent of a device of this kind with this node, for a market basis of so many steps, 2 to 1000.
    pub fn new(
        alloc: Global,
        kind: Kind,
        device: u32,
        steps: usize,
    ) -> Result<DeviceAgent, AllocError>
        requires valid { IsTrue (is_valid kind) }
        requires steps { AreSteps steps }
        ensures agent { IfOk result (λ agent. agent
            ≡ record { kind = kind; device = device; steps = steps }) }
    {
        let none = ArrayBid::zero(alloc, steps, &mut uncounted())?;
        Ok(DeviceAgent {
            made: Made::unchanged(kind, device, none),
        })
    }

    /// The device's kind.
    pub fn kind(&self) -> Kind
        ensures kind { result ≡ self.now.kind }
        ensures agent { IsAgent self.now }
    {
        self.made.kind()
    }

    /// The number of the device's node.
    pub fn device(&self) -> u32
        ensures device { result ≡ self.now.device }
        ensures agent { IsAgent self.now }
    {
        self.made.next().device
    }

    /// How many steps the agent's bids have.
    pub fn steps(&self) -> usize
        ensures steps { result ≡ self.now.steps }
        ensures agent { IsAgent self.now }
    {
        self.made.demand().steps()
    }

    /// What the next change makes of the device. If it is no member afterwards, its demand is 0 at every step. Otherwise
    /// the demand is its bid. For a manual device this is the array whose number is the state, and 0 if there is no such
    /// array. The change is one of the agent's device, its state fits the device's kind, and the arrays have the agent's
    /// steps. The agent stays the same.
    pub fn work(&mut self, next: Next, arrays: &[ArrayBid]) -> &Made
        requires device { next.device ≡ self.old.device }
        requires fits { IsTrue (state_fits self.old.kind next.state.0) }
        requires arrays { HaveSteps self.old.steps arrays.now }
        ensures* agent { sem 𝓛 (follows_so the_row the_row self.entry.ghost_name none (λ _ _. ⊤)
            (λ w. w ≡ self.old)) }
        ensures next { result.now.next ≡ next }
        ensures kind { result.now.kind ≡ self.old.kind }
        ensures demand { result.now.demand ≡ demand_after_change self.old.kind next arrays.now
            self.old.steps }
        ensures steps { length result.now.demand ≡ self.old.steps }
        ensures made { IsMade result.now }
    {
        self.made.follow(next, arrays);
        &self.made
    }
}
