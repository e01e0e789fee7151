//! A device's part of a phase: its changes, the bid that waits, and the price that it holds.

ghost use Rattle.std.specs.Prelude.{◌≡◌, true, false, None, IfOk, IfSome, OnErr, slice_get};
ghost use Rattle.pm_session.specs.Ports.{held_by};
ghost use Rattle.pm_phase.specs.Devices.{new_device, MayMakeChange, MakesChange, changed_demand};
ghost use Rattle.pm_phase.specs.Devices.{MayWork, seat_after_change, after_price_is_given};

use pm_agent::DeviceAgent;
use pm_bid::{ArrayBid, uncounted};
use pm_cells::UpMessage;
use pm_device::Next;
use pm_nodes::can_work;
use pm_plan::Plan;
use pm_session::{Held, Port, PriceUpdate};
use std::alloc::{AllocError, Global};

/// A device's part of a market over links: all that it owns beside its end of the link to its parent.
#[derive(Drop)]
pub(crate) struct DevicePart {
    pub(crate) agent: DeviceAgent,
    pub(crate) port: Port,
    /// Whether the device is a member, by the changes that it made.
    pub(crate) member: bool,
    /// How many changes of the open phase it made.
    pub(crate) made: usize,
    /// The bid that is to be put.
    pub(crate) waiting: Option<UpMessage>,
}

impl DevicePart {
    /// A device that made no change.
    pub(crate) fn new(agent: DeviceAgent) -> DevicePart
        ensures { result ≡ new_device agent }
    {
        DevicePart {
            agent,
            port: Port::new(),
            member: false,
            made: 0,
            waiting: None,
        }
    }

    /// The price that the device holds.
    pub(crate) fn held(&self) -> Option<Held>
        ensures { result ≡ held_by self.now.port }
    {
        self.port.held()
    }

    /// A phase begins: the device made none of its changes.
    pub(crate) fn begin(&mut self)
        ensures { self.new ≡ record self.old { made = 0 } }
    {
        self.made = 0;
    }

    /// Makes the next of the phase's changes, once the bid before it is put; whether it made one. The bid of the change waits
    /// then. A change that is none of the agent's is not made. Where an allocation fails nothing changes.
    pub(crate) fn make_change(
        &mut self,
        alloc: Global,
        plan: &Plan,
        changes: &[Next],
    ) -> Result<bool, AllocError>
        ensures made { result ≡ Ok true → IfSome (slice_get changes.now self.old.made)
            (λ next. MayMakeChange plan.now self.old next
            × MakesChange plan.now next self.old self.new) }
        ensures not_made { result ≡ Ok false → IfSome (slice_get changes.now self.old.made)
            (λ next. MayMakeChange plan.now self.old next → ⊥) }
        ensures some { result ≡ Ok true → slice_get changes.now self.old.made ≡ None → ⊥ }
        ensures unchanged { result ≡ Ok false → self.new ≡ self.old }
        ensures failed { OnErr result (self.new ≡ self.old) }
    {
        if self.waiting.is_some() {
            return Ok(false);
        }
        let Some(next) = changes.get(self.made) else {
            return Ok(false);
        };
        let next = *next;
        if !can_work(&self.agent, next, plan) {
            return Ok(false);
        }
        let demand = demand_of(alloc, plan, &mut self.agent, next)?;
        self.waiting = Some(UpMessage {
            number: next.number,
            demand,
        });
        self.made += 1;
        self.follow(next);
        Ok(true)
    }

    /// Joins or leaves the market, if a change says so.
    fn follow(&mut self, next: Next)
        ensures { self.new ≡ record self.old {
          port = seat_after_change self.old.port self.old.member next;
          member = next.member;
        } }
    {
        if next.member && !self.member {
            self.port.joined(next.number);
        }
        if !next.member && self.member {
            self.port.left();
        }
        self.member = next.member;
    }

    /// Is passed a price, which is dropped if its step is none of the plan's.
    pub(crate) fn take_price(&mut self, plan: &Plan, price: PriceUpdate)
        ensures { self.new ≡ after_price_is_given plan.now self.old price }
    {
        if (price.step as usize) < plan.basis().steps() {
            self.port.price(price);
        }
    }
}

/// The demand after a change of a device, in watts at each step; none if it is no member afterwards.
fn demand_of(
    alloc: Global,
    plan: &Plan,
    agent: &mut DeviceAgent,
    next: Next,
) -> Result<Option<ArrayBid>, AllocError>
    requires { MayWork plan.now agent.old next }
    ensures demand { IfOk result (λ demand. demand ≡ changed_demand plan.now agent.old next) }
    ensures agent { agent.new ≡ agent.old }
{
    if !next.member {
        return Ok(None);
    }
    let mut counter = uncounted();
    let mut demand = ArrayBid::zero(alloc, agent.steps(), &mut counter)?;
    let made = agent.work(next, plan.arrays());
    made.demand().copy_into(&mut demand, &mut counter);
    Ok(Some(demand))
}
