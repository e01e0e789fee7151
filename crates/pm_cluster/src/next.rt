//! The next change of a device, and what it makes of the device.

ghost use Rattle.std.specs.Prelude.{◌≡◌, ◌+◌, MatchOption};
ghost use Rattle.pm_market.specs.Lists.{IsLeaf};
ghost use Rattle.pm_plan.specs.Market.{plan_lists};
ghost use Rattle.pm_plan.specs.Plans.{end_cut, is_member};
ghost use Rattle.pm_plan.specs.Auction.{power};
ghost use Rattle.pm_plan.specs.States.{state};
ghost use Rattle.pm_plan.specs.declared.planned.Planned.{Planned};
ghost use Rattle.pm_cluster.specs.Next.{count_of, HasNoNext, IsDueChange, IsNext};

use crate::cluster::Cluster;
use pm_device::{DeviceState, Next, advance};
use pm_plan::Planned;
use pm_tree::NodeId;

impl<'p> Cluster<'p> {
    /// What the next change of a device makes of it. The answer is None exactly if no phase is open, or the device
    /// made all its changes of the open phase.
    pub fn next(&self, device: NodeId) -> Option<Next>
        requires leaf { IsLeaf (plan_lists self.now.plan) device.0 }
        ensures next { MatchOption result
            (HasNoNext self.now.plan self.now.core.closed (count_of self.now.core) device.0)
            (IsNext self.now.plan self.now.core.closed (count_of self.now.core) device.0) }
    {
        let Some(what) = self.due_change(device) else {
            return None;
        };
        Some(Next {
            device: device.0,
            number: self.counts[device.0 as usize] + 1,
            member: self.member_after(device, what),
            state: self.state_after(device, what),
        })
    }

    /// The change that a device makes next; None exactly if it has no next one.
    fn due_change(&self, device: NodeId) -> Option<Planned>
        requires leaf { IsLeaf (plan_lists self.now.plan) device.0 }
        ensures due { MatchOption result
            (HasNoNext self.now.plan self.now.core.closed (count_of self.now.core) device.0)
            (IsDueChange self.now.plan self.now.core.closed (count_of self.now.core) device.0) }
    {
        let at = device.0 as usize;
        let count = self.counts[at];
        if self.plan.phases() <= self.closed || self.due[at] <= count {
            return None;
        }
        self.plan.planned(device, count + 1)
    }

    /// Whether a device is a member after its next change.
    fn member_after(&self, device: NodeId, what: Planned) -> bool
        requires leaf { IsLeaf (plan_lists self.now.plan) device.0 }
        requires due { IsDueChange self.now.plan self.now.core.closed
            (count_of self.now.core) device.0 what }
        ensures member { result ≡ is_member self.now.plan device.0
            (count_of self.now.core device.0 + 1) }
    {
        match what {
            Planned::Join => true,
            Planned::Leave => false,
            Planned::Set { .. } | Planned::Tick { .. } => self.members[device.0 as usize],
        }
    }

    /// The state of a device after its next change.
    fn state_after(&self, device: NodeId, what: Planned) -> DeviceState
        requires leaf { IsLeaf (plan_lists self.now.plan) device.0 }
        requires due { IsDueChange self.now.plan self.now.core.closed
            (count_of self.now.core) device.0 what }
        ensures state { result.0 ≡ state self.now.plan device.0
            (count_of self.now.core device.0 + 1) }
    {
        match what {
            Planned::Join | Planned::Leave => self.states[device.0 as usize],
            Planned::Set { state } => state,
            Planned::Tick { minutes } => self.state_after_tick(device, minutes),
        }
    }

    /// The state of a device after its next change, which is a tick of so many minutes.
    fn state_after_tick(&self, device: NodeId, minutes: i64) -> DeviceState
        requires leaf { IsLeaf (plan_lists self.now.plan) device.0 }
        requires due { IsDueChange self.now.plan self.now.core.closed
            (count_of self.now.core) device.0 (Planned.Tick minutes) }
        ensures state { result.0 ≡ state self.now.plan device.0
            (count_of self.now.core device.0 + 1) }
    {
        let kind = self.plan.kind(device);
        let before = self.states[device.0 as usize];
        advance(&kind, before, self.power_before(device), minutes)
    }

    /// The power of a device in watts before the changes of the open phase: at the end of the phase before. Before the
    /// first phase it is 0.
    fn power_before(&self, device: NodeId) -> i64
        requires leaf { IsLeaf (plan_lists self.now.plan) device.0 }
        ensures power { result ≡ power self.now.plan (state self.now.plan)
            (end_cut self.now.plan self.now.core.closed) device.0 }
    {
        if self.closed == 0 {
            return 0;
        }
        self.powers[device.0 as usize]
    }
}
