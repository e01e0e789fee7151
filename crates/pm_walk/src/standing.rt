//! How far a run has come, with the demands of all nodes and the sum of each group.

ghost use Rattle.std.specs.Prelude.{◌≡◌, ◌≢◌, ℕ, ◌-◌, ◌≤◌, length, replicate, slice_set, true, false, IfOk};
ghost use Rattle.pm_base.specs.Limits.{AreSteps};
ghost use Rattle.pm_bid.specs.Bids.{zeros};
ghost use Rattle.pm_plan.specs.Plans.{is_leaf, phases, group, end_cut};
ghost use Rattle.pm_plan.specs.Kept.{IsPlan};
ghost use Rattle.pm_plan.specs.Auction.{sum_in, power, demand_in_cut};
ghost use Rattle.pm_plan.specs.States.{state};
ghost use Rattle.pm_walk.specs.Standing.{progress_at, HasCome, HaveCome, IsStanding, cut_made, demand_come};
ghost use Rattle.pm_walk.specs.Clearing.{ArePowers};

use crate::changes::{Progress, fill_demand, make_changes};
use pm_bid::{ArrayBid, uncounted};
use pm_device::DeviceState;
use pm_plan::Plan;
use pm_tree::NodeId;
use std::alloc::{AllocError, Global};
use std::marker::Model;

/// How far a run has come, with the demands and the sums there. Place 0 of each list is the auctioneer's.
pub(crate) struct Standing {
    /// How far each node has come.
    progress: Vec<Progress>,
    /// The demand of each node.
    demands: Vec<ArrayBid>,
    /// The sum of each group by its concentrator; of the devices below no limited concentrator at place 0.
    sums: Vec<ArrayBid>,
}

impl Model for Standing {
    ghost use Rattle.pm_walk.specs.Standing.{StandingValue};

    ghost Value = { StandingValue };

    ghost view = { λ s. record { progress = s.progress.items; demands = s.demands.items; sums = s.sums.items } };
}

/// Its owner lets go of it in one step; a derived drop would be one for each part.
impl Drop for Standing {
    fn drop(self) {
        let Standing {
            progress: _,
            demands: _,
            sums: _,
        } = self;
    }
}

impl Standing {
    /// Before the first change: each device in its start, and no device a member.
    pub(crate) fn start(alloc: Global, plan: &Plan) -> Result<Standing, AllocError>
        ensures stands { IfOk result (λ s. IsStanding plan.now s) }
        ensures none { IfOk result (λ s. (x : ℕ) → cut_made s.progress x ≡ 0) }
    {
        let many = plan.tree().len() as usize + 1;
        let steps = plan.basis().steps();
        Ok(Standing {
            progress: starts(alloc, plan)?,
            demands: blanks(alloc, many, steps)?,
            sums: blanks(alloc, many, steps)?,
        })
    }

    /// How far a node has come.
    pub(crate) fn progress(&self, plan: &Plan, at: NodeId) -> Progress
        requires stands { IsStanding plan.now self.now }
        requires inside { at.0 ≤ length plan.now.nodes }
        ensures progress { result ≡ progress_at self.now.progress at.0 }
    {
        self.progress[at.0 as usize]
    }

    /// The demand of a node.
    pub(crate) fn demand(&self, plan: &Plan, at: NodeId) -> &ArrayBid
        requires stands { IsStanding plan.now self.now }
        requires inside { at.0 ≤ length plan.now.nodes }
        ensures demand { result.now ≡ demand_in_cut plan.now (state plan.now)
            (cut_made self.now.progress) at.0 }
        ensures steps { length result.now ≡ plan.now.basis.steps }
    {
        &self.demands[at.0 as usize]
    }

    /// The sum of a group.
    pub(crate) fn sum(&self, plan: &Plan, group: NodeId) -> &ArrayBid
        requires stands { IsStanding plan.now self.now }
        requires inside { group.0 ≤ length plan.now.nodes }
        ensures sum { result.now ≡ sum_in plan.now (state plan.now)
            (cut_made self.now.progress) group.0 }
        ensures steps { length result.now ≡ plan.now.basis.steps }
    {
        &self.sums[group.0 as usize]
    }

    /// Keeps that a device has come so far. It writes the device's demand in `spare`.
    pub(crate) fn reach(
        &mut self,
        plan: &Plan,
        device: NodeId,
        here: Progress,
        spare: &mut ArrayBid,
    )
        requires leaf { is_leaf plan.now device.0 ≡ true }
        requires inside { device.0 ≤ length plan.now.nodes }
        requires stands { IsStanding plan.now self.old }
        requires reached { HasCome plan.now device.0 here }
        requires spare { length spare.old ≡ plan.now.basis.steps }
        ensures stands { IsStanding plan.now self.new }
        ensures progress { self.new.progress ≡ slice_set self.old.progress device.0 here }
        ensures spare { length spare.new ≡ plan.now.basis.steps }
    {
        fill_demand(plan, device, here, spare);
        self.put(plan, device, here, spare);
    }

    /// Keeps that a device has come so far, with this demand.
    fn put(&mut self, plan: &Plan, device: NodeId, here: Progress, demand: &ArrayBid)
        requires leaf { is_leaf plan.now device.0 ≡ true }
        requires inside { device.0 ≤ length plan.now.nodes }
        requires stands { IsStanding plan.now self.old }
        requires reached { HasCome plan.now device.0 here }
        requires demand { demand.now ≡ demand_come plan.now device.0 here }
        requires steps { length demand.now ≡ plan.now.basis.steps }
        ensures stands { IsStanding plan.now self.new }
        ensures progress { self.new.progress ≡ slice_set self.old.progress device.0 here }
    {
        let at = device.0 as usize;
        let group = group_of(plan, device);
        self.progress[at] = here;
        self.sums[group].exchange(&self.demands[at], demand, &mut uncounted());
        demand.copy_into(&mut self.demands[at], &mut uncounted());
    }

    /// Makes the changes of a device in a phase, and tells whether there were any. `used` is its power at the
    /// end of the phase before.
    fn change_device(
        &mut self,
        plan: &Plan,
        device: NodeId,
        phase: u32,
        used: i64,
        spare: &mut ArrayBid,
    ) -> bool
        requires leaf { is_leaf plan.now device.0 ≡ true }
        requires inside { device.0 ≤ length plan.now.nodes }
        requires first { 1 ≤ phase }
        requires last { phase ≤ phases plan.now }
        requires stands { IsStanding plan.now self.old }
        requires begun { cut_made self.old.progress device.0
            ≡ end_cut plan.now (phase - 1) device.0 }
        requires used { used ≡ power plan.now (state plan.now)
            (end_cut plan.now (phase - 1)) device.0 }
        requires spare { length spare.old ≡ plan.now.basis.steps }
        ensures stands { IsStanding plan.now self.new }
        ensures done { cut_made self.new.progress device.0 ≡ end_cut plan.now phase device.0 }
        ensures others { (x : ℕ) → x ≢ device.0 →
            cut_made self.new.progress x ≡ cut_made self.old.progress x }
        ensures same { result ≡ false → self.new ≡ self.old }
        ensures spare { length spare.new ≡ plan.now.basis.steps }
    {
        let many = plan.changes_of(phase, device);
        if many == 0 {
            return false;
        }
        let before = self.progress(plan, device);
        let here = make_changes(plan, device, phase, used, many, before);
        self.reach(plan, device, here, spare);
        true
    }

    /// Makes the changes of all devices in a phase, and tells whether there were any. `powers` are those at the
    /// end of the phase before.
    pub(crate) fn change_devices(
        &mut self,
        plan: &Plan,
        phase: u32,
        powers: &[i64],
        spare: &mut ArrayBid,
    ) -> bool
        requires first { 1 ≤ phase }
        requires last { phase ≤ phases plan.now }
        requires stands { IsStanding plan.now self.old }
        requires begun { cut_made self.old.progress ≡ end_cut plan.now (phase - 1) }
        requires powers { ArePowers plan.now (end_cut plan.now (phase - 1)) powers.now }
        requires spare { length spare.old ≡ plan.now.basis.steps }
        ensures stands { IsStanding plan.now self.new }
        ensures done { cut_made self.new.progress ≡ end_cut plan.now phase }
        ensures same { result ≡ false → self.new ≡ self.old }
        ensures spare { length spare.new ≡ plan.now.basis.steps }
    {
        let tree = plan.tree();
        let mut changed = false;
        for number in 1..tree.len() + 1 {
            let device = NodeId(number);
            if tree.is_leaf(device) {
                changed |= self.change_device(plan, device, phase, powers[number as usize], spare);
            }
        }
        changed
    }
}

/// How far the nodes have come before the first change.
pub(crate) fn starts(alloc: Global, plan: &Plan) -> Result<Vec<Progress>, AllocError>
    ensures reached { IfOk result (λ v. HaveCome plan.now v.items) }
    ensures none { IfOk result (λ v. (x : ℕ) → cut_made v.items x ≡ 0) }
{
    let mut progress = Vec::new(alloc);
    for number in 0..plan.tree().len() + 1 {
        progress.push(start_of(plan, NodeId(number)))?;
    }
    Ok(progress)
}

/// A node before its first change.
fn start_of(plan: &Plan, at: NodeId) -> Progress
    requires inside { at.0 ≤ length plan.now.nodes }
    ensures reached { HasCome plan.now at.0 result }
    ensures none { result.count ≡ 0 }
{
    let state = if plan.tree().is_leaf(at) {
        plan.start(at)
    } else {
        DeviceState(0)
    };
    Progress {
        count: 0,
        state,
        member: false,
    }
}

/// As many bids that are all zeros.
fn blanks(alloc: Global, many: usize, steps: usize) -> Result<Vec<ArrayBid>, AllocError>
    requires steps { AreSteps steps }
    ensures { IfOk result (λ v. v.items ≡ replicate many (zeros steps)) }
{
    let mut bids = Vec::new(alloc);
    for _ in 0..many {
        bids.push(ArrayBid::zero(alloc, steps, &mut uncounted())?)?;
    }
    Ok(bids)
}

/// The place of the group of a node: that of the limited concentrator above it, 0 if there is no such one.
pub(crate) fn group_of(plan: &Plan, at: NodeId) -> usize
    requires { at.0 ≤ length plan.now.nodes }
    ensures group { result ≡ group plan.now at.0 }
    ensures inside { result ≤ length plan.now.nodes }
    ensures sound { IsPlan plan.now }
{
    match plan.group(at) {
        Some(above) => above.0 as usize,
        None => 0,
    }
}
