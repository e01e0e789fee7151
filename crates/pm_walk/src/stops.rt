//! Makes the changes of a phase only as far as a cut goes.

ghost use Rattle.std.specs.Prelude.{◌≡◌, ◌-◌, ◌≤◌, length, min, IfOk, true};
ghost use Rattle.pm_plan.specs.Plans.{is_leaf, phases, end_cut};
ghost use Rattle.pm_plan.specs.Auction.{power};
ghost use Rattle.pm_plan.specs.States.{state};
ghost use Rattle.pm_walk.specs.Cuts.{AreStops};
ghost use Rattle.pm_walk.specs.Standing.{HasCome, HaveCome, IsStanding, cut_made};
ghost use Rattle.pm_walk.specs.Clearing.{ArePowers};

use crate::changes::{Progress, make_changes};
use crate::standing::Standing;
use pm_bid::{ArrayBid, uncounted};
use pm_plan::Plan;
use pm_tree::NodeId;
use std::alloc::{AllocError, Global};

/// Makes the changes of all devices in a phase, each device's as far as the cut goes. `powers` are those at the end
/// of the phase before.
pub(crate) fn change_stops(
    plan: &Plan,
    phase: u32,
    powers: &[i64],
    cut: &[u32],
    stops: &mut [Progress],
)
    requires first { 1 ≤ phase }
    requires last { phase ≤ phases plan.now }
    requires powers { ArePowers plan.now (end_cut plan.now (phase - 1)) powers.now }
    requires one_each { length cut.now ≡ length plan.now.nodes }
    requires stops { AreStops plan.now cut.now (phase - 1) stops.old }
    ensures { AreStops plan.now cut.now phase stops.new }
{
    let tree = plan.tree();
    for number in 1..tree.len() + 1 {
        let device = NodeId(number);
        let at = number as usize;
        if tree.is_leaf(device) {
            stops[at] = change_stop(plan, device, phase, powers[at], cut[at - 1], stops[at]);
        }
    }
}

/// Makes the changes of a device in a phase up to the number `last`. `used` is its power at the end of the phase
/// before.
fn change_stop(
    plan: &Plan,
    device: NodeId,
    phase: u32,
    used: i64,
    last: u32,
    before: Progress,
) -> Progress
    requires leaf { is_leaf plan.now device.0 ≡ true }
    requires first { 1 ≤ phase }
    requires last { phase ≤ phases plan.now }
    requires reached { HasCome plan.now device.0 before }
    requires begun { before.count ≡ min last (end_cut plan.now (phase - 1) device.0) }
    requires used { used ≡ power plan.now (state plan.now) (end_cut plan.now (phase - 1)) device.0 }
    ensures reached { HasCome plan.now device.0 result }
    ensures count { result.count ≡ min last (end_cut plan.now phase device.0) }
{
    let many = plan.changes_of(phase, device).min(last - before.count);
    if many == 0 {
        return before;
    }
    make_changes(plan, device, phase, used, many, before)
}

impl Standing {
    /// The standing in which each node has come so far.
    pub(crate) fn over(
        alloc: Global,
        plan: &Plan,
        progress: &[Progress],
    ) -> Result<Standing, AllocError>
        requires { HaveCome plan.now progress.now }
        ensures stands { IfOk result (IsStanding plan.now) }
        ensures cut { IfOk result (λ s. cut_made s.progress ≡ cut_made progress.now) }
    {
        let tree = plan.tree();
        let mut standing = Standing::start(alloc, plan)?;
        let mut spare = ArrayBid::zero(alloc, plan.basis().steps(), &mut uncounted())?;
        for number in 1..tree.len() + 1 {
            let device = NodeId(number);
            if tree.is_leaf(device) {
                standing.reach(plan, device, progress[number as usize], &mut spare);
            }
        }
        Ok(standing)
    }
}
