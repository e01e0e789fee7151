//! Adds up what the groups announce, and finds the step and the power of each node.

ghost use Rattle.std.specs.Prelude.{◌≡◌, ◌-◌, ◌<◌, ◌≤◌, length, Some};
ghost use Rattle.pm_plan.specs.Plans.{node, limits_of};
ghost use Rattle.pm_plan.specs.Auction.{announcement, total, local_step_of_group, power};
ghost use Rattle.pm_plan.specs.States.{state};
ghost use Rattle.pm_walk.specs.Standing.{IsStanding, cut_made};
ghost use Rattle.pm_walk.specs.Clearing.{AreGroupSteps};
ghost use Rattle.pm_walk.specs.Parts.{total_to};

use crate::standing::{Standing, group_of};
use pm_base::Limits;
use pm_bid::{ArrayBid, uncounted};
use pm_plan::Plan;
use pm_tree::NodeId;

/// Makes `out` the total: the sum of the devices below no limited concentrator, and what each limited concentrator
/// announces.
pub(crate) fn fill_total(plan: &Plan, standing: &Standing, spare: &mut ArrayBid, out: &mut ArrayBid)
    requires stands { IsStanding plan.now standing.now }
    requires spare { length spare.old ≡ plan.now.basis.steps }
    requires out { length out.old ≡ plan.now.basis.steps }
    ensures total { out.new ≡ total plan.now (state plan.now) (cut_made standing.now.progress) }
    ensures spare { length spare.new ≡ plan.now.basis.steps }
    ensures steps { length out.new ≡ plan.now.basis.steps }
{
    standing
        .sum(plan, NodeId(0))
        .copy_into(out, &mut uncounted());
    for number in 1..plan.tree().len() + 1 {
        add_group(plan, standing, NodeId(number), spare, out);
    }
}

/// Adds what a node announces, if it is a limited concentrator, to what the groups before it do.
fn add_group(plan: &Plan, standing: &Standing, at: NodeId, spare: &mut ArrayBid, out: &mut ArrayBid)
    requires stands { IsStanding plan.now standing.now }
    requires first { 1 ≤ at.0 }
    requires last { at.0 ≤ length plan.now.nodes }
    requires spare { length spare.old ≡ plan.now.basis.steps }
    requires before { out.old ≡ total_to plan.now (state plan.now) (cut_made standing.now.progress)
        (at.0 - 1) }
    ensures spare { length spare.new ≡ plan.now.basis.steps }
    ensures after { out.new ≡ total_to plan.now (state plan.now)
        (cut_made standing.now.progress) at.0 }
{
    if let Some(limits) = limits_of(plan, at) {
        announce(plan, standing, at, limits, spare);
        out.add_into(spare, &mut uncounted());
    }
}

/// The limits of a limited concentrator; None exactly if the node is no limited one.
fn limits_of(plan: &Plan, at: NodeId) -> Option<Limits>
    requires { at.0 ≤ length plan.now.nodes }
    ensures { result ≡ limits_of (node plan.now at.0) }
{
    let (floor, ceiling) = plan.limits(at)?;
    Some(Limits { floor, ceiling })
}

/// Makes `out` what a limited concentrator announces: the sum of its group within its limits.
fn announce(plan: &Plan, standing: &Standing, at: NodeId, limits: Limits, out: &mut ArrayBid)
    requires stands { IsStanding plan.now standing.now }
    requires inside { at.0 ≤ length plan.now.nodes }
    requires limits { limits_of (node plan.now at.0) ≡ Some limits }
    requires out { length out.old ≡ plan.now.basis.steps }
    ensures announced { out.new ≡ announcement plan.now (state plan.now)
        (cut_made standing.now.progress) at.0 }
    ensures steps { length out.new ≡ plan.now.basis.steps }
{
    standing
        .sum(plan, at)
        .clamp_into(limits.floor, limits.ceiling, out, &mut uncounted());
}

/// The step of the nodes below a limited concentrator, by `step`, the step of the whole; of any other node `step`.
pub(crate) fn group_step(plan: &Plan, standing: &Standing, step: usize, group: NodeId) -> usize
    requires stands { IsStanding plan.now standing.now }
    requires group { group.0 ≤ length plan.now.nodes }
    requires step { step < plan.now.basis.steps }
    ensures step { result ≡ local_step_of_group plan.now (state plan.now)
        (cut_made standing.now.progress) step group.0 }
    ensures inside { result < plan.now.basis.steps }
{
    match limits_of(plan, group) {
        Some(limits) => standing
            .sum(plan, group)
            .step_within(&limits, step, &mut uncounted()),
        None => step,
    }
}

/// The power of a node, by `group_steps`, which has the step of each group.
pub(crate) fn power_of(plan: &Plan, standing: &Standing, group_steps: &[u32], at: NodeId) -> i64
    requires stands { IsStanding plan.now standing.now }
    requires inside { at.0 ≤ length plan.now.nodes }
    requires steps { AreGroupSteps plan.now (cut_made standing.now.progress) group_steps.now }
    ensures { result ≡ power plan.now (state plan.now) (cut_made standing.now.progress) at.0 }
{
    let step = group_steps[group_of(plan, at)];
    standing
        .demand(plan, at)
        .at(step as usize, &mut uncounted())
}
