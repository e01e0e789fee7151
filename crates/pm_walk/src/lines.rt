//! The lines of a phase's end, read from a standing and its auction.

ghost use Rattle.std.specs.Prelude.{◌≡◌, ◌≤◌, length, IfOk};
ghost use Rattle.pm_plan.specs.Auction.{member_line, limited_line};
ghost use Rattle.pm_plan.specs.States.{state, end_of};
ghost use Rattle.pm_walk.specs.Standing.{IsStanding, cut_made};
ghost use Rattle.pm_walk.specs.Clearing.{IsClearing, AreGroupSteps, ArePowers};
ghost use Rattle.pm_plan.specs.EndLines.{members_to, limited_to};

use crate::clearing::Clearing;
use crate::standing::Standing;
use pm_bid::uncounted;
use pm_plan::{LimitedLine, MemberLine, PhaseEnd, Plan};
use pm_tree::NodeId;
use std::alloc::{AllocError, Global};

/// The end over a standing and its auction.
pub(crate) fn end_of(
    alloc: Global,
    plan: &Plan,
    standing: &Standing,
    clearing: &Clearing,
) -> Result<PhaseEnd, AllocError>
    requires stands { IsStanding plan.now standing.now }
    requires clearing { IsClearing plan.now (cut_made standing.now.progress) clearing.now }
    ensures { IfOk result (λ e. e.end ≡ end_of plan.now (cut_made standing.now.progress)) }
{
    let step = clearing.step as usize;
    let members = member_lines(alloc, plan, standing, &clearing.powers)?;
    let limited = limited_of(alloc, plan, standing, &clearing.group_steps)?;
    Ok(PhaseEnd::new(
        plan.basis(),
        clearing.step,
        clearing.total.at(step, &mut uncounted()),
        members,
        limited,
    ))
}

/// The lines of the members in file order.
fn member_lines(
    alloc: Global,
    plan: &Plan,
    standing: &Standing,
    powers: &[i64],
) -> Result<Vec<MemberLine>, AllocError>
    requires stands { IsStanding plan.now standing.now }
    requires powers { ArePowers plan.now (cut_made standing.now.progress) powers.now }
    ensures { IfOk result (λ v. v.items ≡ members_to plan.now (cut_made standing.now.progress)
        (length plan.now.nodes)) }
{
    let mut lines = Vec::new(alloc);
    for number in 1..plan.tree().len() + 1 {
        let device = NodeId(number);
        if standing.progress(plan, device).member {
            lines.push(member_line(plan, standing, powers, device))?;
        }
    }
    Ok(lines)
}

fn member_line(plan: &Plan, standing: &Standing, powers: &[i64], device: NodeId) -> MemberLine
    requires stands { IsStanding plan.now standing.now }
    requires inside { device.0 ≤ length plan.now.nodes }
    requires powers { ArePowers plan.now (cut_made standing.now.progress) powers.now }
    ensures { result ≡ member_line plan.now (state plan.now)
        (cut_made standing.now.progress) device.0 }
{
    MemberLine {
        node: device.0,
        power: powers[device.0 as usize],
        number: standing.progress(plan, device).count,
    }
}

/// The lines of the limited concentrators in file order.
fn limited_of(
    alloc: Global,
    plan: &Plan,
    standing: &Standing,
    group_steps: &[u32],
) -> Result<Vec<LimitedLine>, AllocError>
    requires stands { IsStanding plan.now standing.now }
    requires steps { AreGroupSteps plan.now (cut_made standing.now.progress) group_steps.now }
    ensures { IfOk result (λ v. v.items ≡ limited_to plan.now (cut_made standing.now.progress)
        (length plan.now.nodes)) }
{
    let mut lines = Vec::new(alloc);
    for number in 1..plan.tree().len() + 1 {
        let node = NodeId(number);
        if plan.limits(node).is_some() {
            lines.push(limited_line(plan, standing, group_steps, node))?;
        }
    }
    Ok(lines)
}

fn limited_line(plan: &Plan, standing: &Standing, group_steps: &[u32], at: NodeId) -> LimitedLine
    requires stands { IsStanding plan.now standing.now }
    requires inside { at.0 ≤ length plan.now.nodes }
    requires steps { AreGroupSteps plan.now (cut_made standing.now.progress) group_steps.now }
    ensures { result ≡ limited_line plan.now (state plan.now)
        (cut_made standing.now.progress) at.0 }
{
    let step = group_steps[at.0 as usize];
    LimitedLine {
        node: at.0,
        step,
        total: standing.sum(plan, at).at(step as usize, &mut uncounted()),
    }
}
