//! Writes the report: the lines of each phase's end, and the last line.

ghost use Rattle.std.specs.Prelude.{◌≡◌, ◌<◌, ◌≤◌, ◌++◌, length, flat_map, All, IfOk, OnOk, string_bytes};
ghost use Rattle.pm_base.specs.Limits.{most_phases};
ghost use Rattle.pm_report.specs.Report.{IsEndOf, phase_line, phase_text, phase_texts, end_line, report_text, ends_of, member_text, limited_text};

use crate::words::name;
use pm_plan::{LimitedLine, MemberLine, PhaseEnd, Plan};
use std::alloc::{AllocError, Global};

/// Writes the first line of a phase.
fn push_phase_line(text: &mut String, phase: u32, end: &PhaseEnd) -> Result<(), AllocError>
    ensures { OnOk result (string_bytes text.new ≡ string_bytes text.old
        ++ phase_line phase end.now.end) }
{
    let price = end.price();
    let step = end.step();
    let total = end.total();
    let members = end.members().len();
    writeln!(
        text,
        "phase {phase} price {price} step {step} total {total} members {members}"
    )
}

/// Writes the line of a member.
fn push_member(text: &mut String, plan: &Plan, member: &MemberLine) -> Result<(), AllocError>
    requires { member.now.node ≤ length plan.now.nodes }
    ensures { OnOk result (string_bytes text.new ≡ string_bytes text.old
        ++ member_text plan.now member.now) }
{
    let name = name(plan, member.node);
    let power = member.power;
    let number = member.number;
    writeln!(text, "member {name} power {power} bid {number}")
}

/// Writes the line of a limited concentrator.
fn push_limited(text: &mut String, plan: &Plan, limited: &LimitedLine) -> Result<(), AllocError>
    requires node { limited.now.node ≤ length plan.now.nodes }
    requires step { limited.now.step < plan.now.basis.steps }
    ensures { OnOk result (string_bytes text.new ≡ string_bytes text.old
        ++ limited_text plan.now limited.now) }
{
    let name = name(plan, limited.node);
    let step = limited.step;
    let price = plan.basis().price(step as usize);
    let total = limited.total;
    writeln!(
        text,
        "limited {name} price {price} step {step} total {total}"
    )
}

/// Writes the lines of members.
fn push_members(text: &mut String, plan: &Plan, members: &[MemberLine]) -> Result<(), AllocError>
    requires { All (λ member. member.node ≤ length plan.now.nodes) members.now }
    ensures { OnOk result (string_bytes text.new ≡ string_bytes text.old
        ++ flat_map (member_text plan.now) members.now) }
{
    for member in members {
        push_member(text, plan, member)?;
    }
    Ok(())
}

/// Writes the lines of limited concentrators.
fn push_all_limited(text: &mut String, plan: &Plan, all: &[LimitedLine]) -> Result<(), AllocError>
    requires nodes { All (λ limited. limited.node ≤ length plan.now.nodes) all.now }
    requires steps { All (λ limited. limited.step < plan.now.basis.steps) all.now }
    ensures { OnOk result (string_bytes text.new ≡ string_bytes text.old
        ++ flat_map (limited_text plan.now) all.now) }
{
    for limited in all {
        push_limited(text, plan, limited)?;
    }
    Ok(())
}

/// Writes the text of a phase.
#[tactic(auto, unfolding(crate::specs::Report::phase_text))]
fn push_phase(text: &mut String, plan: &Plan, phase: u32, end: &PhaseEnd) -> Result<(), AllocError>
    requires { IsEndOf plan.now end.now.end }
    ensures { OnOk result (string_bytes text.new ≡ string_bytes text.old
        ++ phase_text plan.now phase end.now.end) }
{
    push_phase_line(text, phase, end)?;
    push_members(text, plan, end.members())?;
    push_all_limited(text, plan, end.limited())
}

/// Writes the texts of phases, counted from 1.
fn push_phases(text: &mut String, plan: &Plan, ends: &[PhaseEnd]) -> Result<(), AllocError>
    requires of_plan { All (IsEndOf plan.now) (ends_of ends.now) }
    requires few { length ends.now ≤ most_phases }
    ensures { OnOk result (string_bytes text.new ≡ string_bytes text.old ++ phase_texts plan.now 1
        (ends_of ends.now)) }
{
    for (before, end) in ends.iter().enumerate() {
        push_phase(text, plan, before as u32 + 1, end)?;
    }
    Ok(())
}

/// Writes the last line of a report.
fn push_end_line(text: &mut String, plan: &Plan) -> Result<(), AllocError>
    ensures { OnOk result (string_bytes text.new ≡ string_bytes text.old ++ end_line plan.now) }
{
    let phases = plan.phases();
    let changes = plan.changes();
    writeln!(text, "end phases {phases} changes {changes}")
}

/// Writes the report.
#[tactic(auto, unfolding(crate::specs::Report::report_text))]
pub(crate) fn push_report(
    text: &mut String,
    plan: &Plan,
    ends: &[PhaseEnd],
) -> Result<(), AllocError>
    requires of_plan { All (IsEndOf plan.now) (ends_of ends.now) }
    requires few { length ends.now ≤ most_phases }
    ensures { OnOk result (string_bytes text.new ≡ string_bytes text.old
        ++ report_text plan.now (ends_of ends.now)) }
{
    push_phases(text, plan, ends)?;
    push_end_line(text, plan)
}

/// The text of the end of a phase, whose number counts from 1. It has the line of the phase, one for each member and
/// one for each limited concentrator, both in the order of the end.
///
/// ```text
/// phase P price X step K total T members M
/// member NAME power W bid N
/// limited NAME price X step K total T
/// ```
pub fn phase_text(
    alloc: Global,
    plan: &Plan,
    phase: u32,
    end: &PhaseEnd,
) -> Result<Vec<u8>, AllocError>
    // The nodes and the steps that the end names are the plan's.
    requires { IsEndOf plan.now end.now.end }
    ensures { IfOk result (λ text. text.items ≡ phase_text plan.now phase end.now.end) }
{
    let mut text = String::new(alloc);
    push_phase(&mut text, plan, phase, end)?;
    Ok(text.into_bytes())
}

/// The report of ends, which are those of the phases in their order. It has the text of each, then `end phases P
/// changes C` with the phases and the changes of the plan.
pub fn report_text(alloc: Global, plan: &Plan, ends: &[PhaseEnd]) -> Result<Vec<u8>, AllocError>
    requires of_plan { All (IsEndOf plan.now) (ends_of ends.now) }
    requires few { length ends.now ≤ most_phases }
    ensures { IfOk result (λ text. text.items ≡ report_text plan.now (ends_of ends.now)) }
{
    let mut text = String::new(alloc);
    push_report(&mut text, plan, ends)?;
    Ok(text.into_bytes())
}
