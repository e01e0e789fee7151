//! Runs a plan, and writes the text that a command asks for.

ghost use Rattle.std.specs.Prelude.{◌≡◌, ◌≤◌, [], All, IfOk, Err, false, length};
ghost use Rattle.pm_base.specs.Limits.{most_phases, IsWithin, demand_limit};
ghost use Rattle.pm_bid.specs.Bids.{NeverRises};
ghost use Rattle.pm_plan.specs.Plans.{phases};
ghost use Rattle.pm_plan.specs.States.{all_ends};
ghost use Rattle.pm_gen.specs.Demo.{is_size};
ghost use Rattle.pm_bill.specs.Text.{bill_text};
ghost use Rattle.pm_bill.specs.Runs.{plan_bill};
ghost use Rattle.pm_report.specs.Report.{IsEndOf, ends_of};
ghost use Rattle.pm_report.specs.Trace.{IsLineOf};
ghost use Rattle.pm_report.specs.Summary.{summary_text};
ghost use Rattle.pm_answer.specs.declared.arguments.FileCommand.{FileCommand};
ghost use Rattle.pm_answer.specs.Answers.{last_total, IsTextOf, IsCompleteJournal, IsSummary};

use pm_ask::{Curve, CurveFault, ask_text};
use pm_bid::ArrayBid;
use pm_bill::bill_of_run;
use pm_free::settle_free;
use pm_gen::{GenFault, make_plan};
use pm_market::Journal;
use pm_nodes::Gate;
use pm_plan::{PhaseEnd, Plan};
use pm_report::{report_text, summary_text, trace_text};
use pm_runner::settle;
use std::alloc::{AllocError, Global};
use std::sync::Wait;
use std::thread::Threads;

/// Runs a plan to its end: the journal of the run, and the end of each phase.
fn run<R: Threads + Wait + Sync, G: Gate>(
    rt: &R,
    alloc: Global,
    plan: &Plan,
    gate: &G,
) -> Result<(Journal, Vec<PhaseEnd>), AllocError>
    ensures journal { IfOk result (λ run. IsCompleteJournal plan.now run.0.lines) }
    ensures lines { IfOk result (λ run. All (IsLineOf plan.now) run.0.lines) }
    ensures ends { IfOk result (λ run. ends_of run.1.items ≡ all_ends plan.now) }
    ensures one_each { IfOk result (λ run. length run.1.items ≡ phases plan.now) }
    ensures few { IfOk result (λ run. length run.1.items ≤ most_phases) }
    ensures of_plan { IfOk result (λ run. All (IsEndOf plan.now) (ends_of run.1.items)) }
{
    let board = settle(rt, alloc, plan, gate)?;
    let (journal, ends) = board.into_parts();
    prove!(ends.len() == plan.phases() as usize);
    Ok((journal, ends))
}

/// The total at the end of a run of a plan, to be asked for targets.
fn last_curve<R: Threads + Wait + Sync, G: Gate>(
    rt: &R,
    alloc: Global,
    plan: &Plan,
    gate: &G,
) -> Result<Curve, AllocError>
    ensures { IfOk result (λ curve. curve ≡ last_total plan.now) }
{
    // The call tells a fact of the type: the plan keeps its limits.
    let _basis = plan.basis();
    let board = settle(rt, alloc, plan, gate)?;
    curve_of(alloc, board.aggregate())
}

/// The curve of a total that never rises.
fn curve_of(alloc: Global, total: &ArrayBid) -> Result<Curve, AllocError>
    requires falls { NeverRises total.now }
    ensures { IfOk result (λ curve. curve ≡ total.now) }
{
    match Curve::new(alloc, total) {
        Ok(curve) => Ok(curve),
        Err(CurveFault::NoMemory) => Err(AllocError),
        Err(CurveFault::Rising { .. }) => unreachable!(),
    }
}

/// The report of the ends of a run.
#[tactic(auto, unfolding(crate::specs::Inputs::report_of))]
pub(crate) fn report<R: Threads + Wait + Sync, G: Gate>(
    rt: &R,
    alloc: Global,
    plan: &Plan,
    gate: &G,
) -> Result<Vec<u8>, AllocError>
    ensures { IfOk result (λ text. IsTextOf FileCommand.Run plan.now [] text.items) }
{
    let (_journal, ends) = run(rt, alloc, plan, gate)?;
    report_text(alloc, plan, &ends)
}

/// The report of the ends of a run, and behind it the lines of its journal.
#[tactic(auto, unfolding(crate::specs::Inputs::report_of))]
pub(crate) fn trace<R: Threads + Wait + Sync, G: Gate>(
    rt: &R,
    alloc: Global,
    plan: &Plan,
    gate: &G,
) -> Result<Vec<u8>, AllocError>
    ensures { IfOk result (λ text. IsTextOf FileCommand.Trace plan.now [] text.items) }
{
    let (journal, ends) = run(rt, alloc, plan, gate)?;
    trace_text(alloc, plan, &ends, &journal)
}

/// The bill of a run.
pub(crate) fn bill<R: Threads + Wait + Sync, G: Gate>(
    rt: &R,
    alloc: Global,
    plan: &Plan,
    gate: &G,
) -> Result<Vec<u8>, AllocError>
    ensures { IfOk result (λ text. IsTextOf FileCommand.Bill plan.now [] text.items) }
{
    let (_journal, ends) = run(rt, alloc, plan, gate)?;
    bill_of_ends(alloc, plan, &ends)
}

/// The bill of a run, by the ends of its phases.
fn bill_of_ends(alloc: Global, plan: &Plan, ends: &[PhaseEnd]) -> Result<Vec<u8>, AllocError>
    requires { ends_of ends.now ≡ all_ends plan.now }
    ensures { IfOk result (λ text. text.items ≡ bill_text plan.now (plan_bill plan.now)) }
{
    bill_of_run(alloc, plan, ends)?.text(plan)
}

/// What the total at the end of a run answers to targets in watts.
pub(crate) fn answers<R: Threads + Wait + Sync, G: Gate>(
    rt: &R,
    alloc: Global,
    plan: &Plan,
    targets: &[i64],
    gate: &G,
) -> Result<Vec<u8>, AllocError>
    requires { All (IsWithin demand_limit) targets.now }
    ensures { IfOk result (λ text. IsTextOf FileCommand.Ask plan.now targets.now text.items) }
{
    let curve = last_curve(rt, alloc, plan, gate)?;
    ask_text(alloc, plan.basis(), &curve, targets)
}

/// The report of the ends of a run over links without a lock.
#[tactic(auto, unfolding(crate::specs::Inputs::report_of))]
pub(crate) fn free_report<R: Threads + Wait + Sync, G: Gate>(
    rt: &R,
    alloc: Global,
    plan: &Plan,
    gate: &G,
) -> Result<Vec<u8>, AllocError>
    ensures { IfOk result (λ text. IsTextOf FileCommand.Free plan.now [] text.items) }
{
    let ends = settle_free(rt, alloc, plan, gate)?;
    prove!(ends.len() == plan.phases() as usize);
    report_text(alloc, plan, &ends)
}

/// The summary of a plan's phases' ends, for the demo cluster of this size and number.
fn summary_of<R: Threads + Wait + Sync, G: Gate>(
    rt: &R,
    alloc: Global,
    size: u32,
    number: u32,
    plan: &Plan,
    gate: &G,
) -> Result<Vec<u8>, AllocError>
    requires { 1 ≤ phases plan.now }
    ensures { IfOk result (λ text. text.items ≡ summary_text size number plan.now
        (all_ends plan.now)) }
{
    let (_journal, ends) = run(rt, alloc, plan, gate)?;
    summary_text(alloc, size, number, plan, &ends)
}

/// The summary of the demo cluster of so many devices, 1 to 200, whose draws this number starts.
///
/// Any other size is refused. A size within these limits has a plan, so that only an allocation can fail.
pub fn demo_of<R: Threads + Wait + Sync, G: Gate>(
    rt: &R,
    alloc: Global,
    size: u32,
    number: u32,
    gate: &G,
) -> Result<Vec<u8>, GenFault>
    ensures text { IfOk result (λ text. IsSummary size number text.items) }
    ensures bad_size { result ≡ Err GenFault.BadSize → is_size size ≡ false }
    ensures refused { is_size size ≡ false → result ≡ Err GenFault.BadSize }
{
    let plan = make_plan(alloc, size, number)?;
    match summary_of(rt, alloc, size, number, &plan, gate) {
        Ok(text) => Ok(text),
        Err(_) => Err(GenFault::NoMemory),
    }
}
