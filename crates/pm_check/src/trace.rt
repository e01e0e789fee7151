//! Judges a whole trace: the report, the moves, and their number.

ghost use Rattle.std.specs.Prelude.{◌≡◌, ◌↔◌, ℕ, ◌∷◌, List, [], codes, decimal, IsTrue, IfOk, IfErr};
ghost use Rattle.pm_market.specs.State.{start};
ghost use Rattle.pm_market.specs.Market.{market_state};
ghost use Rattle.pm_plan.specs.Plans.{PlanData};
ghost use Rattle.pm_plan.specs.Kept.{IsPlan};
ghost use Rattle.pm_report.specs.Words.{text_line};
ghost use Rattle.pm_check.specs.Lines.{AreLinesOf};
ghost use Rattle.pm_check.specs.Traces.{IsValidTrace, IsBadLine, IsFaultOfTrace};
ghost use Rattle.pm_check.specs.Reading.{IsReported};
ghost use Rattle.pm_check.specs.Judges.{IsJudge};

use crate::fault::CheckFault;
use crate::judge::Judge;
use crate::lines::split_whole_line;
use pm_plan::Plan;
use std::alloc::{AllocError, Global};

/// Judges a trace of a plan, against the report that is due. A valid trace is the report, the lines of a legal journal
/// that closes every phase, and the line with their number. The answer is then the number of its moves. Otherwise it is
/// refused at its bad line. This is the first, counted from 1, that is not due there, has no end, or is due and
/// missing. An allocation failure may be answered at any trace.
///
/// The report is a list of lines, each with a line feed at its end. A line of the trace costs its length, and the test and
/// the making of its move, as `Market` of `pm_market` has them. A clearing also costs the steps of the basis: once, once
/// for each limited concentrator, and once for each change since the clearing before it. No line is kept.
pub fn check(alloc: Global, plan: &Plan, report: &[u8], trace: &[u8]) -> Result<u64, CheckFault>
    requires { (lines : List (List ℕ)) × AreLinesOf report.now lines [] }
    ensures sound { IsPlan plan.now }
    ensures valid { IfOk result (IsValidTrace plan.now report.now trace.now) }
    ensures bad { IfErr result (IsFaultOfTrace plan.now report.now trace.now) }
    // A valid trace is not refused, and one with a bad line is.
    ensures accepted { (moves : ℕ) → IsValidTrace plan.now report.now trace.now moves →
        IfErr result (λ fault. fault ≡ CheckFault.NoMemory) }
    ensures refused { (line : ℕ) → IsBadLine plan.now report.now trace.now line →
        IfOk result (λ moves. ⊥) }
{
    // The call tells a fact of the type: the plan keeps its limits.
    let _phases = plan.phases();
    match read_report(report, trace) {
        Ok(reported) => check_moves(alloc, plan, report, trace, reported),
        Err(line) => Err(CheckFault::Invalid { line }),
    }
}

/// What is behind the report in a trace.
#[derive(Clone, Copy)]
struct Reported<'a> {
    /// How many lines the report has.
    lines: u64,
    /// The bytes after them.
    rest: &'a [u8],
}

/// Reads the report that a trace begins with; the error is the line at which the trace goes another way.
fn read_report<'a>(report: &[u8], trace: &'a [u8]) -> Result<Reported<'a>, u64>
    requires { (lines : List (List ℕ)) × AreLinesOf report.now lines [] }
    ensures read { IfOk result (λ reported. IsReported report.now trace.now reported.lines
        reported.rest.now) }
    ensures bad { IfErr result (λ line. (plan : PlanData) →
        IsBadLine plan report.now trace.now line) }
{
    let mut due = report;
    let mut rest = trace;
    let mut lines = 0;
    while let Some((expected, later)) = split_whole_line(due) {
        let Some((found, more)) = split_whole_line(rest) else {
            return Err(lines + 1);
        };
        if found != expected {
            return Err(lines + 1);
        }
        due = later;
        rest = more;
        lines += 1;
    }
    Ok(Reported { lines, rest })
}

/// Judges what is behind the report.
fn check_moves(
    alloc: Global,
    plan: &Plan,
    report: &[u8],
    trace: &[u8],
    reported: Reported<'_>,
) -> Result<u64, CheckFault>
    requires { IsReported report.now trace.now reported.lines reported.rest.now }
    ensures valid { IfOk result (IsValidTrace plan.now report.now trace.now) }
    ensures bad { IfErr result (IsFaultOfTrace plan.now report.now trace.now) }
{
    let mut judge = Judge::start(alloc, plan)?;
    check_lines(alloc, plan, report, trace, reported, &mut judge)
}

/// Judges the lines behind the report by a judge before its first move.
fn check_lines(
    alloc: Global,
    plan: &Plan,
    report: &[u8],
    trace: &[u8],
    reported: Reported<'_>,
    judge: &mut Judge,
) -> Result<u64, CheckFault>
    requires reported { IsReported report.now trace.now reported.lines reported.rest.now }
    requires judge { IsJudge plan.now judge.old }
    requires start { market_state judge.old.market ≡ start }
    ensures valid { IfOk result (IsValidTrace plan.now report.now trace.now) }
    ensures bad { IfErr result (IsFaultOfTrace plan.now report.now trace.now) }
{
    let mut rest = reported.rest;
    let mut moves = 0;
    while let Some((line, more)) = split_whole_line(rest) {
        let at = reported.lines + moves + 1;
        if judge.is_complete() {
            if !is_count(alloc, line, moves)? {
                return Err(CheckFault::Invalid { line: at });
            }
            if !more.is_empty() {
                return Err(CheckFault::Invalid { line: at + 1 });
            }
            return Ok(moves);
        }
        if !judge.take(plan, line)? {
            return Err(CheckFault::Invalid { line: at });
        }
        moves += 1;
        rest = more;
    }
    let line = reported.lines + moves + 1;
    Err(CheckFault::Invalid { line })
}

/// Whether a line tells so many moves.
fn is_count(alloc: Global, line: &[u8], moves: u64) -> Result<bool, AllocError>
    ensures { IfOk result (λ is. IsTrue is
        ↔ (line.now ≡ text_line (codes "moves" ∷ decimal moves ∷ []))) }
{
    let due = format!(in alloc; "moves {moves}\n")?;
    Ok(line == due.as_bytes())
}
