//! Writes the trace: the report, a line for each move, and their number.

ghost use Rattle.std.specs.Prelude.{◌≡◌, ◌<◌, ◌≤◌, ◌++◌, length, flat_map, All, IfOk, IfSome, OnOk, string_bytes};
ghost use Rattle.pm_base.specs.Limits.{most_phases};
ghost use Rattle.pm_report.specs.Words.{text_line};
ghost use Rattle.pm_report.specs.Report.{IsEndOf, ends_of};
ghost use Rattle.pm_report.specs.Trace.{IsLineOf, move_words, move_line, moves_line, trace_text};

use crate::report::push_report;
use crate::words::name;
use pm_market::{Journal, Line, Move};
use pm_plan::{PhaseEnd, Plan};
use pm_tree::NodeId;
use std::alloc::{AllocError, Global};

/// Writes the line of a learning.
fn push_learn(text: &mut String, plan: &Plan, child: u32, number: u32) -> Result<(), AllocError>
    requires first { 1 ≤ child }
    requires last { child ≤ length plan.now.nodes }
    ensures { OnOk result (string_bytes text.new ≡ string_bytes text.old
        ++ text_line (move_words plan.now (Move.Learn child number) None)) }
{
    let parent = plan.tree().parent(NodeId(child));
    let above = name(plan, parent.0);
    let name = name(plan, child);
    writeln!(text, "learn {above} {name} {number}")
}

/// Writes the line of a pass, with the price that a device then holds.
fn push_pass(
    text: &mut String,
    plan: &Plan,
    node: u32,
    index: u32,
    held: Option<(u32, u32)>,
) -> Result<(), AllocError>
    requires node { node ≤ length plan.now.nodes }
    requires step { IfSome held (λ held. held.0 < plan.now.basis.steps) }
    ensures { OnOk result (string_bytes text.new ≡ string_bytes text.old
        ++ text_line (move_words plan.now (Move.Pass node index) held)) }
{
    let name = name(plan, node);
    if !plan.tree().is_leaf(NodeId(node)) {
        return writeln!(text, "pass {name} {index}");
    }
    match held {
        Some((step, number)) => {
            let price = plan.basis().price(step as usize);
            writeln!(text, "pass {name} {index} price {price} bid {number}")
        }
        None => writeln!(text, "pass {name} {index} none"),
    }
}

/// Writes the line of a move.
fn push_line(text: &mut String, plan: &Plan, line: Line) -> Result<(), AllocError>
    requires { IsLineOf plan.now line }
    ensures { OnOk result (string_bytes text.new ≡ string_bytes text.old
        ++ move_line plan.now line) }
{
    match line.what {
        Move::Change { device, number } => {
            let name = name(plan, device);
            writeln!(text, "change {name} {number}")
        }
        Move::Learn { child, number } => push_learn(text, plan, child, number),
        Move::Publish { node, number } => {
            let name = name(plan, node);
            writeln!(text, "publish {name} {number}")
        }
        Move::Clear { index } => writeln!(text, "clear {index}"),
        Move::Pass { node, index } => push_pass(text, plan, node, index, line.held),
        Move::Close { phase } => writeln!(text, "close {phase}"),
    }
}

/// Writes the lines of the moves.
fn push_lines(text: &mut String, plan: &Plan, journal: &Journal) -> Result<(), AllocError>
    requires { All (IsLineOf plan.now) journal.now.lines }
    ensures { OnOk result (string_bytes text.new ≡ string_bytes text.old
        ++ flat_map (move_line plan.now) journal.now.lines) }
{
    for at in 0..journal.len() {
        if let Some(line) = journal.get(at) {
            push_line(text, plan, line)?;
        }
    }
    Ok(())
}

/// Writes the last line of a trace.
fn push_moves_line(text: &mut String, journal: &Journal) -> Result<(), AllocError>
    ensures { OnOk result (string_bytes text.new ≡ string_bytes text.old
        ++ moves_line journal.now.lines) }
{
    let moves = journal.len();
    writeln!(text, "moves {moves}")
}

/// The trace: the report of the ends, one line for each move of the journal, and `moves M` with the number of moves.
///
/// ```text
/// change NAME N
/// learn PARENT CHILD N
/// publish NAME N
/// clear J
/// pass NAME J
/// pass NAME J price X bid N
/// pass NAME J none
/// close P
/// ```
///
/// A pass to a concentrator has the first form of a pass. One to a device that then holds a price has the second, and
/// one to a device that then holds no price the third.
#[tactic(auto, unfolding(crate::specs::Trace::trace_text))]
pub fn trace_text(
    alloc: Global,
    plan: &Plan,
    ends: &[PhaseEnd],
    journal: &Journal,
) -> Result<Vec<u8>, AllocError>
    requires of_plan { All (IsEndOf plan.now) (ends_of ends.now) }
    requires few { length ends.now ≤ most_phases }
    // The nodes and the steps that the lines name are the plan's, and the child that is learnt of is no auctioneer.
    requires lines { All (IsLineOf plan.now) journal.now.lines }
    ensures { IfOk result (λ text. text.items ≡ trace_text plan.now
        (ends_of ends.now) journal.now.lines) }
{
    let mut text = String::new(alloc);
    push_report(&mut text, plan, ends)?;
    push_lines(&mut text, plan, journal)?;
    push_moves_line(&mut text, journal)?;
    Ok(text.into_bytes())
}
