//! Tests of texts: reports, traces and refusals written out by hand.

ghost use Rattle.std.specs.Prelude.{◌≡◌, All, IsTrue};
ghost use Rattle.pm_report.specs.Report.{IsEndOf};
ghost use Rattle.pm_report.specs.Trace.{IsLineOf};

use crate::plans::{CHAIN, LONE, NodeLine, basis_of, joined_plan};
use crate::same::same;
use pm_market::{Journal, Line, Move};
use pm_plan::{Cause, MemberLine, PhaseEnd, Place, Plan, Refusal};
use pm_report::{phase_text, refusal_line, report_text, summary_text, trace_text};
use std::alloc::Global;
use std::process::Abort;
use std::slice::from_ref;

/// The plan of the nodes over the prices 0 to 9, with one phase in which the load joins.
fn plan_of<R: Abort>(rt: &R, alloc: Global, lines: &[NodeLine]) -> Plan {
    joined_plan(rt, alloc, basis_of(rt, 0, 9, 10), lines)
}

/// The end of that phase: the load, which is the last node, takes 100 watts, and the total never balances.
fn end_of<R: Abort>(rt: &R, alloc: Global, plan: &Plan) -> PhaseEnd
    ensures { IsEndOf plan.now result.end }
{
    let basis = plan.basis();
    assert!(rt; basis.steps() > 9);
    let (node, power, number) = (plan.tree().len(), 100, 1);
    let member = MemberLine {
        node,
        power,
        number,
    };
    let members = Vec::from_array(alloc, [member]).expect(rt, "memory");
    PhaseEnd::new(basis, 9, 100, members, Vec::new(alloc))
}

/// A journal of these lines.
fn journal_of<R: Abort>(rt: &R, alloc: Global, lines: &[Line]) -> Journal
    ensures { result.lines ≡ lines.now }
{
    let mut journal = Journal::new(alloc);
    for line in lines {
        journal.push(*line).expect(rt, "memory");
    }
    journal
}

/// Whether the nodes and the step that a line names are the plan's.
fn is_line_of(plan: &Plan, line: &Line) -> bool
    ensures { IsTrue result → IsLineOf plan.now line.now }
{
    let nodes = plan.tree().len();
    let is_named = match line.what {
        Move::Change { device, .. } => device <= nodes,
        Move::Learn { child, .. } => 1 <= child && child <= nodes,
        Move::Publish { node, .. } => node <= nodes,
        Move::Pass { node, .. } => 1 <= node && node <= nodes,
        Move::Clear { .. } | Move::Close { .. } => true,
    };
    let has_step = match line.held {
        Some((step, _number)) => (step as usize) < plan.basis().steps(),
        None => true,
    };
    is_named && has_step
}

/// Whether that holds of each line.
fn are_lines_of(plan: &Plan, lines: &[Line]) -> bool
    ensures { IsTrue result → All (IsLineOf plan.now) lines.now }
{
    for line in lines {
        if !is_line_of(plan, line) {
            return false;
        }
    }
    true
}

/// The trace of an end and lines that are the plan's.
fn trace<R: Abort>(rt: &R, alloc: Global, plan: &Plan, end: &PhaseEnd, lines: &[Line]) -> Vec<u8>
    requires { IsEndOf plan.now end.now.end }
{
    assert!(rt; are_lines_of(plan, lines));
    trace_text(alloc, plan, from_ref(end), &journal_of(rt, alloc, lines)).expect(rt, "a text")
}

/// The trace of a plan by these lines.
fn trace_by<R: Abort>(rt: &R, alloc: Global, plan: &Plan, lines: &[Line]) -> Vec<u8> {
    trace(rt, alloc, plan, &end_of(rt, alloc, plan), lines)
}

/// A text is the one that is due.
fn text_is<R: Abort>(rt: &R, text: &[u8], due: &str) {
    same(rt, due, text, due.as_bytes());
}

/// The plan of these nodes has this trace by these lines.
fn trace_is<R: Abort>(rt: &R, alloc: Global, nodes: &[NodeLine], lines: &[Line], due: &str) {
    let plan = plan_of(rt, alloc, nodes);
    text_is(rt, &trace_by(rt, alloc, &plan, lines), due);
}

/// The lines of a journal: moves, and the step and the number that a device then holds.
macro_rules! lines {
    ($(($what:expr, $held:expr $(,)?)),* $(,)?) => {
        &[$(Line { what: $what, held: $held }),*]
    };
}

/// The only lines of a lone load.
const LONE_LINES: &[Line] = lines![
    (
        Move::Change {
            device: 1,
            number: 1,
        },
        None,
    ),
    (
        Move::Learn {
            child: 1,
            number: 1,
        },
        None,
    ),
    (Move::Clear { index: 1 }, None),
    (Move::Pass { node: 1, index: 1 }, Some((9, 1))),
    (Move::Close { phase: 1 }, None),
];

const LONE_TRACE: &str = "\
phase 1 price 9 step 9 total 100 members 1
member load1 power 100 bid 1
end phases 1 changes 1
change load1 1
learn auctioneer load1 1
clear 1
pass load1 1 price 9 bid 1
close 1
moves 5
";

/// The only lines of a load under a concentrator.
const CHAIN_LINES: &[Line] = lines![
    (
        Move::Change {
            device: 2,
            number: 1,
        },
        None,
    ),
    (
        Move::Learn {
            child: 2,
            number: 1,
        },
        None,
    ),
    (Move::Publish { node: 1, number: 1 }, None),
    (
        Move::Learn {
            child: 1,
            number: 1,
        },
        None,
    ),
    (Move::Clear { index: 1 }, None),
    (Move::Pass { node: 1, index: 1 }, None),
    (Move::Pass { node: 2, index: 1 }, Some((9, 1))),
    (Move::Close { phase: 1 }, None),
];

const CHAIN_TRACE: &str = "\
phase 1 price 9 step 9 total 100 members 1
member load1 power 100 bid 1
end phases 1 changes 1
change load1 1
learn c1 load1 1
publish c1 1
learn auctioneer c1 1
clear 1
pass c1 1
pass load1 1 price 9 bid 1
close 1
moves 8
";

#[test]
fn a_lone_load_has_its_trace(rt: HostRuntime) {
    trace_is(&rt, rt.alloc(), &LONE, LONE_LINES, LONE_TRACE);
}

#[test]
fn a_load_under_a_concentrator_has_its_trace(rt: HostRuntime) {
    trace_is(&rt, rt.alloc(), &CHAIN, CHAIN_LINES, CHAIN_TRACE);
}

const PHASE: &str = "phase 1 price 9 step 9 total 100 members 1\nmember load1 power 100 bid 1\n";

const REPORT: &str =
    "phase 1 price 9 step 9 total 100 members 1\nmember load1 power 100 bid 1\nend phases 1 changes 1\n";

const SUMMARY: &str =
    "demo size 1 number 7 nodes 1 phases 1 changes 1\nprices 9 totals 100\nlast price 9 total 100 members 1\n";

/// The text of a phase, the report and the summary of a lone load.
fn texts_are<R: Abort>(rt: &R, alloc: Global, plan: &Plan, end: &PhaseEnd)
    requires { IsEndOf plan.now end.now.end }
{
    let phase = phase_text(alloc, plan, 1, end).expect(rt, "a text");
    text_is(rt, &phase, PHASE);
    let report = report_text(alloc, plan, from_ref(end)).expect(rt, "a text");
    text_is(rt, &report, REPORT);
    let summary = summary_text(alloc, 1, 7, plan, from_ref(end)).expect(rt, "a text");
    text_is(rt, &summary, SUMMARY);
}

fn texts_of_plan_are<R: Abort>(rt: &R, alloc: Global, plan: &Plan) {
    texts_are(rt, alloc, plan, &end_of(rt, alloc, plan));
}

#[test]
fn a_lone_load_has_its_texts(rt: HostRuntime) {
    texts_of_plan_are(&rt, rt.alloc(), &plan_of(&rt, rt.alloc(), &LONE));
}

#[test]
fn a_refusal_has_its_line(rt: HostRuntime) {
    let refusal = Refusal::of_item(Cause::BadArray, Place::Node { number: 1 }, 2);
    let line = refusal_line(rt.alloc(), &refusal).expect(&rt, "a line");
    text_is(&rt, &line, "refused 17 node 1 item 2\n");
}
