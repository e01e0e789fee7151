//! A gate under which two threads meet, and what is told to it.

use super::{Outcome, PIECES, called, envelope};
use crate::holds::holds;
use pm_gates::{MeetingGate, Moment, TellingGate};
use pm_market::{Line, Move};
use pm_top::Status;
use std::alloc::Global;
use std::process::Abort;
use std::str::from_utf8;
use std::sync::Wait;
use std::thread::Threads;

/// How often a node looks for the other at most.
pub(super) const LOOKS: u32 = 20_000_000;

/// The name of a node of the two manual bids.
fn name(node: u32) -> &'static str {
    match node {
        0 => "auctioneer",
        1 => "load1",
        2 => "gen1",
        _ => "none",
    }
}

/// The first words of the line that a trace has of a move of the two manual bids, the name of a node, and a number.
fn parts_of(what: Move) -> (&'static str, &'static str, u32) {
    match what {
        Move::Change { device, number } => ("change ", name(device), number),
        Move::Learn { child, number } => ("learn auctioneer ", name(child), number),
        Move::Publish { node, number } => ("publish ", name(node), number),
        Move::Clear { index } => ("clear", "", index),
        Move::Pass { node, index } => ("pass ", name(node), index),
        Move::Close { phase } => ("close", "", phase),
    }
}

/// The line that a trace has of a move of the two manual bids, whose prices are their steps.
fn trace_line<R: Abort>(rt: &R, alloc: Global, line: Line) -> String {
    let (head, name, number) = parts_of(line.what);
    let text = match line.held {
        Some((step, bid)) => { format!(in alloc; "{head}{name} {number} price {step} bid {bid}") }
        None => format!(in alloc; "{head}{name} {number}"),
    };
    text.expect(rt, "memory")
}

/// How often a line is among these.
fn times(moves: &str, due: &str) -> usize {
    let mut times = 0usize;
    for have in moves.lines() {
        if have == due {
            times = times.saturating_add(1);
        }
    }
    times
}

/// Whether the lines behind a report are those that were told, each once.
fn are_told<R: Abort>(rt: &R, alloc: Global, moves: &str, told: &[Line]) -> bool {
    for line in told {
        if times(moves, trace_line(rt, alloc, *line).as_str()) != 1 {
            return false;
        }
    }
    moves.lines().count() == told.len() + 1
}

/// The file of the two manual bids, and an hour behind its only phase.
fn with_an_hour<R: Abort>(rt: &R, alloc: Global) -> String {
    let file = super::TWO_BIDS.strip_suffix("]}").expect(rt, "phases");
    format!(in alloc; "{file},{{\"tick\":60}}]}}").expect(rt, "memory")
}

/// The input of a command, over the two manual bids.
fn input_of<R: Abort>(rt: &R, alloc: Global, line: &str) -> String {
    match line {
        "bill" => with_an_hour(rt, alloc),
        "ask" => envelope(rt, alloc, super::TWO_BIDS, "0\n100\n-60\n"),
        "check" => envelope(rt, alloc, super::TWO_BIDS, ""),
        _ => String::from_str(alloc, super::TWO_BIDS).expect(rt, "memory"),
    }
}

/// The status of a command on its input; a trace without lines is no trace.
fn status_of(line: &str) -> Status {
    match line {
        "check" => Status::Invalid,
        _ => Status::Done,
    }
}

/// The commands that run a cluster.
const COMMANDS: &[&str] = &["run", "trace", "demo 2 7", "check", "bill", "ask", "free"];

/// The moment at which the nodes of a command meet: under `free` no move is told with a line.
fn moment_of(line: &str) -> Moment {
    match line {
        "free" => Moment::Turn,
        _ => Moment::Line,
    }
}

/// Whether the moves of a trace are the lines that were told.
fn is_told<R: Abort>(rt: &R, alloc: Global, trace: &[u8], told: &[Line]) -> bool {
    let text = from_utf8(trace).expect(rt, "a text");
    match text.strip_prefix(super::TWO_BIDS_TEXT) {
        Some(moves) => are_told(rt, alloc, moves, told),
        None => false,
    }
}

/// Both nodes met under this command, and the moves of a trace are the lines that were told.
fn must_have_met<R: Abort>(
    rt: &R,
    alloc: Global,
    line: &str,
    outcome: &Outcome,
    met: u64,
    told: &[Line],
) {
    let right = outcome.status == status_of(line) && met == 2;
    holds(rt, (line, outcome.status, met), right);
    if line == "trace" {
        holds(rt, line, is_told(rt, alloc, &outcome.text, told));
    }
}

/// The two nodes meet under this command on its input.
fn must_meet_on<R: Threads + Wait + Sync + Abort>(rt: &R, alloc: Global, line: &str, input: &[u8]) {
    let meeting = MeetingGate::new((1, 2), moment_of(line), LOOKS);
    let gate = TellingGate::new(rt, alloc, meeting);
    let outcome = called(rt, alloc, line, input, PIECES, &gate);
    let met = gate.gate().met();
    must_have_met(rt, alloc, line, &outcome, met, &gate.into_lines());
}

/// The two nodes meet under this command.
fn must_meet<R: Threads + Wait + Sync + Abort>(rt: &R, alloc: Global, line: &str) {
    must_meet_on(rt, alloc, line, input_of(rt, alloc, line).as_bytes());
}

/// Under each command that runs a cluster the two nodes meet, and the moves that a trace prints are those that were told.
#[test]
fn two_nodes_meet(rt: HostRuntime) {
    for line in COMMANDS {
        must_meet(&rt, rt.alloc(), *line);
    }
}
