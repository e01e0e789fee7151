//! Commands under gates that hold the threads of their nodes back.

use super::village::VILLAGE;
use super::{FEEDER, Outcome, PIECES, TWO_BIDS, called, is_legal};
use crate::holds::holds;
use pm_gates::{SCHEDULES, Schedule};
use pm_nodes::OpenGate;
use pm_scene::read_scene;
use pm_top::Status;
use pm_tree::Tree;
use std::alloc::Global;
use std::process::Abort;
use std::sync::Wait;
use std::thread::Threads;

/// The files that are run.
const FILES: &[&str] = &[TWO_BIDS, FEEDER, VILLAGE];

/// The commands that are tried. Each has to write the text of the first; a trace has moves behind it.
const COMMANDS: &[&str] = &["run", "trace", "free"];

/// Whether an outcome has the text that is due. A trace is valid.
fn has_text<R: Threads + Wait + Sync + Abort>(
    rt: &R,
    alloc: Global,
    file: &[u8],
    due: &Outcome,
    outcome: &Outcome,
    line: &str,
) -> bool {
    match line {
        "trace" => {
            outcome.text.starts_with(&due.text) && is_legal(rt, alloc, file, &outcome.text)
        }
        _ => outcome.text.as_slice() == due.text.as_slice(),
    }
}

/// A command has the text that is due under a gate, which is made anew for it.
fn must_keep_its_text<R: Threads + Wait + Sync + Abort>(
    rt: &R,
    alloc: Global,
    file: &[u8],
    due: &Outcome,
    schedule: &Schedule,
    tree: &Tree,
    line: &str,
) {
    let gate = schedule.gate(alloc, tree).expect(rt, "memory");
    let outcome = called(rt, alloc, line, file, PIECES, &gate);
    let is_right = has_text(rt, alloc, file, due, &outcome, line);
    holds(rt, (line, outcome.status), outcome.status == Status::Done);
    assert!(rt; is_right, "{line} under {schedule}");
}

/// Each command has the text that is due under a gate.
fn must_keep_texts<R: Threads + Wait + Sync + Abort>(
    rt: &R,
    alloc: Global,
    file: &[u8],
    due: &Outcome,
    schedule: &Schedule,
    tree: &Tree,
) {
    for line in COMMANDS {
        must_keep_its_text(rt, alloc, file, due, schedule, tree, *line);
    }
}

/// Each command has its text under each gate for a tree.
fn must_hold_on<R: Threads + Wait + Sync + Abort>(rt: &R, alloc: Global, file: &[u8], tree: &Tree) {
    let due = called(rt, alloc, "run", file, PIECES, &OpenGate);
    for schedule in SCHEDULES {
        must_keep_texts(rt, alloc, file, &due, schedule, tree);
    }
}

/// Each command has its text under each gate for the tree of a file.
fn must_hold<R: Threads + Wait + Sync + Abort>(rt: &R, alloc: Global, file: &[u8]) {
    let plan = read_scene(alloc, file).expect(rt, "a plan");
    must_hold_on(rt, alloc, file, plan.tree());
}

#[test]
fn held_threads_change_no_text(rt: HostRuntime) {
    for file in FILES {
        must_hold(&rt, rt.alloc(), file.as_bytes());
    }
}
