//! The program `over_links` counts which ends of a run came over links without a lock, for a check of the repository.
//!
//! It reads a cluster file on standard input and runs it as `market free` does. It prints how many phases have an end that was read
//! of their nodes (`links`) and how many have the end of the board beside them (`board`), how many phases had changes, so that
//! messages passed (`changed`), and how many of two nodes found the other's thread (`met`). No contract says that a phase settles or
//! that threads run beside one another, and the ends are right in any case. So they are counted.
//!
//! The status is 0 if the line was written. Otherwise it is 1: the file has no plan, or a read, a write or an allocation failed.
#![tactic(auto)]

use anyhow::Context;
use pm_envelope::FILE_LIMIT;
use pm_free::{FreeRun, run_free};
use pm_gates::{MeetingGate, Moment};
use pm_io::{StdSink, StdSource, read_all, write_all};
use pm_plan::Plan;
use pm_scene::read_scene;
use std::alloc::{AllocError, Global};
use std::sync::Wait;
use std::thread::Threads;

/// How often each of two nodes looks whether the other has begun: seconds on an idle machine, and a few looks if both have threads.
const LOOKS: u32 = 20_000_000;

/// How many phases of a run came over their links.
fn phases_over_links(run: &FreeRun) -> usize {
    run.phases
        .iter()
        .filter(|phase| phase.end.is_some())
        .count()
}

/// How many phases of a run had changes: they have links.
fn phases_with_changes(run: &FreeRun) -> usize {
    run.phases
        .iter()
        .filter(|phase| !phase.links.is_empty())
        .count()
}

/// Runs a plan over links, and writes the line. The auctioneer and the last node are on two threads, and wait for each other at the
/// first turn of each.
fn counted<R: Threads + Wait + Sync>(
    rt: &R,
    alloc: Global,
    plan: &Plan,
) -> Result<String, AllocError> {
    let gate = MeetingGate::new((0, plan.tree().len()), Moment::Turn, LOOKS);
    let run = run_free(rt, alloc, plan, &gate)?;
    let links = phases_over_links(&run);
    let board = run.phases.len().saturating_sub(links);
    let changed = phases_with_changes(&run);
    let met = gate.met();
    format!(in alloc; "links {links} board {board} changed {changed} met {met}\n")
}

fn main(rt: HostRuntime) -> anyhow::Result<()> {
    let file = read_all(
        rt.alloc(),
        &mut StdSource::new(rt.stdin()),
        FILE_LIMIT as usize,
    )
    .context("no input")?;
    let plan = read_scene(rt.alloc(), &file)?;
    let line = counted(&rt, rt.alloc(), &plan)?;
    write_all(&mut StdSink::new(rt.stdout()), line.as_bytes())?;
    Ok(())
}
