//! Runs over links without a lock.

use crate::holds::holds;
use crate::runs::{LOOKS, REJOINS, TWO_BIDS, are_right, demo, holding, meeting, plan_of};
use pm_cells::LinkLog;
use pm_free::{FreePhase, FreeRun, run_free, settle_free};
use pm_gates::{DrawingGate, Moment};
use pm_nodes::{Gate, OpenGate};
use pm_plan::{PhaseEnd, Plan, is_device};
use pm_session::Held;
use pm_tree::NodeId;
use std::alloc::Global;
use std::process::Abort;
use std::sync::Wait;
use std::thread::Threads;

/// The two devices' threads meet, each at its first turn, and no turn is told with a line.
#[test]
fn the_meeting_of_turns(rt: HostRuntime) {
    turns_meet(&rt, rt.alloc(), &plan_of(&rt, rt.alloc(), TWO_BIDS));
}

fn turns_meet<R: Threads + Wait + Sync + Abort>(rt: &R, alloc: Global, plan: &Plan) {
    let gate = meeting(rt, alloc, Moment::Turn, LOOKS);
    let ends = settle_free(rt, alloc, plan, &gate).expect(rt, "ends");
    let met = gate.gate().met();
    holds(rt, ("met", met), met == 2);
    holds(rt, "untold", gate.into_lines().is_empty());
    holds(rt, "right", are_right(rt, alloc, plan, &ends));
}

/// The step at which the devices below a node's limited concentrator settle at a phase's end, by the lines of the report.
fn step_at(plan: &Plan, end: &PhaseEnd, node: u32) -> Option<u32> {
    if node > plan.tree().len() {
        return None;
    }
    let Some(group) = plan.group(NodeId(node)) else {
        return Some(end.step());
    };
    for line in end.limited() {
        if line.node == group.0 {
            return Some(line.step);
        }
    }
    None
}

/// The number of a device's bid at a phase's end; none if it is no member.
fn bid_at(end: &PhaseEnd, node: u32) -> Option<u32> {
    for line in end.members() {
        if line.node == node {
            return Some(line.number);
        }
    }
    None
}

/// Whether a node holds over the links what the end of the phase says: a member its step and the number of its bid, and any
/// other node nothing.
fn holds_the_end(plan: &Plan, end: &PhaseEnd, node: u32, held: &Option<Held>) -> bool {
    match (bid_at(end, node), held) {
        (Some(number), Some(held)) => {
            held.number == number && step_at(plan, end, node) == Some(held.step)
        }
        (None, None) => true,
        _ => false,
    }
}

/// Whether all nodes do, and there are as many as the plan has.
fn all_hold_the_end(plan: &Plan, end: &PhaseEnd, phase: &FreePhase) -> bool {
    let mut node: u32 = 0;
    let mut same = true;
    for held in &phase.held {
        same = same && holds_the_end(plan, end, node, held);
        node = node.saturating_add(1);
    }
    same && node == plan.tree().len().saturating_add(1)
}

/// Whether the numbers rise, each above the one before.
fn rise(numbers: &[u32]) -> bool {
    let mut last = 0;
    for number in numbers {
        if *number <= last {
            return false;
        }
        last = *number;
    }
    true
}

/// Whether each of these numbers is among the others.
fn are_among(numbers: &[u32], others: &[u32]) -> bool {
    for number in numbers {
        if !others.contains(number) {
            return false;
        }
    }
    true
}

/// Whether a link lost nothing that counts: the numbers put and taken rise, what was taken was put, and the newest bid and the
/// newest price that were put were taken.
fn is_carried_through(log: &LinkLog) -> bool {
    let rising = rise(&log.bid_puts)
        && rise(&log.bid_takes)
        && rise(&log.price_puts)
        && rise(&log.price_takes);
    rising
        && are_among(&log.bid_takes, &log.bid_puts)
        && are_among(&log.price_takes, &log.price_puts)
        && log.bid_puts.last() == log.bid_takes.last()
        && log.price_puts.last() == log.price_takes.last()
}

/// Whether a node's link did what the phase's end says: of a member, the bid taken last is the one of the report, and a price
/// came; of a device that is no member, no price came after it left.
fn link_did_its_part(plan: &Plan, end: &PhaseEnd, node: u32, log: &LinkLog) -> bool {
    if !is_carried_through(log) {
        return false;
    }
    if node > plan.tree().len() || !is_device(plan, NodeId(node)) {
        return true;
    }
    match bid_at(end, node) {
        Some(number) => log.bid_takes.last() == Some(&number) && !log.price_takes.is_empty(),
        None => true,
    }
}

/// Whether each node of a phase with changes has such a link above it. A phase without changes has no links.
fn links_did_their_part(plan: &Plan, end: &PhaseEnd, phase: &FreePhase) -> bool {
    let mut node: u32 = 0;
    for log in &phase.links {
        node = node.saturating_add(1);
        match log {
            Some(log) if link_did_its_part(plan, end, node, log) => {}
            _ => return false,
        }
    }
    node == 0 || node == plan.tree().len()
}

/// How many phases of a run had links.
fn phases_with_links(run: &FreeRun) -> usize {
    let mut many = 0usize;
    for phase in &run.phases {
        if !phase.links.is_empty() {
            many = many.saturating_add(1);
        }
    }
    many
}

/// How many phases of a run came over their links, so that their ends are those that the nodes hold.
fn phases_over_links(run: &FreeRun) -> usize {
    let mut many = 0usize;
    for phase in &run.phases {
        if phase.end.is_some() {
            many = many.saturating_add(1);
        }
    }
    many
}

/// How many changes a device makes in a phase, which counts from 1; of any other node 0.
#[tactic(auto, using(pm_plan::proofs::MarketLists::leaf_of_plan))]
fn changes_in(plan: &Plan, phase: u32, node: u32) -> u32 {
    let device = NodeId(node);
    if phase == 0 || phase > plan.phases() || !is_device(plan, device) {
        return 0;
    }
    plan.changes_of(phase, device)
}

/// Whether a device changes in a phase, which counts from 1.
fn has_changes(plan: &Plan, phase: u32) -> bool {
    for node in 1..plan.tree().len().saturating_add(1) {
        if changes_in(plan, phase, node) > 0 {
            return true;
        }
    }
    false
}

/// How many phases of a plan have changes.
fn phases_with_changes(plan: &Plan) -> usize {
    let mut many = 0usize;
    for phase in 1..plan.phases().saturating_add(1) {
        if has_changes(plan, phase) {
            many = many.saturating_add(1);
        }
    }
    many
}

/// Whether a phase came over the links, to what the board's end of the phase says.
fn is_carried_phase(plan: &Plan, end: &PhaseEnd, phase: &FreePhase) -> bool {
    all_hold_the_end(plan, end, phase) && links_did_their_part(plan, end, phase)
}

/// Whether each phase did so.
fn are_carried_phases(plan: &Plan, run: &FreeRun) -> bool {
    let ends = run.board.ends();
    for (place, phase) in run.phases.iter().enumerate() {
        match ends.get(place) {
            Some(end) if is_carried_phase(plan, end, phase) => {}
            _ => return false,
        }
    }
    run.phases.len() == ends.len()
}

/// Whether the phases with links are as many as those with changes, and all came over their links.
fn are_counted(plan: &Plan, run: &FreeRun) -> bool {
    phases_with_links(run) == phases_with_changes(plan)
        && phases_over_links(run) == run.board.ends().len()
}

/// Each phase comes over the links, to what the board's end of the phase says, and the ends are right.
fn must_be_carried<R: Threads + Wait + Sync + Abort, G: Gate>(
    rt: &R,
    alloc: Global,
    plan: &Plan,
    gate: &G,
    case: &str,
) {
    let run = run_free(rt, alloc, plan, gate).expect(rt, "a run");
    holds(rt, (case, "carried"), are_carried_phases(plan, &run));
    holds(rt, (case, "counted"), are_counted(plan, &run));
    let right = are_right(rt, alloc, plan, run.board.ends());
    holds(rt, (case, "right"), right);
}

/// The same under a gate that holds the nodes of this rest by 3 back.
fn must_be_carried_held<R: Threads + Wait + Sync + Abort>(
    rt: &R,
    alloc: Global,
    plan: &Plan,
    rest: u32,
    case: &str,
) {
    let gate = holding(rt, alloc, 3, rest);
    must_be_carried(rt, alloc, plan, &gate, case);
}

/// They do so for a plan, under a gate that is open, under one that draws how long it holds a thread back, and under ones
/// that hold every third node back.
fn market_is_carried<R: Threads + Wait + Sync + Abort>(rt: &R, alloc: Global, plan: &Plan) {
    must_be_carried(rt, alloc, plan, &OpenGate, "open");
    must_be_carried(rt, alloc, plan, &DrawingGate::new(1, 30), "drawn");
    must_be_carried_held(rt, alloc, plan, 0, "rest 0");
    must_be_carried_held(rt, alloc, plan, 1, "rest 1");
    must_be_carried_held(rt, alloc, plan, 2, "rest 2");
}

/// Whoever is slow, the messages over the links come to the prices of the plain auction.
#[test]
fn the_links_carry_the_market_of_a_file(rt: HostRuntime) {
    market_is_carried(&rt, rt.alloc(), &plan_of(&rt, rt.alloc(), REJOINS));
}

/// The same for twenty devices.
#[test]
fn the_links_carry_the_market_of_twenty(rt: HostRuntime) {
    market_is_carried(&rt, rt.alloc(), &demo(&rt, rt.alloc(), 20, 7));
}
