//! Serves in rotation the nodes whose threads could not be started.

use crate::worker::{Shared, Turn, end_turn, give_up, let_go, turn_at_desk};
use pm_market::Line;
use pm_nodes::Gate;
use std::sync::Wait;

/// Makes the turns of the nodes whose threads could not be started, in rotation, until the run is over. If a phase can be
/// closed, it is closed between two rotations. The gate is told of this as a turn of node 0.
pub(crate) fn serve_in_rotation<R: Wait, G: Gate>(rt: &R, shared: Shared, gate: &G, nodes: &[u32]) {
    let Some(first) = nodes.first() else {
        return;
    };
    for _ in rt.forever() {
        if serve_each(rt, shared, gate, nodes) {
            return;
        }
        if await_any(rt, shared, nodes) {
            close(rt, shared, gate, *first);
        }
    }
}

/// Makes a turn of each of the nodes; whether the run is over.
fn serve_each<R: Wait, G: Gate>(rt: &R, shared: Shared, gate: &G, nodes: &[u32]) -> bool {
    for node in nodes {
        if serve_once(rt, shared, gate, *node) {
            return true;
        }
    }
    false
}

/// Makes a turn of a node; whether it takes no more.
fn serve_once<R: Wait, G: Gate>(rt: &R, shared: Shared, gate: &G, node: u32) -> bool {
    gate.before(node);
    let turn = turn_at_once(rt, shared, node);
    gate.after(node, turn.line);
    turn.over
}

/// Closes the open phase if still nothing is pending. It rings by the worker of a node that this thread serves.
fn close<R: Wait, G: Gate>(rt: &R, shared: Shared, gate: &G, served: u32) {
    gate.before(0);
    let line = close_by(rt, shared, served);
    gate.after(0, line);
}

/// Closes the open phase if still nothing is pending, and gives the line of that.
fn close_by<R: Wait>(rt: &R, shared: Shared, served: u32) -> Option<Line> {
    let Some(own) = shared.workers.get(served as usize) else {
        give_up(rt, shared);
        return None;
    };
    let mut own = own.lock(rt);
    let mut desk = shared.lock(rt);
    let line = desk.close_if_quiet();
    let_go(shared, &mut own.rings, desk);
    line
}

/// A turn of a node, without waiting for work. It closes no phase.
fn turn_at_once<'p, R: Wait>(rt: &R, shared: Shared<'_, 'p>, node: u32) -> Turn<'p> {
    let Some(own) = shared.workers.get(node as usize) else {
        give_up(rt, shared);
        return Turn::last();
    };
    let mut own = own.lock(rt);
    let worker = &mut *own;
    let mut desk = shared.lock(rt);
    desk.pending.rise(node);
    if desk.pending.is_quiet() {
        return end_turn(shared, &mut worker.rings, node, desk, None);
    }
    turn_at_desk(rt, shared, worker, node, desk)
}

/// Sleeps until one of the nodes has something to do, or the phase can be closed; whether it can be.
fn await_any<R: Wait>(rt: &R, shared: Shared, nodes: &[u32]) -> bool {
    let mut desk = shared.lock(rt);
    for _ in rt.forever() {
        if desk.is_over() || desk.has_any_task(nodes) {
            break;
        }
        let place = desk.lay_all(nodes);
        let Some(bell) = shared.bells.get(place as usize) else {
            desk.halt();
            break;
        };
        desk = bell.wait(rt, desk);
    }
    desk.rise_all(nodes);
    desk.may_close()
}
