//! Counts the changes of the nodes, by the numbers of the changes.

ghost use Rattle.std.specs.Prelude.{◌≡◌, ◌+◌, ◌≤◌, true, length, slice_get, IfOk, IfSome};
ghost use Rattle.pm_base.specs.Cuts.{cut_of};
ghost use Rattle.pm_plan.specs.Plans.{phases, phase_changes};
ghost use Rattle.pm_phase.specs.Telling.{listed_changes};
ghost use Rattle.pm_free.specs.Counting.{AreCounted, Follow, HaveNone};

use pm_device::Next;
use pm_plan::Plan;
use pm_tree::NodeId;
use std::alloc::{AllocError, Global};

/// The changes of a node; none past the last list.
fn changes_of(changes: &[Vec<Next>], node: u32) -> &[Next]
    ensures { result.now ≡ listed_changes (slice_get changes.now node) }
{
    match changes.get(node as usize) {
        Some(list) => list.as_slice(),
        None => &[],
    }
}

/// How many changes a node made, by these counts; none past the last one.
fn made_by(made: &[u32], node: u32) -> u32
    ensures { result ≡ cut_of made.now node }
{
    *made.get(node as usize).unwrap_or(&0)
}

/// Whether no node has a change.
pub(crate) fn have_none(changes: &[Vec<Next>]) -> bool
    ensures { result ≡ true → HaveNone changes.now }
{
    for node in 0..changes.len() {
        if !changes[node].is_empty() {
            return false;
        }
    }
    true
}

/// Whether the changes have the numbers that follow this one.
fn follow(made: u32, list: &[Next]) -> bool
    ensures { result ≡ true → Follow made list.now }
{
    for place in 0..list.len() {
        if list[place].number as usize != made as usize + place + 1 {
            return false;
        }
    }
    true
}

/// How many changes a node has in a phase, which counts from 1. A node that is no device has none.
fn due_of(plan: &Plan, phase: u32, node: u32) -> u32
    requires first { 1 ≤ phase }
    requires last { phase ≤ phases plan.now }
    requires inside { node ≤ length plan.now.entries }
    ensures { result ≡ phase_changes plan.now phase node }
{
    if !plan.tree().is_leaf(NodeId(node)) {
        return 0;
    }
    plan.changes_of(phase, NodeId(node))
}

/// How many changes a node has made with those of a phase. None if these are not all its changes of the phase, in their order.
fn count_after(plan: &Plan, phase: u32, node: u32, made: u32, list: &[Next]) -> Option<u32>
    requires first { 1 ≤ phase }
    requires last { phase ≤ phases plan.now }
    requires inside { node ≤ length plan.now.entries }
    ensures count { IfSome result (λ count. count ≡ made + length list.now) }
    ensures all { IfSome result (λ count. length list.now ≡ phase_changes plan.now phase node) }
    ensures follow { IfSome result (λ count. Follow made list.now) }
{
    let due = due_of(plan, phase, node);
    if list.len() != due as usize || !follow(made, list) {
        return None;
    }
    made.checked_add(due)
}

/// How many changes each node has made with those of a phase, which counts from 1. None if these are not all changes of the
/// phase, each node's in their order.
pub(crate) fn counts_after(
    alloc: Global,
    plan: &Plan,
    phase: u32,
    made: &[u32],
    changes: &[Vec<Next>],
) -> Result<Option<Vec<u32>>, AllocError>
    requires first { 1 ≤ phase }
    requires last { phase ≤ phases plan.now }
    ensures { IfOk result (λ counted. IfSome counted
        (λ counts. AreCounted plan.now phase made.now changes.now counts.items)) }
{
    let nodes = plan.tree().len();
    let places = nodes as usize + 1;
    if made.len() > places || changes.len() > places {
        return Ok(None);
    }
    let mut counts = Vec::with_capacity(alloc, places)?;
    for node in 0..nodes + 1 {
        let before = made_by(made, node);
        let Some(count) = count_after(plan, phase, node, before, changes_of(changes, node)) else {
            return Ok(None);
        };
        counts.push(count)?;
    }
    Ok(Some(counts))
}
