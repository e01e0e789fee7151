//! Whether a phase is settled: a test on the numbers that the nodes have and on the logs of the links, and on nothing else.

ghost use Rattle.std.specs.Prelude.{◌≡◌, ℕ, ◌≤◌, ◌-◌, true, length, IfSome, slice_get};
ghost use Rattle.pm_cache.specs.Cache.{child_head};
ghost use Rattle.pm_cells.specs.Numbers.{newest_number};
ghost use Rattle.pm_phase.specs.SettledParts.{cache_of_part, PartCleared, DutySent, DutyMade, taken_in, changes_count, HasLog};
ghost use Rattle.pm_phase.specs.SettledParts.{IsSettledNode, AreSettled};

use crate::matcher::Matcher;
use crate::node::{Duty, NodePart};
use pm_cells::LinkLog;
use pm_device::Next;
use pm_plan::Plan;
use pm_tree::NodeId;

/// The index of the auctioneer's last clearing, if it learnt nothing since.
fn cleared_index(parts: &[NodePart]) -> Option<u32>
    ensures { IfSome result (λ index. PartCleared (slice_get parts.now 0) index) }
{
    let part = parts.get(0)?;
    let Duty::Parent(parent) = &part.duty else {
        return None;
    };
    let Matcher::Auctioneer(auctioneer) = &parent.matcher else {
        return None;
    };
    if auctioneer.changed() {
        return None;
    }
    Some(auctioneer.index())
}

/// The number of the newest bid that a node has of the child in a place.
fn kept_number(parts: &[NodePart], node: u32, place: usize) -> Option<u32>
    ensures { IfSome result (λ number.
        number ≡ (child_head (cache_of_part (slice_get parts.now node)) place).number) }
{
    let part = parts.get(node as usize)?;
    let Duty::Parent(parent) = &part.duty else {
        return None;
    };
    let head = parent.matcher.cache().heads().get(place)?;
    Some(head.number)
}

/// Whether a concentrator has nothing to send, and its parent has its newest number, as the one kept.
fn has_sent(duty: &Duty, kept: u32) -> bool
    ensures { result ≡ true → DutySent duty.now kept }
{
    let Duty::Parent(parent) = duty else {
        return false;
    };
    let Matcher::Concentrator(concentrator) = &parent.matcher else {
        return false;
    };
    !concentrator.changed() && concentrator.last() == kept
}

/// Whether a device made all its changes of the phase, its parent has the number of the last, and the price that it took last
/// has this index, if it is a member.
fn has_made(duty: &Duty, before: u32, count: usize, kept: u32, taken: u32, index: u32) -> bool
    ensures { result ≡ true → DutyMade duty.now before count kept taken index }
{
    let Duty::Device(device) = duty else {
        return false;
    };
    if device.made != count || kept < before || (kept - before) as usize != count {
        return false;
    }
    !device.member || taken == index
}

/// The index of the price that the node took last, by the log of its link; 0 if it took none.
fn taken_last(links: &[Option<LinkLog>], node: u32) -> u32
    requires { 1 ≤ node }
    ensures { result ≡ taken_in links.now node }
{
    match links.get(node as usize - 1) {
        Some(Some(log)) => last_number(log.price_takes.as_slice()),
        _ => 0,
    }
}

/// Whether the link above a node has a log: both its ends came back.
fn has_log(links: &[Option<LinkLog>], node: u32) -> bool
    requires { 1 ≤ node }
    ensures { result ≡ true → HasLog (slice_get links.now (node - 1)) }
{
    match links.get(node as usize - 1) {
        Some(Some(_)) => true,
        _ => false,
    }
}

/// The last of these numbers, and 0 where there is none.
fn last_number(numbers: &[u32]) -> u32
    ensures { result ≡ newest_number numbers.now }
{
    if numbers.is_empty() {
        0
    } else {
        numbers[numbers.len() - 1]
    }
}

/// How many changes a node has in the phase.
fn count_of(changes: &[Vec<Next>], node: u32) -> usize
    ensures { result ≡ changes_count (slice_get changes.now node) }
{
    match changes.get(node as usize) {
        Some(list) => list.len(),
        None => 0,
    }
}

/// Whether the numbers of a node are those of a settled phase.
fn node_is_settled(
    plan: &Plan,
    parts: &[NodePart],
    before: &[u32],
    changes: &[Vec<Next>],
    links: &[Option<LinkLog>],
    index: u32,
    node: u32,
) -> bool
    requires first { 1 ≤ node }
    requires last { node ≤ length plan.now.entries }
    ensures { result ≡ true →
        IsSettledNode plan.now parts.now before.now changes.now links.now index node }
{
    if !has_log(links, node) {
        return false;
    }
    let tree = plan.tree();
    let above = tree.parent(NodeId(node)).0;
    let Some(kept) = kept_number(parts, above, tree.place(NodeId(node))) else {
        return false;
    };
    let Some(part) = parts.get(node as usize) else {
        return false;
    };
    if !tree.is_leaf(NodeId(node)) {
        return has_sent(&part.duty, kept);
    }
    let made_before = *before.get(node as usize).unwrap_or(&0);
    has_made(
        &part.duty,
        made_before,
        count_of(changes, node),
        kept,
        taken_last(links, node),
        index,
    )
}

/// Whether a phase is settled: the nodes after it, how many changes each made before it, the changes of each in it, and the logs of
/// the links.
pub fn has_settled(
    plan: &Plan,
    parts: &[NodePart],
    before: &[u32],
    changes: &[Vec<Next>],
    links: &[Option<LinkLog>],
) -> bool
    ensures { result ≡ true → AreSettled plan.now parts.now before.now changes.now links.now }
{
    let Some(index) = cleared_index(parts) else {
        return false;
    };
    if index == 0 {
        return false;
    }
    for node in 1..plan.tree().len() + 1 {
        if !node_is_settled(plan, parts, before, changes, links, index, node) {
            return false;
        }
    }
    true
}
