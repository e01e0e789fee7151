//! The turns of nodes: each moves the messages that its node can move.

ghost use Rattle.std.specs.Prelude.{◌≡◌, ℕ, List, All, IfSome, slice_get};
ghost use Rattle.pm_device.specs.declared.state.Next.{Next};
ghost use Rattle.pm_cells.specs.Ends.{LinkEnd};
ghost use Rattle.pm_phase.specs.Telling.{AreNext, KeepsDevice, StepsOn, AllStepOn};
ghost use Rattle.pm_phase.specs.KeepingParents.{IsUpHere, OverEnd, PartMovesOn, ChildMovesOn, ChildrenMoveOn, UpMovesOn};
ghost use Rattle.pm_phase.specs.Ends.{AreOf, IsUpOf, IsDownOf};
ghost use Rattle.pm_phase.specs.Nodes.{numbers_of_nodes};

use crate::device::DevicePart;
use crate::ends::{DownEnd, UpEnd, put_waiting_bid, put_waiting_price};
use crate::hearing::{hear_bid, hear_price, hear_price_to_pass};
use crate::node::{Duty, FreeNode};
use crate::parent::ParentPart;
use pm_cells::FreeLink;
use pm_device::Next;
use pm_nodes::{Gate, pause};
use pm_plan::Plan;
use std::alloc::Global;
use std::sync::atomic::{AtomicU64, Ordering};

/// What the turns of a phase share.
#[derive(Drop)]
pub(crate) struct Phase<'a, G> {
    pub(crate) alloc: Global,
    pub(crate) plan: &'a Plan,
    /// By the numbers of the nodes: the changes that a device makes in the phase, in their order.
    pub(crate) changes: &'a [Vec<Next>],
    /// Is told of each turn.
    pub(crate) gate: &'a G,
    /// Rises with each turn that moved a message.
    pub(crate) moved: &'a AtomicU64,
}

/// A thread ends after so many rounds of its nodes in a row during which no thread moved a message. Between two such rounds it
/// pauses and does not yield. The caller's thread ends what it leaves.
const PATIENCE: u32 = 30;

/// Makes rounds of some nodes, as many as it may, or until nothing moves any more.
#[tactic(auto, using(crate::proofs::StepsOn::all_trans, crate::proofs::StepsOn::all_refl))]
pub(crate) fn make_rounds<G: Gate>(
    phase: &Phase<'_, G>,
    links: &[FreeLink],
    nodes: &mut [FreeNode],
    rounds: u64,
)
    requires { All (AreOf links.now) nodes.old }
    ensures links { All (AreOf links.now) nodes.new }
    ensures numbers { numbers_of_nodes nodes.new ≡ numbers_of_nodes nodes.old }
    ensures steps { AllStepOn phase.now.plan.now phase.now.changes.now nodes.old nodes.new }
{
    let mut seen = 0;
    let mut idle: u32 = 0;
    for _ in 0..rounds {
        if take_round(phase, links, nodes) {
            idle = 0;
            continue;
        }
        let now = phase.moved.load(Ordering::SeqCst);
        idle = if now == seen {
            idle.saturating_add(1)
        } else {
            0
        };
        seen = now;
        if idle >= PATIENCE {
            break;
        }
        pause();
    }
}

/// A turn of each node; whether one moved a message.
#[tactic(auto, using(crate::proofs::StepsOn::all_refl))]
pub(crate) fn take_round<G: Gate>(
    phase: &Phase<'_, G>,
    links: &[FreeLink],
    nodes: &mut [FreeNode],
) -> bool
    requires { All (AreOf links.now) nodes.old }
    ensures links { All (AreOf links.now) nodes.new }
    ensures numbers { numbers_of_nodes nodes.new ≡ numbers_of_nodes nodes.old }
    ensures steps { AllStepOn phase.now.plan.now phase.now.changes.now nodes.old nodes.new }
{
    let mut has_moved = false;
    let mut at = 0;
    while at < nodes.len() {
        let here = take_turn(phase, links, &mut nodes[at]);
        has_moved = has_moved || here;
        at += 1;
    }
    has_moved
}

/// A turn of a node, of which the gate is told; whether it moved a message.
fn take_turn<G: Gate>(phase: &Phase<'_, G>, links: &[FreeLink], node: &mut FreeNode) -> bool
    requires { AreOf links.now node.old }
    ensures links { AreOf links.now node.new }
    ensures number { node.new.part.number ≡ node.old.part.number }
    ensures steps { StepsOn phase.now.plan.now phase.now.changes.now node.old node.new }
{
    let number = node.part.number;
    phase.gate.before(number);
    let has_moved = turn(phase, links, node);
    if has_moved {
        phase.moved.fetch_add(1, Ordering::SeqCst);
    }
    phase.gate.after(number, None);
    has_moved
}

/// Moves the messages that a node can move; whether there were any.
fn turn<G: Gate>(phase: &Phase<'_, G>, links: &[FreeLink], node: &mut FreeNode) -> bool
    requires { AreOf links.now node.old }
    ensures links { AreOf links.now node.new }
    ensures number { node.new.part.number ≡ node.old.part.number }
    ensures steps { StepsOn phase.now.plan.now phase.now.changes.now node.old node.new }
{
    let FreeNode { part, up, downs } = node;
    match &mut part.duty {
        Duty::Device(device) => device_turn(phase, links, part.number, up, device),
        Duty::Parent(parent) => {
            let with_children = children_turn(links, downs, parent);
            let sent = send(phase.alloc, parent);
            let with_parent = parent_turn(phase.plan, links, up, parent);
            with_children || sent || with_parent
        }
    }
}

/// A device makes its next change, puts the bid that waits, and holds the price that came; whether it did any of these. If
/// memory runs out, it makes no change.
fn device_turn<G: Gate>(
    phase: &Phase<'_, G>,
    links: &[FreeLink],
    number: u32,
    up: &mut Option<UpEnd>,
    device: &mut DevicePart,
) -> bool
    requires { IfSome up.old (IsUpOf links.now) }
    ensures link { IfSome up.new (IsUpOf links.now) }
    ensures here { (node : ℕ) → IsUpHere node up.old → IsUpHere node up.new }
    // Whatever the device keeps of a plan before the turn it keeps after it.
    ensures keeps { (before : ℕ) → (changes : List Next) →
        IfSome (slice_get phase.now.changes.now number) (λ list. list.items ≡ changes) →
        AreNext phase.now.plan.now number before changes →
        OverEnd (KeepsDevice phase.now.plan.now number before device.old) up.old →
        OverEnd (KeepsDevice phase.now.plan.now number before device.new) up.new }
{
    let Some(up) = up else {
        return false;
    };
    let made = make_next(phase, number, device);
    let put = put_waiting_bid(links, up, &mut device.waiting);
    let heard = hear_price(links, phase.plan, up, device);
    made || put || heard
}

/// A device makes its next change; whether it made one. If memory runs out, it makes none.
fn make_next<G: Gate>(phase: &Phase<'_, G>, number: u32, device: &mut DevicePart) -> bool
    ensures keeps { (before : ℕ) → (changes : List Next) → (end : LinkEnd) →
        IfSome (slice_get phase.now.changes.now number) (λ list. list.items ≡ changes) →
        AreNext phase.now.plan.now number before changes →
        KeepsDevice phase.now.plan.now number before device.old end →
        KeepsDevice phase.now.plan.now number before device.new end }
{
    let Some(changes) = phase.changes.get(number as usize) else {
        return false;
    };
    device
        .make_change(phase.alloc, phase.plan, changes)
        .unwrap_or(false)
}

/// A node with children makes its bid, clears the market, or passes a price on; whether it did any of these. If memory
/// runs out, it makes no bid.
#[tactic(auto, using(crate::proofs::PartsMove::send_moves))]
fn send(alloc: Global, parent: &mut ParentPart) -> bool
    ensures moves { PartMovesOn parent.old parent.new }
{
    let cleared = parent.clear();
    let made = make_next_bid(alloc, parent);
    let passed = parent.pass_on();
    cleared || made || passed
}

/// A concentrator makes its next bid; whether it made one. If memory runs out, it makes none.
fn make_next_bid(alloc: Global, parent: &mut ParentPart) -> bool
    ensures moves { PartMovesOn parent.old parent.new }
{
    parent.make_bid(alloc).unwrap_or(false)
}

/// A concentrator puts the bid that waits for its parent, and takes a price from it; whether it did either.
fn parent_turn(
    plan: &Plan,
    links: &[FreeLink],
    up: &mut Option<UpEnd>,
    parent: &mut ParentPart,
) -> bool
    requires { IfSome up.old (IsUpOf links.now) }
    ensures link { IfSome up.new (IsUpOf links.now) }
    ensures moves { UpMovesOn up.old up.new parent.old parent.new }
{
    let Some(up) = up else {
        return false;
    };
    let put = put_waiting_bid(links, up, &mut parent.waiting);
    let heard = hear_price_to_pass(links, plan, up, parent);
    put || heard
}

/// A node with children learns their bids, and puts the prices that wait for them; whether it did either.
fn children_turn(links: &[FreeLink], downs: &mut Vec<DownEnd>, parent: &mut ParentPart) -> bool
    requires { All (IsDownOf links.now) downs.old.items }
    ensures links { All (IsDownOf links.now) downs.new.items }
    ensures moves { ChildrenMoveOn downs.old.items downs.new.items parent.old parent.new }
{
    let mut moved = false;
    let mut place = 0;
    while place < downs.len() {
        let with_child = child_turn(links, place, &mut downs[place], parent);
        moved = moved || with_child;
        place += 1;
    }
    moved
}

/// A node with children learns the bid of a child, and puts the price that waits for it; whether it did either.
fn child_turn(links: &[FreeLink], place: usize, down: &mut DownEnd, parent: &mut ParentPart) -> bool
    requires { IsDownOf links.now down.old }
    ensures link { IsDownOf links.now down.new }
    ensures moves { ChildMovesOn place down.old down.new parent.old parent.new }
{
    let heard = hear_bid(links, place, down, parent);
    let put = put_price_to_child(links, place, down, parent);
    heard || put
}

/// A node with children puts the price that waits for a child; whether it put one.
fn put_price_to_child(
    links: &[FreeLink],
    place: usize,
    down: &mut DownEnd,
    parent: &mut ParentPart,
) -> bool
    requires { IsDownOf links.now down.old }
    ensures link { IsDownOf links.now down.new }
    ensures moves { ChildMovesOn place down.old down.new parent.old parent.new }
{
    match parent.prices.get_mut(place) {
        Some(price) => put_waiting_price(links, down, price),
        None => false,
    }
}
