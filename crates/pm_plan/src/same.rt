//! Decides whether two plans are the same, for a board that comes out of a lock.

ghost use Rattle.std.specs.Prelude.{◌≡◌, ◌<◌, ◌↔◌, IsTrue, length};
ghost use Rattle.pm_bid.specs.Bids.{demand_at};

use crate::node::{Device, Node};
use crate::plan::Plan;
use crate::planned::Change;
use pm_basis::Basis;
use pm_bid::{ArrayBid, uncounted};

impl Plan {
    /// True exactly if both plans have the same basis, tree, nodes, arrays and phases, each in the same order.
    pub fn same(&self, other: &Plan) -> bool
        ensures { IsTrue result ↔ (self.now ≡ other.now) }
    {
        same_basis(&self.draft.basis, &other.draft.basis)
            && self.draft.tree.same(&other.draft.tree)
            && same_nodes(&self.draft.nodes, &other.draft.nodes)
            && same_arrays(&self.draft.arrays, &other.draft.arrays)
            && same_minutes(&self.draft.minutes, &other.draft.minutes)
    }
}

/// Whether two bases have the same prices.
fn same_basis(basis: &Basis, other: &Basis) -> bool
    ensures { IsTrue result ↔ (basis.now ≡ other.now) }
{
    basis.min() == other.min() && basis.max() == other.max() && basis.steps() == other.steps()
}

/// Whether the same is planned for two lists of nodes.
fn same_nodes(nodes: &[Node], others: &[Node]) -> bool
    ensures { IsTrue result ↔ (nodes.now ≡ others.now) }
{
    if nodes.len() != others.len() {
        return false;
    }
    for place in 0..nodes.len() {
        if !same_node(&nodes[place], &others[place]) {
            return false;
        }
    }
    true
}

/// Whether the same is planned for two nodes.
fn same_node(node: &Node, other: &Node) -> bool
    ensures { IsTrue result ↔ (node.now ≡ other.now) }
{
    match (node, other) {
        (Node::Concentrator, Node::Concentrator) => true,
        (Node::Limited(limits), Node::Limited(others)) => limits == others,
        (Node::Device(device), Node::Device(other)) => same_device(device, other),
        _ => false,
    }
}

/// Whether the same is planned for two devices.
fn same_device(device: &Device, other: &Device) -> bool
    ensures { IsTrue result ↔ (device.now ≡ other.now) }
{
    device.kind() == other.kind()
        && device.start().0 == other.start().0
        && same_changes(device.changes(), other.changes())
}

/// Whether two lists have the same changes.
fn same_changes(changes: &[Change], others: &[Change]) -> bool
    ensures { IsTrue result ↔ (changes.now ≡ others.now) }
{
    changes == others
}

/// Whether two lists have the same bids.
fn same_arrays(arrays: &[ArrayBid], others: &[ArrayBid]) -> bool
    ensures { IsTrue result ↔ (arrays.now ≡ others.now) }
{
    if arrays.len() != others.len() {
        return false;
    }
    for place in 0..arrays.len() {
        if !same_array(&arrays[place], &others[place]) {
            return false;
        }
    }
    true
}

/// Whether two bids have the same demand at every step.
fn same_array(array: &ArrayBid, other: &ArrayBid) -> bool
    ensures { IsTrue result ↔ (array.now ≡ other.now) }
{
    if array.steps() != other.steps() {
        return false;
    }
    for step in 0..array.steps() {
        if !same_demand(array, other, step) {
            return false;
        }
    }
    true
}

/// Whether two bids have the same demand at a step.
fn same_demand(array: &ArrayBid, other: &ArrayBid, step: usize) -> bool
    requires inside { step < length array.now }
    requires within { step < length other.now }
    ensures { IsTrue result ↔ (demand_at array.now step ≡ demand_at other.now step) }
{
    let mut counter = uncounted();
    array.at(step, &mut counter) == other.at(step, &mut counter)
}

/// Whether two lists of phases have the same minutes.
fn same_minutes(minutes: &[Option<i64>], others: &[Option<i64>]) -> bool
    ensures { IsTrue result ↔ (minutes.now ≡ others.now) }
{
    minutes == others
}
