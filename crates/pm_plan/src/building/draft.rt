//! Adds nodes, phases, changes and ticks to a draft of a plan.

ghost use Rattle.std.specs.Prelude.{◌≡◌, ◌+◌, ◌==◌, nat_le, ◌<◌, ◌≤◌, ◌^◌, IfOk, OnOk, Ok, Some, true, length, map};
ghost use Rattle.pm_basis.specs.Prices.{IsBasis};
ghost use Rattle.pm_tree.specs.Entries.{checked_tree, parents_of, leaves_of};
ghost use Rattle.pm_tree.specs.Shape.{IsTree};
ghost use Rattle.pm_plan.specs.Plans.{node as planned_node, is_device, kind_of, group, is_limited, all_changes};
ghost use Rattle.pm_base.specs.Limits.{most_changes, most_nodes};
ghost use Rattle.pm_plan.specs.Building.{empty_plan, with_array, with_node, with_phase};
ghost use Rattle.pm_plan.specs.Building.{with_tick, with_change_of, is_member_now, map_device, device_after_tick};

use crate::draft::Draft;
use crate::node::Node;
use crate::planned::Planned;
use pm_base::MOST_CHANGES;
use pm_basis::Basis;
use pm_bid::ArrayBid;
use pm_device::Kind;
use pm_tree::{NodeId, Tree};
use std::alloc::{AllocError, Global};

impl Draft {
    /// The plan before its first node.
    pub(crate) fn new(alloc: Global, basis: Basis, tree: Tree) -> Result<Draft, AllocError>
        ensures draft { IfOk result (λ draft. draft ≡ empty_plan basis tree) }
        ensures few { length tree ≤ most_nodes }
        ensures sound { IsBasis basis }
        ensures accepted { checked_tree tree ≡ Ok tree }
        ensures lawful { IsTree (parents_of tree) (leaves_of tree) }
    {
        // Called for what it tells of each basis.
        basis.steps();
        let nodes = Vec::with_capacity(alloc, tree.len() as usize)?;
        Ok(Draft {
            basis,
            tree,
            nodes,
            arrays: Vec::new(alloc),
            minutes: Vec::new(alloc),
        })
    }

    /// Adds the bid of a manual device, and answers the bid's number.
    pub(crate) fn push_array(&mut self, bid: ArrayBid) -> Result<i64, AllocError>
        requires { length self.old.arrays < 2 ^ 63 }
        ensures { IfOk result (λ number. (number, self.new) ≡ with_array self.old bid) }
    {
        let number = self.arrays.len() as i64;
        self.arrays.push(bid)?;
        Ok(number)
    }

    /// Adds the next node.
    pub(crate) fn push_node(&mut self, node: Node) -> Result<(), AllocError>
        ensures { OnOk result (self.new ≡ with_node self.old node) }
    {
        self.nodes.push(node)?;
        Ok(())
    }

    /// Adds a phase whose changes are planned already: a tick of so many minutes, or one of events.
    pub(crate) fn push_phase(&mut self, minutes: Option<i64>) -> Result<(), AllocError>
        ensures { OnOk result (self.new ≡ with_phase self.old minutes) }
    {
        self.minutes.push(minutes)?;
        Ok(())
    }

    /// Plans one more change of a node, if it is a device.
    pub(crate) fn plan(&mut self, device: u32, phase: u32, what: Planned) -> Result<(), AllocError>
        requires first { 1 ≤ device }
        requires last { device ≤ length self.old.nodes }
        ensures planned { OnOk result (self.new ≡ with_change_of self.old device phase what) }
        ensures entries { self.new.entries ≡ self.old.entries }
        ensures nodes { length self.new.nodes ≡ length self.old.nodes }
        ensures arrays { self.new.arrays ≡ self.old.arrays }
    {
        self.nodes[device as usize - 1].plan(phase, what)
    }

    /// The kind of a device.
    pub(crate) fn kind(&self, device: u32) -> Kind
        requires first { 1 ≤ device }
        requires last { device ≤ length self.now.nodes }
        requires device { is_device (planned_node self.now device) ≡ true }
        ensures { kind_of (planned_node self.now device) ≡ Some result }
    {
        self.node(NodeId(device)).device().kind()
    }

    /// Whether a device is a member after all its changes so far.
    pub(crate) fn is_member(&self, device: u32) -> bool
        requires first { 1 ≤ device }
        requires last { device ≤ length self.now.nodes }
        ensures { result ≡ is_member_now self.now device }
    {
        self.node(NodeId(device)).is_member()
    }

    /// Whether no limited concentrator is above a node, by the nodes so far.
    pub(crate) fn is_under_no_limit(&self, node: NodeId) -> bool
        requires lawful { IsTree (parents_of self.now.entries) (leaves_of self.now.entries) }
        requires inside { node.0 ≤ length self.now.entries }
        requires next { node.0 ≤ length self.now.nodes + 1 }
        ensures { result ≡ (group self.now node.0 == 0) }
    {
        let mut above = node;
        while above.0 != 0 {
            above = self.parent(above);
            if self.is_limited(above) {
                return false;
            }
        }
        true
    }

    /// Whether a node so far is a limited concentrator.
    fn is_limited(&self, node: NodeId) -> bool
        requires { node.0 ≤ length self.now.nodes }
        ensures { result ≡ is_limited self.now node.0 }
    {
        node.0 != 0 && self.node(node).limits().is_some()
    }

    /// Plans a tick of so many minutes, for each member whose state changes by itself, and adds the phase.
    pub(crate) fn tick(&mut self, phase: u32, minutes: i64) -> Result<(), AllocError>
        ensures { OnOk result (self.new ≡ with_tick phase minutes self.old) }
    {
        tick_each(&mut self.nodes, phase, minutes)?;
        self.push_phase(Some(minutes))
    }

    /// Whether all changes so far are few enough for a run.
    pub(crate) fn has_few_changes(&self) -> bool
        ensures { result ≡ nat_le (all_changes self.now.nodes) most_changes }
    {
        are_few(&self.nodes)
    }
}

/// Plans a tick for each of the nodes that is a member whose state changes by itself.
fn tick_each(nodes: &mut [Node], phase: u32, minutes: i64) -> Result<(), AllocError>
    ensures { OnOk result (nodes.new ≡ map (map_device (device_after_tick phase minutes))
        nodes.old) }
{
    for node in nodes.iter_mut() {
        node.tick(phase, minutes)?;
    }
    Ok(())
}

/// Whether the changes of all these nodes are few enough for a run.
fn are_few(nodes: &[Node]) -> bool
    ensures { result ≡ nat_le (all_changes nodes.now) most_changes }
{
    let mut left = MOST_CHANGES;
    for node in nodes {
        let count = node.changes().len();
        if left < count {
            return false;
        }
        left -= count;
    }
    true
}
