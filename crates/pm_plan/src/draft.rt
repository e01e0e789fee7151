//! A plan so far, with what contracts see of it.

ghost use Rattle.std.specs.Prelude.{◌≡◌, ◌<◌, ◌≤◌, length};
ghost use Rattle.pm_plan.specs.Plans.{node as planned_node, parent, phases};

use crate::node::Node;
use pm_basis::Basis;
use pm_bid::ArrayBid;
use pm_tree::{NodeId, Tree};
use std::marker::Model;

/// A plan as far as its parts have been taken.
pub(crate) struct Draft {
    pub(crate) basis: Basis,
    pub(crate) tree: Tree,
    pub(crate) nodes: Vec<Node>,
    pub(crate) arrays: Vec<ArrayBid>,
    pub(crate) minutes: Vec<Option<i64>>,
}

impl Model for Draft {
    ghost use Rattle.pm_plan.specs.Plans.{PlanData};

    ghost Value = { PlanData };

    ghost view = { λ d. record {
      basis = d.basis;
      entries = d.tree;
      nodes = d.nodes.items;
      arrays = d.arrays.items;
      minutes = d.minutes.items;
    } };
}

/// Its owner lets go of it in one step; a derived drop would be one for each part.
impl Drop for Draft {
    fn drop(self) {
        let Draft {
            basis: _,
            tree: _,
            nodes: _,
            arrays: _,
            minutes: _,
        } = self;
    }
}

impl Draft {
    /// What is planned for a node of the file.
    pub(crate) fn node(&self, node: NodeId) -> &Node
        requires first { 1 ≤ node.0 }
        requires last { node.0 ≤ length self.now.nodes }
        ensures { result.now ≡ planned_node self.now node.0 }
    {
        &self.nodes[node.0 as usize - 1]
    }

    /// How many nodes the draft has so far.
    pub(crate) fn node_count(&self) -> usize
        ensures { result ≡ length self.now.nodes }
    {
        self.nodes.len()
    }

    /// How many phases the draft has so far.
    pub(crate) fn phase_count(&self) -> usize
        ensures { result ≡ phases self.now }
    {
        self.minutes.len()
    }

    /// The parent of a node of the file.
    pub(crate) fn parent(&self, node: NodeId) -> NodeId
        requires first { 1 ≤ node.0 }
        requires last { node.0 ≤ length self.now.entries }
        ensures parent { result.0 ≡ parent self.now node.0 }
        ensures earlier { result.0 < node.0 }
    {
        self.tree.parent(node)
    }
}
