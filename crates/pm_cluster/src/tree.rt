//! Where a node is in the tree, as indices.

ghost use Rattle.std.specs.Prelude.{◌≡◌, ◌≤◌, ◌<◌, ◌↔◌, length, IsTrue};
ghost use Rattle.pm_tree.specs.Entries.{children_of, place_of};
ghost use Rattle.pm_market.specs.Lists.{nodes, parent, IsNode, IsConcentrator};
ghost use Rattle.pm_plan.specs.Market.{plan_lists};

use pm_plan::{Plan, is_device};
use pm_tree::NodeId;

/// The parent of a node.
#[tactic(auto, using(crate::proofs::Parents::parent_is, crate::proofs::Parents::nodes_are))]
pub(crate) fn parent_of(plan: &Plan, node: NodeId) -> usize
    requires node { IsNode (plan_lists plan.now) node.0 }
    ensures parent { result ≡ parent (plan_lists plan.now) node.0 }
    ensures inside { result ≤ nodes (plan_lists plan.now) }
{
    plan.tree().parent(node).0 as usize
}

/// The place of a node among the children of its parent.
#[tactic(auto, using(crate::proofs::Parents::nodes_are))]
pub(crate) fn place_in_row(plan: &Plan, node: NodeId) -> usize
    requires node { IsNode (plan_lists plan.now) node.0 }
    ensures place { result ≡ place_of plan.now.entries node.0 }
    ensures inside { result < length
        (children_of plan.now.entries (parent (plan_lists plan.now) node.0)) }
{
    plan.tree().place(node)
}

/// Whether this number is that of a node with a parent.
#[tactic(auto, using(crate::proofs::Parents::nodes_are))]
pub(crate) fn is_node(plan: &Plan, node: NodeId) -> bool
    ensures { IsTrue result ↔ IsNode (plan_lists plan.now) node.0 }
{
    node.0 != 0 && node.0 <= plan.tree().len()
}

/// Whether this number is that of a concentrator.
pub(crate) fn is_concentrator(plan: &Plan, node: NodeId) -> bool
    ensures { IsTrue result ↔ IsConcentrator (plan_lists plan.now) node.0 }
{
    is_node(plan, node) && !is_device(plan, node)
}
