//! Derives the children, the places and the leaves below each node from the node table.

ghost use Rattle.std.specs.Prelude.{◌≡◌, ℕ, ◌+◌, ◌<◌, ◌≤◌, [], ◌∷◌, ◌++◌, length, slice_index_or, slice_set, IfOk, OnOk};
ghost use Rattle.pm_base.specs.Limits.{most_nodes};
ghost use Rattle.pm_tree.specs.Shape.{children_at, leaves_below_at, place_at, IsTree};
ghost use Rattle.pm_tree.specs.Tables.{shape_parents, shape_leaves, added_on_path, AreLists, AreNumbers, IsNodeTable, node_lists};

use crate::node::{NodeId, TreeNode};
use std::alloc::{AllocError, Global};

/// The children of each node in list order, and the place of each node among its parent's children.
#[derive(Drop)]
pub(crate) struct Children {
    pub(crate) lists: Vec<Vec<NodeId>>,
    pub(crate) places: Vec<usize>,
}

/// Collects the children and the places of the nodes of a table.
pub(crate) fn collect_children(alloc: Global, nodes: &[TreeNode]) -> Result<Children, AllocError>
    requires table { IsNodeTable (shape_parents nodes.now) (shape_leaves nodes.now) nodes.now }
    requires lawful { IsTree (shape_parents nodes.now) (shape_leaves nodes.now) }
    requires few { length nodes.now ≤ most_nodes + 1 }
    ensures lists { IfOk result (λ children.
        AreLists (length nodes.now) (children_at (shape_parents nodes.now))
        (node_lists children.lists.items)) }
    ensures places { IfOk result (λ children.
        AreNumbers (length nodes.now) (place_at (shape_parents nodes.now)) children.places.items) }
{
    let mut lists = empty_lists(alloc, nodes.len())?;
    let mut places = Vec::with_capacity(alloc, nodes.len())?;
    places.push(0)?;
    for number in 1..nodes.len() {
        let parent = nodes[number].parent;
        places.push(lists[parent.0 as usize].len())?;
        push_to(&mut lists, parent, NodeId(number as u32))?;
    }
    Ok(Children { lists, places })
}

/// Collects for each node the leaves below it; of a leaf itself.
pub(crate) fn collect_leaves(
    alloc: Global,
    nodes: &[TreeNode],
) -> Result<Vec<Vec<NodeId>>, AllocError>
    requires table { IsNodeTable (shape_parents nodes.now) (shape_leaves nodes.now) nodes.now }
    requires lawful { IsTree (shape_parents nodes.now) (shape_leaves nodes.now) }
    requires few { length nodes.now ≤ most_nodes + 1 }
    ensures { let leaves_below = leaves_below_at (shape_parents nodes.now) (shape_leaves nodes.now)
        in
        IfOk result (λ lists. AreLists (length nodes.now) leaves_below (node_lists lists.items)) }
{
    let mut lists = empty_lists(alloc, nodes.len())?;
    for number in 1..nodes.len() {
        if nodes[number].leaf {
            push_on_path(&mut lists, nodes, NodeId(number as u32))?;
        }
    }
    Ok(lists)
}

/// Adds a leaf at the end of the list of each node on its path to the auctioneer.
fn push_on_path(
    lists: &mut [Vec<NodeId>],
    nodes: &[TreeNode],
    leaf: NodeId,
) -> Result<(), AllocError>
    requires table { IsNodeTable (shape_parents nodes.now) (shape_leaves nodes.now) nodes.now }
    requires lawful { IsTree (shape_parents nodes.now) (shape_leaves nodes.now) }
    requires inside { leaf.0 < length nodes.now }
    requires one_each { length lists.old ≡ length nodes.now }
    ensures { OnOk result ((node : ℕ) →
        slice_index_or (node_lists lists.new) node []
        ≡ slice_index_or (node_lists lists.old) node []
        ++ added_on_path (shape_parents nodes.now) leaf.0 leaf.0 node) }
{
    let mut at = leaf;
    while at.0 != 0 {
        push_to(lists, at, leaf)?;
        at = nodes[at.0 as usize].parent;
    }
    push_to(lists, at, leaf)
}

/// Adds a node at the end of one of the lists.
fn push_to(lists: &mut [Vec<NodeId>], at: NodeId, node: NodeId) -> Result<(), AllocError>
    requires { at.0 < length lists.old }
    ensures { let longer = slice_index_or (node_lists lists.old) at.0 [] ++ node.0 ∷ [] in
        OnOk result (node_lists lists.new ≡ slice_set (node_lists lists.old) at.0 longer) }
{
    lists[at.0 as usize].push(node)?;
    Ok(())
}

/// So many empty lists.
fn empty_lists(alloc: Global, count: usize) -> Result<Vec<Vec<NodeId>>, AllocError>
    ensures { IfOk result (λ lists. AreLists count (λ _. []) (node_lists lists.items)) }
{
    let mut lists = Vec::with_capacity(alloc, count)?;
    for _ in 0..count {
        lists.push(Vec::new(alloc))?;
    }
    Ok(lists)
}
