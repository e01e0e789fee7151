//! The tree of a cluster: parents, children, leaves and depths, as every higher crate reads them.

ghost use Rattle.std.specs.Prelude.{◌≡◌, ◌<◌, ◌≤◌, ◌⊎◌, ◌==◌, ◌↔◌, IsTrue, length, false, Ok, Err, option_map};
ghost use Rattle.pm_base.specs.Limits.{most_nodes, most_depth};
ghost use Rattle.pm_tree.specs.Entries.{entries_of, checked_tree, node_named, name_of, parent_of, is_leaf_at, depth_of, children_of, leaves_below_of, place_of};
ghost use Rattle.pm_tree.specs.Entries.{parents_of, leaves_of};
ghost use Rattle.pm_tree.specs.Shape.{IsTree};
ghost use Rattle.pm_tree.specs.Tables.{id_numbers};

use crate::entry::TreeEntry;
use crate::fault::TreeFault;
use crate::index::{find_node, index_entries};
use crate::lists::{collect_children, collect_leaves};
use crate::node::{NodeId, TreeNode};
use crate::same::same_entries;
use indexmap::IndexSet;
use pm_base::MOST_NODES;
use std::alloc::Global;
use std::marker::Model;

/// A lawful tree, which contracts see as the list of its entries.
pub struct Tree {
    entries: Vec<TreeEntry>,
    names: IndexSet<String>,
    nodes: Vec<TreeNode>,
    children: Vec<Vec<NodeId>>,
    places: Vec<usize>,
    leaves_below: Vec<Vec<NodeId>>,
}

impl Model for Tree {
    ghost use Rattle.std.specs.Prelude.{List, map, string_bytes};
    ghost use Rattle.pm_tree.specs.Entries.{Entry, entries_of};
    ghost use Rattle.pm_tree.specs.Tables.{node_lists, AreTables};

    ghost Value = { List Entry };

    ghost view = { λ t. entries_of t.entries.items };

    ghost invariant = { λ t.
        AreTables (entries_of t.entries.items) (map string_bytes t.names.keys) t.nodes.items
        (node_lists t.children.items) t.places.items (node_lists t.leaves_below.items) };
}

/// Its owner lets go of it in one step; a derived drop would be one for each part.
impl Drop for Tree {
    fn drop(self) {
        let Tree {
            entries: _,
            names: _,
            nodes: _,
            children: _,
            places: _,
            leaves_below: _,
        } = self;
    }
}

impl Tree {
    /// The tree of a list of entries, which are nodes 1, 2, .. in list order, or the first refusal
    /// of the list.
    ///
    /// A list of more than 256 entries is refused first. Then the first entry that fails a check is
    /// refused, by the first check that it fails. Its name has the form of a name and is not `auctioneer`,
    /// and no earlier entry has the name. Its parent is `auctioneer` or an earlier concentrator. A
    /// concentrator has at most 5 concentrators above it. An allocation failure may be answered at any
    /// list.
    pub fn new(alloc: Global, entries: Vec<TreeEntry>) -> Result<Tree, TreeFault>
        ensures tree { (result ≡ checked_tree (entries_of entries.items))
            ⊎ (result ≡ Err TreeFault.NoMemory) }
    {
        if entries.len() > MOST_NODES {
            return Err(TreeFault::TooMany {
                have: entries.len(),
            });
        }
        let index = index_entries(alloc, &entries)?;
        let children = collect_children(alloc, &index.nodes)?;
        let leaves_below = collect_leaves(alloc, &index.nodes)?;
        let (names, nodes) = index.into_parts();
        Ok(Tree {
            entries,
            names,
            nodes,
            children: children.lists,
            places: children.places,
            leaves_below,
        })
    }

    /// How many entries the tree has, so the number of its last node.
    pub fn len(&self) -> u32
        ensures len { result ≡ length self.now }
        ensures few { result ≤ most_nodes }
        ensures accepted { checked_tree self.now ≡ Ok self.now }
        ensures lawful { IsTree (parents_of self.now) (leaves_of self.now) }
    {
        self.entries.len() as u32
    }

    /// Whether the tree has no entries.
    pub fn is_empty(&self) -> bool
        ensures { result ≡ (length self.now == 0) }
    {
        self.entries.is_empty()
    }

    /// The node with the name; `auctioneer` is node 0.
    pub fn find(&self, name: &str) -> Option<NodeId>
        ensures { option_map (λ node. node.0) result ≡ node_named self.now name.now }
    {
        find_node(&self.names, name)
    }

    /// The name of a node; of node 0 `auctioneer`.
    pub fn name(&self, node: NodeId) -> &str
        requires { node.0 ≤ length self.now }
        ensures { result.now ≡ name_of self.now node.0 }
    {
        self.names[node.0 as usize].as_str()
    }

    /// Whether a node is a leaf, which is a device. The auctioneer is no leaf.
    pub fn is_leaf(&self, node: NodeId) -> bool
        requires { node.0 ≤ length self.now }
        ensures { result ≡ is_leaf_at self.now node.0 }
    {
        self.nodes[node.0 as usize].leaf
    }

    /// The children of a node in list order.
    pub fn children(&self, node: NodeId) -> &[NodeId]
        requires { node.0 ≤ length self.now }
        ensures { id_numbers result.now ≡ children_of self.now node.0 }
    {
        self.children[node.0 as usize].as_slice()
    }

    /// The leaves whose path to the auctioneer goes through a node, in list order; of a leaf itself.
    pub fn leaves_below(&self, node: NodeId) -> &[NodeId]
        requires { node.0 ≤ length self.now }
        ensures { id_numbers result.now ≡ leaves_below_of self.now node.0 }
    {
        self.leaves_below[node.0 as usize].as_slice()
    }

    /// How many concentrators are on a node's path to the auctioneer, the node included; of node 0 it is 0.
    pub fn depth(&self, node: NodeId) -> u32
        requires { node.0 ≤ length self.now }
        ensures depth { result ≡ depth_of self.now node.0 }
        ensures shallow { result ≤ most_depth }
    {
        self.nodes[node.0 as usize].depth
    }

    /// The parent of an entry's node, which is the auctioneer or an earlier concentrator.
    pub fn parent(&self, node: NodeId) -> NodeId
        requires entry { 1 ≤ node.0 }
        requires inside { node.0 ≤ length self.now }
        ensures parent { result.0 ≡ parent_of self.now node.0 }
        ensures earlier { result.0 < node.0 }
        ensures under_no_leaf { is_leaf_at self.now result.0 ≡ false }
    {
        self.nodes[node.0 as usize].parent
    }

    /// The place of an entry's node among its parent's children, counted from 0.
    pub fn place(&self, node: NodeId) -> usize
        requires entry { 1 ≤ node.0 }
        requires inside { node.0 ≤ length self.now }
        ensures { result ≡ place_of self.now node.0 }
    {
        self.places[node.0 as usize]
    }

    /// True exactly if both trees have the same entries in the same order.
    pub fn same(&self, other: &Tree) -> bool
        ensures { IsTrue result ↔ (self.now ≡ other.now) }
    {
        same_entries(&self.entries, &other.entries)
    }
}
