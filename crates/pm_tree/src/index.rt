//! Checks the entries of a tree one after another, and gives each its row of the node table.

ghost use Rattle.std.specs.Prelude.{◌≡◌, ◌+◌, ◌<◌, ◌≤◌, [], ◌∷◌, ◌++◌, length, map, take, slice_get, IfOk, IfErr, OnOk, Some};
ghost use Rattle.std.specs.Prelude.{None, ◌⊎◌, string_bytes, option_map, position};
ghost use Rattle.std.specs.Str.{bytes_eq};
ghost use Rattle.pm_base.specs.Limits.{most_nodes};
ghost use Rattle.pm_tree.specs.Entries.{entries_of, entry_at, entry_refusal, refusals_after, parents_of, leaves_of};
ghost use Rattle.pm_tree.specs.Shape.{IsTree};
ghost use Rattle.pm_tree.specs.Stages.{name_refusal, parent_refusal, depth_refusal, IsParent, IsRowBelow};
ghost use Rattle.pm_tree.specs.Tables.{IsIndexOf, IsRowOf};

use crate::entry::TreeEntry;
use crate::fault::TreeFault;
use crate::name::{AUCTIONEER, is_name};
use crate::node::{NodeId, TreeNode};
use indexmap::IndexSet;
use pm_base::MOST_DEPTH;
use std::alloc::{AllocError, Global};

/// The names and the node table of the entries so far, both with the auctioneer first.
pub(crate) struct Index {
    pub(crate) names: IndexSet<String>,
    pub(crate) nodes: Vec<TreeNode>,
}

/// Its owner lets go of it in one step; a derived drop would be one for each part.
impl Drop for Index {
    fn drop(self) {
        let Index { names: _, nodes: _ } = self;
    }
}

/// Checks the entries in list order, and gives the index of all of them.
pub(crate) fn index_entries(alloc: Global, entries: &[TreeEntry]) -> Result<Index, TreeFault>
    requires { length entries.now ≤ most_nodes }
    ensures index { IfOk result (λ index.
        IsIndexOf (entries_of entries.now) (map string_bytes index.names.keys) index.nodes.items) }
    ensures lawful { let es = entries_of entries.now in
        OnOk result (IsTree (parents_of es) (leaves_of es)) }
    ensures accepted { OnOk result (slice_get (refusals_after [] (entries_of entries.now)) 0
        ≡ None) }
    ensures refused { IfErr result (λ fault.
        (slice_get (refusals_after [] (entries_of entries.now)) 0 ≡ Some fault)
        ⊎ (fault ≡ TreeFault.NoMemory)) }
{
    let mut index = Index::new(alloc)?;
    for place in 0..entries.len() {
        let row = index.check(entries, place)?;
        index.push(alloc, entries[place].name.as_str(), row)?;
    }
    Ok(index)
}

impl Index {
    /// The index of no entries: the auctioneer alone.
    fn new(alloc: Global) -> Result<Index, AllocError>
        ensures { IfOk result (λ index. IsIndexOf []
            (map string_bytes index.names.keys) index.nodes.items) }
    {
        let mut index = Index {
            names: IndexSet::new(alloc),
            nodes: Vec::new(alloc),
        };
        let row = TreeNode {
            parent: NodeId(0),
            leaf: false,
            depth: 0,
        };
        index.push(alloc, AUCTIONEER, row)?;
        Ok(index)
    }

    /// The names and the node table.
    pub(crate) fn into_parts(self) -> (IndexSet<String>, Vec<TreeNode>)
        ensures names { result.0 ≡ self.names }
        ensures nodes { result.1 ≡ self.nodes }
    {
        let Index { names, nodes } = self;
        (names, nodes)
    }

    /// Checks the entry at a place after the entries before it, and gives its row.
    fn check(&self, entries: &[TreeEntry], place: usize) -> Result<TreeNode, TreeFault>
        requires inside { place < length entries.now }
        requires few { length entries.now ≤ most_nodes }
        requires index { let before = take place (entries_of entries.now) in
            IsIndexOf before (map string_bytes self.now.names.keys) self.now.nodes.items }
        requires lawful { let before = take place (entries_of entries.now) in
            IsTree (parents_of before) (leaves_of before) }
        ensures accepted { let es = entries_of entries.now in
            OnOk result (entry_refusal (take place es) (entry_at es place) ≡ None) }
        ensures row { let es = entries_of entries.now in
            IfOk result (IsRowOf (take place es) (entry_at es place)) }
        ensures refused { let es = entries_of entries.now in
            IfErr result (λ fault. entry_refusal (take place es) (entry_at es place) ≡ Some fault) }
    {
        let entry = &entries[place];
        let at = place as u32 + 1;
        self.check_name(entry, at)?;
        let parent = self.find_parent(entry, at)?;
        self.make_row(entry, parent, at)
    }

    /// Checks the name of an entry, which is number `at`: that it is a name, and no node so far has it.
    fn check_name(&self, entry: &TreeEntry, at: u32) -> Result<(), TreeFault>
        requires { length self.now.names.keys ≤ most_nodes + 1 }
        ensures accepted { let names = map string_bytes self.now.names.keys in
            OnOk result (name_refusal names (string_bytes entry.now.name) at ≡ None) }
        ensures refused { let names = map string_bytes self.now.names.keys in
            IfErr result (λ fault. name_refusal names (string_bytes entry.now.name) at
            ≡ Some fault) }
    {
        if !is_name(entry.name.as_str()) {
            return Err(TreeFault::BadName { at });
        }
        if find_node(&self.names, entry.name.as_str()).is_some() {
            return Err(TreeFault::Twice { at });
        }
        Ok(())
    }

    /// Finds the parent of an entry, which is number `at`: a node so far that is no leaf.
    fn find_parent(&self, entry: &TreeEntry, at: u32) -> Result<NodeId, TreeFault>
        requires few { length self.now.names.keys ≤ most_nodes + 1 }
        requires rows { length self.now.nodes.items ≡ length self.now.names.keys }
        ensures parent { let names = map string_bytes self.now.names.keys in
            IfOk result (λ parent. IsParent names self.now.nodes.items
            (string_bytes entry.now.parent) parent.0) }
        ensures inside { IfOk result (λ parent. parent.0 < length self.now.nodes.items) }
        ensures refused { let names = map string_bytes self.now.names.keys in IfErr result (λ fault.
            parent_refusal names self.now.nodes.items (string_bytes entry.now.parent) at
            ≡ Some fault) }
    {
        let Some(parent) = find_node(&self.names, entry.parent.as_str()) else {
            return Err(TreeFault::NoParent { at });
        };
        let above = self.nodes[parent.0 as usize];
        if above.leaf {
            return Err(TreeFault::NoParent { at });
        }
        Ok(parent)
    }

    /// Makes the row of an entry, which is number `at`, below its parent.
    fn make_row(&self, entry: &TreeEntry, parent: NodeId, at: u32) -> Result<TreeNode, TreeFault>
        requires { parent.0 < length self.now.nodes.items }
        ensures row { IfOk result (IsRowBelow self.now.nodes.items parent.0 entry.now.leaf) }
        ensures accepted { OnOk result (depth_refusal self.now.nodes.items parent.0
            entry.now.leaf at ≡ None) }
        ensures refused { IfErr result (λ fault.
            depth_refusal self.now.nodes.items parent.0 entry.now.leaf at ≡ Some fault) }
    {
        let above = self.nodes[parent.0 as usize];
        if entry.leaf {
            return Ok(TreeNode {
                parent,
                leaf: true,
                depth: above.depth,
            });
        }
        if above.depth >= MOST_DEPTH {
            return Err(TreeFault::TooDeep { at });
        }
        Ok(TreeNode {
            parent,
            leaf: false,
            depth: above.depth + 1,
        })
    }

    /// Adds a node that no node so far has the name of.
    fn push(&mut self, alloc: Global, name: &str, row: TreeNode) -> Result<(), AllocError>
        requires { position (bytes_eq name.now) (map string_bytes self.old.names.keys) ≡ None }
        ensures names { OnOk result (map string_bytes self.new.names.keys
            ≡ map string_bytes self.old.names.keys ++ name.now ∷ []) }
        ensures nodes { OnOk result (self.new.nodes.items ≡ self.old.nodes.items ++ row ∷ []) }
    {
        self.names.insert(String::from_str(alloc, name)?)?;
        self.nodes.push(row)?;
        Ok(())
    }
}

/// The node with the name, among names with the auctioneer's first.
pub(crate) fn find_node(names: &IndexSet<String>, name: &str) -> Option<NodeId>
    requires { length names.now.keys ≤ most_nodes + 1 }
    ensures { option_map (λ node. node.0) result
        ≡ position (bytes_eq name.now) (map string_bytes names.now.keys) }
{
    match names.get_index_of(name) {
        Some(index) => Some(NodeId(index as u32)),
        None => None,
    }
}
