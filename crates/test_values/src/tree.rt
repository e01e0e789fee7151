//! Tests of trees: lists that are refused, and parents, children and leaves of those that are not.

use crate::same::same;
use crate::shared::may_be_shared;
use pm_tree::{NodeId, Tree, TreeEntry, TreeFault};
use std::alloc::{AllocError, Global};
use std::process::Abort;

/// A name, its parent's name, and whether the node is a leaf.
type Line = (&'static str, &'static str, bool);

/// Six concentrators, each under the one before, and a load under the last.
const CHAIN: [Line; 7] = [
    ("c1", "auctioneer", false),
    ("c2", "c1", false),
    ("c3", "c2", false),
    ("c4", "c3", false),
    ("c5", "c4", false),
    ("c6", "c5", false),
    ("load", "c6", true),
];

/// A seventh concentrator under six.
const DEEP: [Line; 7] = [
    ("c1", "auctioneer", false),
    ("c2", "c1", false),
    ("c3", "c2", false),
    ("c4", "c3", false),
    ("c5", "c4", false),
    ("c6", "c5", false),
    ("c7", "c6", false),
];

/// Two concentrators with a load each, and a load under the auctioneer.
const TWO: [Line; 5] = [
    ("c1", "auctioneer", false),
    ("l1", "c1", true),
    ("c2", "c1", false),
    ("l2", "c2", true),
    ("l3", "auctioneer", true),
];

fn entry(alloc: Global, name: &str, parent: &str, leaf: bool) -> Result<TreeEntry, AllocError> {
    Ok(TreeEntry {
        name: String::from_str(alloc, name)?,
        parent: String::from_str(alloc, parent)?,
        leaf,
    })
}

fn listed(alloc: Global, lines: &[Line]) -> Result<Vec<TreeEntry>, AllocError> {
    let mut entries = Vec::new(alloc);
    for line in lines {
        entries.push(entry(alloc, line.0, line.1, line.2)?)?;
    }
    Ok(entries)
}

fn tree_of(alloc: Global, lines: &[Line]) -> Result<Tree, TreeFault> {
    Tree::new(alloc, listed(alloc, lines)?)
}

/// How many entries the tree of the lines has.
fn size(alloc: Global, lines: &[Line]) -> Result<u32, TreeFault> {
    Ok(tree_of(alloc, lines)?.len())
}

/// The load of a number, under the auctioneer.
fn load(alloc: Global, number: usize) -> Result<TreeEntry, AllocError> {
    let name = format!(in alloc; "load{number}")?;
    entry(alloc, name.as_str(), "auctioneer", true)
}

/// So many loads under the auctioneer.
fn loads(alloc: Global, count: usize) -> Result<Vec<TreeEntry>, AllocError> {
    let mut entries = Vec::new(alloc);
    for number in 0..count {
        entries.push(load(alloc, number)?)?;
    }
    Ok(entries)
}

/// How many entries the tree of so many loads under the auctioneer has.
fn size_of_loads(alloc: Global, count: usize) -> Result<u32, TreeFault> {
    Ok(Tree::new(alloc, loads(alloc, count)?)?.len())
}

/// Lists of entries, and the sizes of their trees or the faults: of the first entry that fails, its first check.
const CASES: &[(&[Line], Result<u32, TreeFault>)] = &[
    (&[], Ok(0)),
    (&CHAIN, Ok(7)),
    (&DEEP, Err(TreeFault::TooDeep { at: 7 })),
    (
        &[("1load", "auctioneer", true)],
        Err(TreeFault::BadName { at: 1 }),
    ),
    (
        &[("", "auctioneer", true)],
        Err(TreeFault::BadName { at: 1 }),
    ),
    (
        &[("auctioneer", "auctioneer", true)],
        Err(TreeFault::BadName { at: 1 }),
    ),
    (
        &[("abcdefghijklmnopqrstuvwxyzabcdef", "auctioneer", true)],
        Ok(1),
    ),
    (
        &[("abcdefghijklmnopqrstuvwxyzabcdefg", "auctioneer", true)],
        Err(TreeFault::BadName { at: 1 }),
    ),
    (
        &[("load", "auctioneer", true), ("load", "auctioneer", true)],
        Err(TreeFault::Twice { at: 2 }),
    ),
    (&[("load", "c1", true)], Err(TreeFault::NoParent { at: 1 })),
    (
        &[("l1", "auctioneer", true), ("l2", "l1", true)],
        Err(TreeFault::NoParent { at: 2 }),
    ),
    (
        &[("load", "c1", true), ("c1", "auctioneer", false)],
        Err(TreeFault::NoParent { at: 1 }),
    ),
    // One entry that fails two checks: the first of them counts.
    (&[("1load", "c1", true)], Err(TreeFault::BadName { at: 1 })),
    (
        &[("load", "auctioneer", true), ("load", "c1", true)],
        Err(TreeFault::Twice { at: 2 }),
    ),
    // Two entries that fail: the earlier one counts, whatever its check.
    (
        &[("load", "c1", true), ("1load", "auctioneer", true)],
        Err(TreeFault::NoParent { at: 1 }),
    ),
];

#[test]
fn a_list_is_accepted_or_refused_by_the_first_check_of_the_first_entry(rt: HostRuntime) {
    for row in CASES {
        same(&rt, row.0, size(rt.alloc(), row.0), row.1);
    }
}

#[test]
fn a_tree_has_at_most_256_entries(rt: HostRuntime) {
    same(&rt, 256, size_of_loads(rt.alloc(), 256), Ok(256));
    let too_many = Err(TreeFault::TooMany { have: 257 });
    same(&rt, 257, size_of_loads(rt.alloc(), 257), too_many);
}

/// A node of `TWO`: its name, whether it is a leaf, its depth, its children, and the leaves below it.
type Row = (
    &'static str,
    bool,
    u32,
    &'static [NodeId],
    &'static [NodeId],
);

const ROWS: &[Row] = &[
    (
        "auctioneer",
        false,
        0,
        &[NodeId(1), NodeId(5)],
        &[NodeId(2), NodeId(4), NodeId(5)],
    ),
    (
        "c1",
        false,
        1,
        &[NodeId(2), NodeId(3)],
        &[NodeId(2), NodeId(4)],
    ),
    ("l1", true, 1, &[], &[NodeId(2)]),
    ("c2", false, 2, &[NodeId(4)], &[NodeId(4)]),
    ("l2", true, 2, &[], &[NodeId(4)]),
    ("l3", true, 0, &[], &[NodeId(5)]),
];

/// The look-ups of a node are those of the row.
fn node_is<R: Abort>(rt: &R, tree: &Tree, node: NodeId, row: &Row) {
    assert!(rt; node.0 <= tree.len());
    let have = (
        tree.name(node),
        tree.is_leaf(node),
        tree.depth(node),
        tree.children(node),
        tree.leaves_below(node),
    );
    same(rt, node, have, *row);
    same(rt, node, tree.find(row.0), Some(node));
}

fn nodes_are<R: Abort>(rt: &R, tree: &Tree) {
    for (place, row) in ROWS.iter().enumerate() {
        node_is(rt, tree, NodeId(place as u32), row);
    }
}

/// A node, its parent, and its place among the children of its parent.
const PLACES: &[(u32, u32, usize)] = &[(1, 0, 0), (2, 1, 0), (3, 1, 1), (4, 3, 0), (5, 0, 1)];

fn place_is<R: Abort>(rt: &R, tree: &Tree, row: (u32, u32, usize)) {
    let node = NodeId(row.0);
    assert!(rt; 1 <= row.0 && row.0 <= tree.len());
    let have = (tree.parent(node), tree.place(node));
    same(rt, node, have, (NodeId(row.1), row.2));
}

fn look_ups_are<R: Abort>(rt: &R, tree: &Tree) {
    same(rt, "nodes", (tree.len(), tree.is_empty()), (5, false));
    same(rt, "l4", tree.find("l4"), None);
    nodes_are(rt, tree);
    for row in PLACES {
        place_is(rt, tree, *row);
    }
}

#[test]
fn look_ups_answer_by_the_list(rt: HostRuntime) {
    look_ups_are(&rt, &tree_of(rt.alloc(), &TWO).expect(&rt, "a tree"));
}

#[test]
fn trees_may_be_shared() {
    may_be_shared::<(Tree, TreeEntry, TreeFault, NodeId)>();
}
