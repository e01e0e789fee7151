//! Which nodes of a tree a gate holds back, and for how long.

use crate::holding::HoldingGate;
use pm_tree::{NodeId, Tree};
use std::alloc::{AllocError, Global};
use std::fmt;

/// How often a node that is held yields the processor before each turn.
const YIELDS: u32 = 100;

/// The same for each level of the tree above a node, if the deeper ones wait longer.
const YIELDS_OF_A_LEVEL: u32 = 30;

/// Which nodes of a tree wait before each of their turns.
#[derive(Clone, Copy)]
pub enum HeldNodes {
    /// The first node of the file.
    First,
    /// The last one.
    Last,
    /// Node 0.
    Auctioneer,
    /// The first concentrator and all nodes below it; if there is no concentrator, the first node.
    Subtree,
    /// All but the auctioneer, the deeper ones longer.
    Depth,
}

impl fmt::Display for HeldNodes {
    fn fmt<W: fmt::Write>(&self, f: &mut fmt::Formatter<W>) -> fmt::Result {
        match self {
            HeldNodes::First => write!(f, "the first node"),
            HeldNodes::Last => write!(f, "the last node"),
            HeldNodes::Auctioneer => write!(f, "the auctioneer"),
            HeldNodes::Subtree => write!(f, "a subtree"),
            HeldNodes::Depth => write!(f, "nodes by their depth"),
        }
    }
}

/// A gate that holds these nodes of a tree back.
pub(crate) fn holding_gate(
    alloc: Global,
    tree: &Tree,
    held: HeldNodes,
) -> Result<HoldingGate, AllocError> {
    let yields = match held {
        HeldNodes::First => yields_of_node(alloc, tree, 1),
        HeldNodes::Last => yields_of_node(alloc, tree, tree.len()),
        HeldNodes::Auctioneer => yields_of_node(alloc, tree, 0),
        HeldNodes::Subtree => yields_below(alloc, tree, first_concentrator(tree)),
        HeldNodes::Depth => yields_by_depth(alloc, tree),
    };
    Ok(HoldingGate::new(yields?))
}

/// How often a node yields that is held or not.
fn yields_if(held: bool) -> u32 {
    if held { YIELDS } else { 0 }
}

/// The first concentrator of a tree, or else its first node.
fn first_concentrator(tree: &Tree) -> u32 {
    for before in 0..tree.len() {
        let node = before + 1;
        if !tree.is_leaf(NodeId(node)) {
            return node;
        }
    }
    1
}

/// One node alone is held.
fn yields_of_node(alloc: Global, tree: &Tree, held: u32) -> Result<Vec<u32>, AllocError> {
    let mut yields = Vec::new(alloc);
    yields.push(yields_if(held == 0))?;
    for before in 0..tree.len() {
        yields.push(yields_if(before + 1 == held))?;
    }
    Ok(yields)
}

/// A node is held, and those below it. A parent comes before its children.
fn yields_below(alloc: Global, tree: &Tree, top: u32) -> Result<Vec<u32>, AllocError> {
    let mut yields: Vec<u32> = Vec::new(alloc);
    yields.push(0)?;
    for before in 0..tree.len() {
        let node = before + 1;
        let parent = tree.parent(NodeId(node)).0 as usize;
        let above = yields.get(parent).copied().unwrap_or(0);
        yields.push(above.max(yields_if(node == top)))?;
    }
    Ok(yields)
}

/// All nodes but the auctioneer are held, by the number of nodes above them.
fn yields_by_depth(alloc: Global, tree: &Tree) -> Result<Vec<u32>, AllocError> {
    let mut yields: Vec<u32> = Vec::new(alloc);
    yields.push(0)?;
    for before in 0..tree.len() {
        let parent = tree.parent(NodeId(before + 1)).0 as usize;
        let above = yields.get(parent).copied().unwrap_or(0);
        yields.push(above.saturating_add(YIELDS_OF_A_LEVEL))?;
    }
    Ok(yields)
}
