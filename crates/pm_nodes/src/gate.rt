//! The gate that a run tells of each turn, and the gate that does nothing.

use pm_market::Line;

/// Is told of the turns of nodes, without the lock.
///
/// A turn that the caller's thread makes for a node is told in the same way. A closing that the caller's thread makes is told
/// for node 0, whatever node it serves; one that a node's own thread makes is told for that node.
pub trait Gate: Sync {
    /// A turn of the node comes.
    fn before(&self, node: u32);

    /// A turn of the node was made, with the line that it put into the journal, if any.
    fn after(&self, node: u32, line: Option<Line>);
}

/// The gate that does nothing.
#[derive(Drop)]
pub struct OpenGate;

impl Gate for OpenGate {
    fn before(&self, _node: u32) {}

    fn after(&self, _node: u32, _line: Option<Line>) {}
}
