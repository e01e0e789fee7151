//! The number of a node, and the row that the tree keeps of it.

/// The number of a node: 0 is the auctioneer, and 1, 2, .. are the entries in list order.
#[derive(Clone, Copy, Debug, PartialEq, Eq, PartialOrd, Ord, Hash)]
pub struct NodeId(pub u32);

/// What is kept of a node in one row of the node table.
#[derive(Clone, Copy)]
pub(crate) struct TreeNode {
    /// The parent; of the auctioneer itself.
    pub(crate) parent: NodeId,
    /// Whether the node is a device.
    pub(crate) leaf: bool,
    /// How many concentrators are on the path to the auctioneer, the node included.
    pub(crate) depth: u32,
}
