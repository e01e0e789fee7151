//! One entry of a tree as its maker lists it: a name, the parent's name, and whether it is a device.

/// One entry of a tree: a device or a concentrator.
#[derive(Debug, Drop)]
pub struct TreeEntry {
    /// The node's name.
    pub name: String,
    /// The name of its parent: `auctioneer` or an earlier concentrator.
    pub parent: String,
    /// Whether the node is a leaf, which is a device.
    pub leaf: bool,
}
