//! The moves of the market, and the acts, which are moves without their numbers.

/// One step of the market. Nodes are numbered from 1, and 0 is the auctioneer.
#[derive(Clone, Copy, Debug, PartialEq, Eq)]
pub enum Move {
    /// A device makes its change of this number.
    Change { device: u32, number: u32 },
    /// The parent of a node learns this number of the node.
    Learn { child: u32, number: u32 },
    /// A concentrator publishes what it knows under this number.
    Publish { node: u32, number: u32 },
    /// The auctioneer clears what it knows under this index.
    Clear { index: u32 },
    /// The clearing of this index is passed to a node.
    Pass { node: u32, index: u32 },
    /// The phase of this number is closed.
    Close { phase: u32 },
}

/// A move without its numbers.
#[derive(Clone, Copy, Debug, PartialEq, Eq)]
pub enum Act {
    Change { device: u32 },
    Learn { child: u32 },
    Publish { node: u32 },
    Clear,
    Pass { node: u32 },
    Close,
}
