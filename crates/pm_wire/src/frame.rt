//! The frames that children send.

use pm_basis::Basis;
use pm_bid::ArrayBid;

/// A frame of the stream of bids.
#[derive(Drop)]
pub enum Frame {
    /// The market basis, in price units. It stands first, and only there.
    Hello {
        basis: Basis,
    },
    /// A child's bid: the child, from 1 to 256, the number of its bid, above 0, and its demand in watts at each step of
    /// the basis.
    Bid {
        child: u16,
        number: u32,
        demand: ArrayBid,
    },
    /// A child has no bid any more, under this number, above 0.
    Gone {
        child: u16,
        number: u32,
    },
    /// The market is to be cleared.
    Clear,
}
