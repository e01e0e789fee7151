//! Why the auctioneer does not clear.

use thiserror::Error;

/// Why the market is not cleared.
#[derive(Clone, Copy, Debug, PartialEq, Eq, Error)]
pub enum ClearFault {
    /// Nothing was learnt since the last clearing, or, before the first, since the opening.
    #[error("nothing was learnt since the last clearing")]
    NotChanged,
    /// An allocation failed. It never comes: clearing takes no memory.
    #[error("no memory")]
    NoMemory,
}
