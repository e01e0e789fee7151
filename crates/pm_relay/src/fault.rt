//! Why a relay sends no bid, in the order of the tests.

use thiserror::Error;

/// Why no bid is sent. The causes are tested in this order.
#[derive(Clone, Copy, Debug, PartialEq, Eq, Error)]
pub enum SendFault {
    /// The relay came back, and of some child it has not heard as much as its newest bid had.
    #[error("a child was not heard again since the restart")]
    NotCaughtUp,
    /// The children's heads are those of the newest record.
    #[error("nothing changed since the last bid")]
    NotChanged,
    /// Eight numbers or more lie above the one answered last.
    #[error("eight numbers are unanswered")]
    WindowFull,
    /// The last number is 4,294,967,295, the greatest that there is.
    #[error("no number is left")]
    OutOfNumbers,
}

/// Why the market is not cleared. The causes are tested in this order.
#[derive(Clone, Copy, Debug, PartialEq, Eq, Error)]
pub enum RootFault {
    /// The auctioneer came back, and of some child it has not heard as much as its newest clearing had.
    #[error("a child was not heard again since the restart")]
    NotCaughtUp,
    /// Nothing was learnt since the last clearing.
    #[error("nothing changed since the last clearing")]
    NotChanged,
    /// The last index is 4,294,967,295, the greatest that there is.
    #[error("no index is left")]
    OutOfNumbers,
}
