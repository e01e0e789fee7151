//! Why a concentrator publishes nothing, in the order of the tests.

use thiserror::Error;

/// Why nothing is published. The causes are tested in this order.
#[derive(Clone, Copy, Debug, PartialEq, Eq, Error)]
pub enum PublishFault {
    /// The children's heads are those of the last record, or before the first those of the opening.
    #[error("nothing changed since the last publish")]
    NotChanged,
    /// Eight numbers, `unanswered`, lie above the one answered last.
    #[error("{unanswered} numbers are unanswered")]
    WindowFull { unanswered: u32 },
    /// An allocation failed. It never comes: publishing takes no memory.
    #[error("no memory")]
    NoMemory,
}
