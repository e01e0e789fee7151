//! Why a child's bid is not taken.

use thiserror::Error;

/// Why a child's bid is not taken.
#[derive(Clone, Copy, Debug, PartialEq, Eq, Error)]
pub enum CacheFault {
    /// The bid's number is at most `kept`, the number that is kept of the child.
    #[error("the bid is old: number {kept} is kept")]
    Old { kept: u32 },
}
