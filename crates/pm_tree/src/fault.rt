//! Why a list of entries is no tree, and which node is at fault.

ghost use Rattle.std.specs.Prelude.{◌≡◌};
ghost use Rattle.pm_tree.specs.declared.fault.TreeFault.TheVariants.{NoMemory};

use std::alloc::AllocError;
use thiserror::Error;

/// Why a list of entries is no tree. `at` is the number of the first node that fails a check, counted from 1.
#[derive(Clone, Copy, Debug, PartialEq, Eq, Error)]
pub enum TreeFault {
    /// The list has more than 256 entries.
    #[error("{have} entries, which is more than 256")]
    TooMany { have: usize },
    /// A name has not 1 to 32 bytes, is not an ASCII letter and then letters, digits, `_` and `-`,
    /// or is `auctioneer`.
    #[error("the name of node {at} is no name of a node")]
    BadName { at: u32 },
    /// An earlier entry has the name.
    #[error("the name of node {at} stands twice")]
    Twice { at: u32 },
    /// The parent is neither `auctioneer` nor an earlier concentrator.
    #[error("the parent of node {at} is no earlier concentrator")]
    NoParent { at: u32 },
    /// A concentrator has 6 concentrators above it.
    #[error("node {at} is a concentrator below 6 concentrators")]
    TooDeep { at: u32 },
    /// An allocation failed.
    #[error("out of memory")]
    NoMemory,
}

impl From<AllocError> for TreeFault {
    ghost from_gives = { λ _ fault. fault ≡ NoMemory };

    fn from(_error: AllocError) -> TreeFault {
        TreeFault::NoMemory
    }
}
