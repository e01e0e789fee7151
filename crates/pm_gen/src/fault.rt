//! Why no demo cluster was made.

ghost use Rattle.std.specs.Prelude.{◌≡◌};
ghost use Rattle.pm_gen.specs.declared.fault.GenFault.TheVariants.{NoMemory};

use std::alloc::AllocError;
use thiserror::Error;

/// Why no demo cluster was made.
#[derive(Clone, Copy, Debug, PartialEq, Eq, Error)]
pub enum GenFault {
    /// The number of devices is not in 1..=200.
    #[error("the size is not in 1..=200")]
    BadSize,
    /// An allocation failed.
    #[error("out of memory")]
    NoMemory,
}

impl From<AllocError> for GenFault {
    ghost from_gives = { λ _ fault. fault ≡ NoMemory };

    fn from(_error: AllocError) -> GenFault {
        GenFault::NoMemory
    }
}
