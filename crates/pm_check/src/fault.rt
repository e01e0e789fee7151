//! Why a trace is not valid, and at which line.

ghost use Rattle.std.specs.Prelude.{◌≡◌};
ghost use Rattle.pm_check.specs.declared.fault.CheckFault.TheVariants.{NoMemory};

use std::alloc::AllocError;
use thiserror::Error;

/// Why a trace is not valid.
#[derive(Clone, Copy, Debug, PartialEq, Eq, Error)]
pub enum CheckFault {
    /// The first line of the trace, counted from 1, that is not due there, has no end, or is due and missing.
    #[error("line {line} is not due")]
    Invalid { line: u64 },
    /// An allocation failed.
    #[error("out of memory")]
    NoMemory,
}

impl From<AllocError> for CheckFault {
    ghost from_gives = { λ _ fault. fault ≡ NoMemory };

    fn from(_error: AllocError) -> CheckFault {
        CheckFault::NoMemory
    }
}
