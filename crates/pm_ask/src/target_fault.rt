//! Why a text is no list of targets.

ghost use Rattle.std.specs.Prelude.{◌≡◌};
ghost use Rattle.pm_ask.specs.declared.target_fault.TargetsFault.TheVariants.{NoMemory};

use std::alloc::AllocFailed;
use thiserror::Error;

/// Why a text is no list of targets.
#[derive(Clone, Copy, Debug, PartialEq, Eq, Error)]
pub enum TargetsFault {
    /// The first line, counted from 1, that is no target, has no end or is one too many.
    #[error("line {line} is no target")]
    Bad { line: u32 },
    /// An allocation failed.
    #[error("out of memory")]
    NoMemory,
}

impl<T: Drop> From<AllocFailed<T>> for TargetsFault {
    ghost from_gives = { λ _ fault. fault ≡ NoMemory };

    fn from(_error: AllocFailed<T>) -> TargetsFault {
        TargetsFault::NoMemory
    }
}
