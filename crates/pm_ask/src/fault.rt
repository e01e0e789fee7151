//! Why a total has no curve.

ghost use Rattle.std.specs.Prelude.{◌≡◌};
ghost use Rattle.pm_ask.specs.declared.fault.CurveFault.TheVariants.{NoMemory};

use std::alloc::AllocError;
use thiserror::Error;

/// Why a total has no curve.
#[derive(Clone, Copy, Debug, PartialEq, Eq, Error)]
pub enum CurveFault {
    /// The total at step `at` is above the one at the step before: the first such step.
    #[error("the total rises at step {at}")]
    Rising { at: usize },
    /// An allocation failed.
    #[error("out of memory")]
    NoMemory,
}

impl From<AllocError> for CurveFault {
    ghost from_gives = { λ _ fault. fault ≡ NoMemory };

    fn from(_error: AllocError) -> CurveFault {
        CurveFault::NoMemory
    }
}
