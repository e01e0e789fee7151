//! Why a decoder gives no frame.

ghost use Rattle.std.specs.Prelude.{◌≡◌};
ghost use Rattle.pm_wire.specs.declared.fault.DecodeFault.TheVariants.{NoMemory};

use std::alloc::AllocError;
use thiserror::Error;

/// Why a decoder gives no frame.
#[derive(Clone, Copy, Debug, PartialEq, Eq, Error)]
pub enum DecodeFault {
    /// The frame that begins behind the first `at` bytes of the stream is bad.
    #[error("the frame at byte {at} is bad")]
    Bad { at: u64 },
    /// An allocation failed.
    #[error("out of memory")]
    NoMemory,
}

impl From<AllocError> for DecodeFault {
    ghost from_gives = { λ _ fault. fault ≡ NoMemory };

    fn from(_error: AllocError) -> DecodeFault {
        DecodeFault::NoMemory
    }
}
