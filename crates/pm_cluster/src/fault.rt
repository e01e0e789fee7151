//! Why a change, an act or a list of acts is refused.

ghost use Rattle.std.specs.Prelude.{◌≡◌};
ghost use Rattle.pm_cluster.specs.declared.fault.ActFault.TheVariants as act_faults;
ghost use Rattle.pm_cluster.specs.declared.fault.ApplyFault.TheVariants as apply_faults;

use pm_device::Next;
use std::alloc::AllocError;
use thiserror::Error;

/// Why a change is refused.
#[derive(Clone, Copy, Debug, PartialEq, Eq, Error)]
pub enum ChangeFault {
    /// What was made is not the next change of its device, or not of its kind, or of no device.
    #[error("the change is not the device's next one")]
    NotNext {
        /// The next change of the device, if it has one.
        next: Option<Next>,
    },
    /// An allocation failed; this never comes.
    #[error("out of memory")]
    NoMemory,
}

/// Why an act is refused.
#[derive(Clone, Copy, Debug, PartialEq, Eq, Error)]
pub enum ActFault {
    /// No move of the act's form is legal.
    #[error("no move of this form is legal")]
    Illegal,
    /// An allocation failed; this never comes.
    #[error("out of memory")]
    NoMemory,
}

/// Why acts are not made.
#[derive(Clone, Copy, Debug, PartialEq, Eq, Error)]
pub enum ApplyFault {
    /// The first act of whose form no move is legal.
    #[error("act {at} is not legal")]
    Illegal {
        /// Its place among the acts, from 0.
        at: usize,
    },
    /// An allocation failed.
    #[error("out of memory")]
    NoMemory,
}

impl From<AllocError> for ActFault {
    ghost from_gives = { λ _ e. e ≡ act_faults.NoMemory };

    fn from(_error: AllocError) -> ActFault {
        ActFault::NoMemory
    }
}

impl From<AllocError> for ApplyFault {
    ghost from_gives = { λ _ e. e ≡ apply_faults.NoMemory };

    fn from(_error: AllocError) -> ApplyFault {
        ApplyFault::NoMemory
    }
}
