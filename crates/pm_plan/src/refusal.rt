//! Why an input is refused, with the cause's code, and the place and the item at fault.

ghost use Rattle.std.specs.Prelude.{◌≡◌, None, Some};
ghost use Rattle.pm_plan.specs.Causes.{cause_code};
ghost use Rattle.pm_plan.specs.declared.refusal.PlanFault.TheVariants.{NoMemory, Refused};

use std::alloc::{AllocError, AllocFailed};
use thiserror::Error;

/// Where in a file a refusal has its cause. Nodes, phases and events count from 1.
#[derive(Clone, Copy, Debug, PartialEq, Eq)]
pub enum Place {
    /// The file as a whole.
    Document,
    /// The market basis.
    Basis,
    /// A node.
    Node { number: u32 },
    /// A phase.
    Phase { number: u32 },
    /// An event of a phase.
    Event { phase: u32, number: u32 },
    /// A line of text.
    Line { number: u32 },
}

/// Why a file, or an input that begins with one, is refused.
#[derive(Clone, Copy, Debug, PartialEq, Eq)]
pub enum Cause {
    /// The bytes are no UTF-8, or no JSON text.
    Unreadable,
    /// A value has the wrong type.
    WrongType,
    /// An object lacks a member that it has to have.
    MissingMember,
    /// An object has a member that it may not have.
    UnknownMember,
    /// The version of the file is neither 1 nor 2.
    UnknownVersion,
    /// The three numbers are no market basis.
    BadBasis,
    /// A name has the wrong form.
    BadName,
    /// An earlier node has the name.
    NameTwice,
    /// No earlier node that is no leaf has the name of the parent.
    UnknownParent,
    /// A concentrator has too many concentrators above it.
    TooDeep,
    /// The file has too many nodes.
    TooManyNodes,
    /// A node is of no kind that the version knows.
    UnknownKind,
    /// A parameter, or the minutes of a tick, lie outside their limits.
    OutsideLimits,
    /// No device has the name.
    UnknownDevice,
    /// The device that joins is a member.
    JoinedAlready,
    /// The device is no member.
    NotJoined,
    /// The demands of a manual device are no bid.
    BadArray,
    /// The points of a manual device are no bid.
    BadPoints,
    /// The state does not fit the kind.
    UnfitState,
    /// There are too many phases, events of a phase, or changes.
    RunTooLarge,
    /// A limited concentrator is above a limited one.
    LimitedTwice,
    /// An input does not begin with a cluster file that its length precedes.
    BadEnvelope,
    /// A line is no target, or there are too many.
    BadTarget,
}

impl Cause {
    /// The number by which the line of a refusal names its cause.
    pub fn code(self) -> u8
        ensures { result ≡ cause_code self }
    {
        match self {
            Cause::Unreadable => 1,
            Cause::WrongType => 2,
            Cause::MissingMember => 3,
            Cause::UnknownMember => 4,
            Cause::UnknownVersion => 5,
            Cause::BadBasis => 6,
            Cause::BadName => 7,
            Cause::NameTwice => 8,
            Cause::UnknownParent => 9,
            Cause::TooDeep => 10,
            Cause::TooManyNodes => 11,
            Cause::UnknownKind => 12,
            Cause::OutsideLimits => 13,
            Cause::UnknownDevice => 14,
            Cause::JoinedAlready => 15,
            Cause::NotJoined => 16,
            Cause::BadArray => 17,
            Cause::BadPoints => 18,
            Cause::UnfitState => 19,
            Cause::RunTooLarge => 20,
            Cause::LimitedTwice => 22,
            Cause::BadEnvelope => 23,
            Cause::BadTarget => 25,
        }
    }
}

/// A refusal of a file: the number of its cause, its place, and for some causes the item at fault, counted from 0.
#[derive(Clone, Copy, Debug, PartialEq, Eq)]
pub struct Refusal {
    pub code: u8,
    pub place: Place,
    pub item: Option<u64>,
}

impl Refusal {
    /// A refusal without an item.
    pub fn at(cause: Cause, place: Place) -> Refusal
        ensures { result ≡ record { code = cause_code cause; place = place; item = None } }
    {
        Refusal {
            code: cause.code(),
            place,
            item: None,
        }
    }

    /// A refusal with an item.
    pub fn of_item(cause: Cause, place: Place, item: u64) -> Refusal
        ensures { result ≡ record { code = cause_code cause; place = place; item = Some item } }
    {
        Refusal {
            code: cause.code(),
            place,
            item: Some(item),
        }
    }
}

/// Why there is no plan.
#[derive(Clone, Copy, Debug, PartialEq, Eq, Error)]
pub enum PlanFault {
    /// The parts are refused.
    #[error("refused")]
    Refused(Refusal),
    /// An allocation failed.
    #[error("out of memory")]
    NoMemory,
}

impl From<AllocError> for PlanFault {
    ghost from_gives = { λ _ e. e ≡ NoMemory };

    fn from(_error: AllocError) -> PlanFault {
        PlanFault::NoMemory
    }
}

impl<T: Drop> From<AllocFailed<T>> for PlanFault {
    ghost from_gives = { λ _ e. e ≡ NoMemory };

    fn from(_error: AllocFailed<T>) -> PlanFault {
        PlanFault::NoMemory
    }
}

impl From<Refusal> for PlanFault {
    ghost from_gives = { λ r e. e ≡ Refused r };

    fn from(refusal: Refusal) -> PlanFault {
        PlanFault::Refused(refusal)
    }
}
