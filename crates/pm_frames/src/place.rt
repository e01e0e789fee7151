//! Where a frame stands in the stream to a node.

ghost use Rattle.std.specs.Prelude.{◌≡◌};
ghost use Rattle.pm_frames.specs.Places.{bid_place, basis_at, steps_at, stage_behind, stage_after};

use crate::terms::RelayTerms;
use pm_basis::Basis;
use pm_device::Kind;
use pm_wire::Frame;

/// How far the stream to a node is.
#[derive(Clone, Copy, Debug, PartialEq, Eq)]
pub enum Stage {
    /// Before Hello.
    Start,
    /// Directly after Hello, which has this basis. What the node comes back with may stand here.
    Opened { basis: Basis },
    /// Further after Hello.
    Running { basis: Basis },
}

/// A place in the stream to a device's agent.
#[derive(Clone, Copy, Debug, PartialEq, Eq)]
pub struct NodePlace {
    /// The node's own number at its parent.
    pub child: u16,
    /// How far the stream is.
    pub stage: Stage,
    /// The kind of the device, which its control named last, if it did.
    pub kind: Option<Kind>,
}

/// A place in the stream to a relay.
#[derive(Clone, Copy, Debug, PartialEq, Eq)]
pub struct RelayPlace {
    /// The relay's own number at its parent.
    pub child: u16,
    /// What the arguments say of the relay.
    pub terms: RelayTerms,
    /// How far the stream is.
    pub stage: Stage,
}

impl Stage {
    /// The basis, None before Hello.
    pub(crate) fn basis(self) -> Option<Basis>
        ensures { result ≡ basis_at self }
    {
        match self {
            Stage::Start => None,
            Stage::Opened { basis } | Stage::Running { basis } => Some(basis),
        }
    }

    /// The place in a stream of bids: None before Hello, and after it the steps of its basis.
    pub(crate) fn bid_place(self) -> Option<usize>
        ensures { result ≡ bid_place self }
    {
        match self {
            Stage::Start => None,
            Stage::Opened { basis } | Stage::Running { basis } => Some(basis.steps()),
        }
    }

    /// How many steps the basis has, 0 before Hello.
    pub(crate) fn steps(self) -> usize
        ensures { result ≡ steps_at self }
    {
        match self {
            Stage::Start => 0,
            Stage::Opened { basis } | Stage::Running { basis } => basis.steps(),
        }
    }

    /// The stage after a frame that is no Hello.
    pub(crate) fn behind(self) -> Stage
        ensures { result ≡ stage_behind self }
    {
        match self {
            Stage::Start => Stage::Start,
            Stage::Opened { basis } | Stage::Running { basis } => Stage::Running { basis },
        }
    }

    /// The stage after a frame of a stream of bids.
    pub(crate) fn after(self, frame: &Frame) -> Stage
        ensures { result ≡ stage_after self frame.now }
    {
        match frame {
            Frame::Hello { basis } => Stage::Opened { basis: *basis },
            Frame::Bid { .. } | Frame::Gone { .. } | Frame::Clear => self.behind(),
        }
    }
}
