//! The frames that a relay or a device has from its parent.

ghost use Rattle.std.specs.Prelude.{◌≡◌, ◌+◌, ◌∷◌, ◌↔◌, IsTrue, length, Some};
ghost use Rattle.pm_frames.specs.ParentFrames.{parent_bytes, parent_size, IsParentFormed, IsParentAccepted, IsParentFrame};

use crate::basis::{NamedBasis, read_basis};
use crate::kinds::PRICE;
use pm_wire::{read_u16, read_u32};

/// A frame from the parent of a node.
#[derive(Clone, Copy, Debug, PartialEq, Eq)]
pub enum ParentFrame {
    /// The price for a child: the number of the bid that it answers, above 0, the index of the clearing, the step at which the
    /// market clears, and the basis of which this is a step.
    Price {
        child: u16,
        number: u32,
        index: u32,
        step: u16,
        basis: NamedBasis,
    },
    /// A Bid or Gone of this child did not count, since its number was not above the kept one.
    Old {
        child: u16,
        kept: u32,
    },
}

/// The frame of this kind that the bytes after the first one are.
fn read_parent(kind: u8, body: &[u8]) -> ParentFrame
    requires { parent_size kind ≡ Some (length body.now + 1) }
    ensures formed { IsParentFormed result }
    ensures spelled { kind ∷ body.now ≡ parent_bytes result }
{
    let (child, rest) = read_u16(body);
    let (number, rest) = read_u32(rest);
    if kind != PRICE {
        return ParentFrame::Old {
            child,
            kept: number,
        };
    }
    let (index, rest) = read_u32(rest);
    let (step, rest) = read_u16(rest);
    let (basis, _rest) = read_basis(rest);
    ParentFrame::Price {
        child,
        number,
        index,
        step,
        basis,
    }
}

/// Reads the fields of a frame of this kind to this child, or None where it is not accepted.
pub(crate) fn read_accepted(own: u16, kind: u8, body: &[u8]) -> Option<ParentFrame>
    requires { parent_size kind ≡ Some (length body.now + 1) }
    ensures { IsParentFrame own (kind ∷ body.now) result }
{
    let frame = read_parent(kind, body);
    if !frame.is_accepted(own) {
        return None;
    }
    Some(frame)
}

impl ParentFrame {
    /// Whether the frame is for this child, and of a price whether it answers a number and has a step of the basis that it names.
    fn is_accepted(&self, own: u16) -> bool
        ensures { IsTrue result ↔ IsParentAccepted own self.now }
    {
        match self {
            ParentFrame::Price {
                child,
                number,
                step,
                basis,
                ..
            } => *child == own && 1 <= *number && *step < basis.steps() && basis.is_basis(),
            ParentFrame::Old { child, .. } => *child == own,
        }
    }
}
