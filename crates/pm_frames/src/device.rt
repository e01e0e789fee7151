//! The frames of the stream to a device's agent.

ghost use Rattle.std.specs.Prelude.{◌≡◌, ◌+◌, ◌*◌, ◌%◌, ◌≤◌, ◌∷◌, ◌↔◌, IsTrue, length, Some, IfOk};
ghost use Rattle.pm_io.specs.Causes.{HasCause};
ghost use Rattle.pm_base.specs.Limits.{AreSteps};
ghost use Rattle.pm_wire.specs.Kinds.{hello_kind};
ghost use Rattle.pm_wire.specs.Spelling.{IsOne};
ghost use Rattle.pm_frames.specs.Kinds.{kind_kind, resume_kind, resume_gone_kind};
ghost use Rattle.pm_frames.specs.Places.{basis_at, steps_at, IsOpen, IsFresh, IsStage, IsNodePlace};
ghost use Rattle.pm_frames.specs.ParentFrames.{parent_size};
ghost use Rattle.pm_frames.specs.DeviceFrames.{device_size, device_size_open, device_size_fresh, device_framing};

use crate::basis::{NamedBasis, read_basis};
use crate::form::OfferForm;
use crate::kinds::{
    HELLO, HELLO_SIZE, KIND, KIND_SIZE, LEAVE, LEAVE_SIZE, OFFER, OLD, OLD_SIZE, PRICE, PRICE_SIZE,
    RESUME, RESUME_GONE, RESUME_GONE_SIZE, STATE, STATE_SIZE,
};
use crate::named_kind::{NamedKind, read_named_kind};
use crate::offer::{read_offer, read_offered, read_points, read_state, size_points};
use crate::parent::{ParentFrame, read_accepted};
use crate::place::{NodePlace, Stage};
use crate::stored::StoredAgent;
use pm_basis::Basis;
use pm_bid::ArrayBid;
use pm_io::Memory;
use pm_wire::{Frame, StreamFrame, read_u32};
use std::alloc::AllocError;

/// A frame of the stream to a device's agent.
#[derive(Drop)]
pub enum DeviceFrame {
    /// The market basis, in price units. It stands first, and only there.
    Hello { basis: Basis },
    /// The control offers the power in watts that the device would take at each step, said in one of its forms.
    Offer { form: OfferForm, demand: ArrayBid },
    /// The control names the kind of the device, of which it may say states from here on.
    Kind(NamedKind),
    /// The device leaves the market.
    Leave,
    /// A frame of the device's parent.
    Parent(ParentFrame),
    /// What the agent comes back with.
    Resume(StoredAgent),
}

/// How many bytes a frame of this kind has after a Hello of so many steps.
fn size_open(steps: usize, kind: u8) -> Option<usize>
    requires { AreSteps steps }
    ensures { result ≡ device_size_open steps kind }
{
    match kind {
        OFFER => Some(1 + 4 * steps),
        LEAVE => Some(LEAVE_SIZE),
        PRICE => Some(PRICE_SIZE),
        OLD => Some(OLD_SIZE),
        KIND => Some(KIND_SIZE),
        STATE => Some(STATE_SIZE),
        _ => size_points(kind),
    }
}

/// How many bytes a first frame of this kind has.
fn size_first(kind: u8) -> Option<usize>
    ensures { result ≡ device_size Stage.Start kind }
{
    if kind == HELLO {
        Some(HELLO_SIZE)
    } else {
        None
    }
}

/// How many bytes a frame of this kind has directly after a Hello of so many steps.
fn size_fresh(steps: usize, kind: u8) -> Option<usize>
    requires { AreSteps steps }
    ensures { result ≡ device_size_fresh steps kind }
{
    match kind {
        RESUME => Some(RESUME_GONE_SIZE + 4 * steps),
        RESUME_GONE => Some(RESUME_GONE_SIZE),
        _ => size_open(steps, kind),
    }
}

/// How many bytes a frame of this kind has at a stage, if it may stand there.
fn size_at(stage: Stage, kind: u8) -> Option<usize>
    requires { IsStage stage }
    ensures { result ≡ device_size stage kind }
{
    match stage {
        Stage::Start => size_first(kind),
        Stage::Opened { basis } => size_fresh(basis.steps(), kind),
        Stage::Running { basis } => size_open(basis.steps(), kind),
    }
}

/// Reads the fields of Hello.
fn read_hello<M: Memory>(
    memory: &mut M,
    place: NodePlace,
    body: &[u8],
) -> Result<Option<DeviceFrame>, AllocError>
    requires start { place.stage ≡ Stage.Start }
    requires size { length body.now ≡ 10 }
    ensures one { IfOk result (IsOne device_framing place (hello_kind ∷ body.now)) }
    ensures cause { HasCause (M.refusals memory.old) (M.refusals memory.new) result }
{
    let Some(frame) = Frame::read(memory, None, HELLO, body)? else {
        return Ok(None);
    };
    match &frame {
        Frame::Hello { basis } => Ok(Some(DeviceFrame::Hello { basis: *basis })),
        Frame::Bid { .. } | Frame::Gone { .. } | Frame::Clear => unreachable!(),
    }
}

/// Reads the fields of Kind.
fn read_device_kind(place: NodePlace, body: &[u8]) -> Option<DeviceFrame>
    requires open { IsOpen place.stage }
    requires size { length body.now ≡ 21 }
    ensures { IsOne device_framing place (kind_kind ∷ body.now) result }
{
    let named = read_named_kind(body);
    if !named.is_valid() {
        return None;
    }
    Some(DeviceFrame::Kind(named))
}

/// Whether what a device comes back with that has left is of the basis that Hello had, under a number that a device gives.
fn is_left(stage: Stage, number: u32, basis: &NamedBasis) -> bool
    ensures { IsTrue result ↔ ((basis_at stage ≡ Some basis.now) × (number % 2 ≡ 0)) }
{
    basis.is_at(stage) && number % 2 == 0
}

/// Whether what a device comes back with that has an offer is of the basis that Hello had, under a number that a device gives.
fn is_offered(stage: Stage, number: u32, basis: &NamedBasis) -> bool
    ensures { IsTrue result
        ↔ ((basis_at stage ≡ Some basis.now) × (number % 2 ≡ 0) × (1 ≤ number)) }
{
    is_left(stage, number, basis) && number >= 1
}

/// Reads the fields of Resume.
fn read_resume<M: Memory>(
    memory: &mut M,
    place: NodePlace,
    body: &[u8],
) -> Result<Option<DeviceFrame>, AllocError>
    requires stage { IsStage place.stage }
    requires fresh { IsFresh place.stage }
    requires size { length body.now ≡ 18 + 4 * steps_at place.stage }
    ensures one { IfOk result (IsOne device_framing place (resume_kind ∷ body.now)) }
    ensures cause { HasCause (M.refusals memory.old) (M.refusals memory.new) result }
{
    let (number, rest) = read_u32(body);
    let (index, rest) = read_u32(rest);
    let (basis, rest) = read_basis(rest);
    let Some(demand) = read_offered(memory, place.stage.steps(), rest)? else {
        return Ok(None);
    };
    if !is_offered(place.stage, number, &basis) {
        return Ok(None);
    }
    Ok(Some(DeviceFrame::Resume(StoredAgent {
        number,
        index,
        basis,
        newest: Some(demand),
    })))
}

/// Reads the fields of ResumeGone.
fn read_resume_gone(place: NodePlace, body: &[u8]) -> Option<DeviceFrame>
    requires fresh { IsFresh place.stage }
    requires size { length body.now ≡ 18 }
    ensures { IsOne device_framing place (resume_gone_kind ∷ body.now) result }
{
    let (number, rest) = read_u32(body);
    let (index, rest) = read_u32(rest);
    let (basis, _rest) = read_basis(rest);
    if !is_left(place.stage, number, &basis) {
        return None;
    }
    Some(DeviceFrame::Resume(StoredAgent {
        number,
        index,
        basis,
        newest: None,
    }))
}

/// Reads the fields of a frame of the parent.
fn read_from_parent(place: NodePlace, kind: u8, body: &[u8]) -> Option<DeviceFrame>
    requires open { IsOpen place.stage }
    requires size { parent_size kind ≡ Some (length body.now + 1) }
    ensures { IsOne device_framing place (kind ∷ body.now) result }
{
    let frame = read_accepted(place.child, kind, body)?;
    Some(DeviceFrame::Parent(frame))
}

/// Reads the fields of a frame of this kind.
fn read_body<M: Memory>(
    memory: &mut M,
    place: NodePlace,
    kind: u8,
    body: &[u8],
) -> Result<Option<DeviceFrame>, AllocError>
    requires place { IsNodePlace place }
    requires size { device_size place.stage kind ≡ Some (length body.now + 1) }
    ensures one { IfOk result (IsOne device_framing place (kind ∷ body.now)) }
    ensures cause { HasCause (M.refusals memory.old) (M.refusals memory.new) result }
{
    match kind {
        HELLO => read_hello(memory, place, body),
        RESUME => read_resume(memory, place, body),
        RESUME_GONE => Ok(read_resume_gone(place, body)),
        OFFER => read_offer(memory, place, body),
        KIND => Ok(read_device_kind(place, body)),
        STATE => read_state(memory, place, body),
        LEAVE => Ok(Some(DeviceFrame::Leave)),
        PRICE | OLD => Ok(read_from_parent(place, kind, body)),
        _ => read_points(memory, place, kind, body),
    }
}

impl StreamFrame for DeviceFrame {
    type Place = NodePlace;

    ghost framing = { device_framing };

    fn size_at(place: NodePlace, kind: u8) -> Option<usize> {
        size_at(place.stage, kind)
    }

    fn read<M: Memory>(
        memory: &mut M,
        place: NodePlace,
        kind: u8,
        body: &[u8],
    ) -> Result<Option<DeviceFrame>, AllocError> {
        read_body(memory, place, kind, body)
    }

    fn place_after(&self, place: NodePlace) -> NodePlace {
        let (stage, kind) = match self {
            DeviceFrame::Hello { basis } => (Stage::Opened { basis: *basis }, place.kind),
            DeviceFrame::Kind(named) => (place.stage.behind(), named.kind()),
            DeviceFrame::Offer { .. }
            | DeviceFrame::Leave
            | DeviceFrame::Parent(_)
            | DeviceFrame::Resume(_) => (place.stage.behind(), place.kind),
        };
        NodePlace {
            child: place.child,
            stage,
            kind,
        }
    }

    fn is_framing() {}
}
