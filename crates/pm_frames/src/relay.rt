//! The frames of the stream to a relay.

ghost use Rattle.std.specs.Prelude.{◌≡◌, ◌≢◌, ◌+◌, ◌≤◌, ◌∷◌, ◌↔◌, ◌==◌, if◌then◌else◌, IsTrue, length};
ghost use Rattle.std.specs.Prelude.{Some, None, IfOk};
ghost use Rattle.pm_io.specs.Causes.{HasCause};
ghost use Rattle.pm_base.specs.Limits.{most_steps};
ghost use Rattle.pm_wire.specs.Kinds.{clear_kind};
ghost use Rattle.pm_wire.specs.Frames.{size_at as bid_size_at};
ghost use Rattle.pm_wire.specs.Spelling.{IsOne};
ghost use Rattle.pm_frames.specs.Kinds.{resume_kind, expire_kind, limits_kind, bound_kind, limits_size, bound_size};
ghost use Rattle.pm_frames.specs.Places.{bid_place, IsOpen, IsFresh, IsStage};
ghost use Rattle.pm_frames.specs.Expiries.{IsExpireAccepted};
ghost use Rattle.pm_frames.specs.LimitsFrames.{IsGivenAccepted, IsBoundAccepted};
ghost use Rattle.pm_frames.specs.ParentFrames.{parent_size};
ghost use Rattle.pm_frames.specs.Stored.{relay_resume_size};
ghost use Rattle.pm_frames.specs.RelayFrames.{relay_size, relay_size_open, relay_framing, IsForChild};

use crate::expiry::{is_child, read_expiring};
use crate::kinds::{
    BID, BID_HEAD_SIZE, BOUND, BOUND_SIZE, EXPIRE, EXPIRE_SIZE, GONE, GONE_SIZE, HELLO, HELLO_SIZE,
    LIMITS, LIMITS_SIZE, OLD, OLD_SIZE, PRICE, PRICE_SIZE, RELAY_RESUME_HEAD_SIZE, RESUME, SEND,
    SEND_SIZE,
};
use crate::limits::{is_bound, is_given, read_bound, read_given};
use crate::parent::{ParentFrame, read_accepted};
use crate::place::{RelayPlace, Stage};
use crate::stored::{StoredRelay, read_stored_relay};
use crate::terms::RelayTerms;
use pm_base::{Limits, MOST_NODES};
use pm_io::Memory;
use pm_wire::{Frame, StreamFrame};
use std::alloc::AllocError;

/// A frame of the stream to a relay.
#[derive(Drop)]
pub enum RelayFrame {
    /// Hello, or the Bid or Gone of a child, as they stand in a stream of bids.
    Child(Frame),
    /// A frame of the relay's parent.
    Parent(ParentFrame),
    /// The relay is to send its bid.
    Send,
    /// The relay is to let a device go, which is this child.
    Expire { child: u16 },
    /// The relay has these limits from now on, which are given under this number.
    Limits { number: u32, limits: Limits },
    /// The least and the greatest power that a child may bid, in watts.
    Bound { child: u16, bound: Limits },
    /// What the relay comes back with.
    Resume(StoredRelay),
}

/// How many bytes a frame of this kind has after a Hello of so many steps.
fn size_open(steps: usize, kind: u8) -> Option<usize>
    requires { steps ≤ most_steps }
    ensures { result ≡ relay_size_open steps kind }
{
    match kind {
        BID => Some(BID_HEAD_SIZE + 4 * steps),
        GONE => Some(GONE_SIZE),
        OLD => Some(OLD_SIZE),
        PRICE => Some(PRICE_SIZE),
        SEND => Some(SEND_SIZE),
        EXPIRE => Some(EXPIRE_SIZE),
        LIMITS => Some(LIMITS_SIZE),
        BOUND => Some(BOUND_SIZE),
        _ => None,
    }
}

/// How many bytes a first frame of this kind has.
fn size_first(kind: u8) -> Option<usize>
    ensures { result ≡ relay_size Stage.Start kind }
{
    if kind == HELLO {
        Some(HELLO_SIZE)
    } else {
        None
    }
}

/// How many bytes a frame of this kind has directly after a Hello of so many steps.
fn size_fresh(steps: usize, kind: u8) -> Option<usize>
    requires { steps ≤ most_steps }
    ensures { result ≡ (if kind == resume_kind then Some relay_resume_size
        else relay_size_open steps kind) }
{
    if kind == RESUME {
        return Some(RELAY_RESUME_HEAD_SIZE + 4 * MOST_NODES);
    }
    size_open(steps, kind)
}

/// How many bytes a frame of this kind has at a stage, if it may stand there.
fn size_at(stage: Stage, kind: u8) -> Option<usize>
    requires { IsStage stage }
    ensures { result ≡ relay_size stage kind }
{
    match stage {
        Stage::Start => size_first(kind),
        Stage::Opened { basis } => size_fresh(basis.steps(), kind),
        Stage::Running { basis } => size_open(basis.steps(), kind),
    }
}

/// Whether the frame is no Bid or Gone in the place in which limits are given.
fn is_for_child(terms: &RelayTerms, frame: &Frame) -> bool
    ensures { IsTrue result ↔ IsForChild terms.now frame.now }
{
    match frame {
        Frame::Bid { child, .. } | Frame::Gone { child, .. } => !terms.is_giver(*child),
        Frame::Hello { .. } | Frame::Clear => true,
    }
}

/// Reads the fields of Hello, or of the Bid or Gone of a child.
fn read_child<M: Memory>(
    memory: &mut M,
    place: RelayPlace,
    kind: u8,
    body: &[u8],
) -> Result<Option<RelayFrame>, AllocError>
    requires stage { IsStage place.stage }
    requires size { bid_size_at (bid_place place.stage) kind ≡ Some (length body.now + 1) }
    requires kind { kind ≢ clear_kind }
    ensures one { IfOk result (IsOne relay_framing place (kind ∷ body.now)) }
    ensures cause { HasCause (M.refusals memory.old) (M.refusals memory.new) result }
{
    let Some(frame) = Frame::read(memory, place.stage.bid_place(), kind, body)? else {
        return Ok(None);
    };
    if !is_for_child(&place.terms, &frame) {
        return Ok(None);
    }
    Ok(Some(RelayFrame::Child(frame)))
}

/// Reads the fields of a frame of the parent.
fn read_from_parent(place: RelayPlace, kind: u8, body: &[u8]) -> Option<RelayFrame>
    requires open { IsOpen place.stage }
    requires size { parent_size kind ≡ Some (length body.now + 1) }
    ensures { IsOne relay_framing place (kind ∷ body.now) result }
{
    let frame = read_accepted(place.child, kind, body)?;
    Some(RelayFrame::Parent(frame))
}

/// Reads the fields of Resume.
fn read_resume<M: Memory>(
    memory: &mut M,
    place: RelayPlace,
    body: &[u8],
) -> Result<Option<RelayFrame>, AllocError>
    requires fresh { IsFresh place.stage }
    requires size { relay_resume_size ≡ length body.now + 1 }
    ensures one { IfOk result (IsOne relay_framing place (resume_kind ∷ body.now)) }
    ensures cause { HasCause (M.refusals memory.old) (M.refusals memory.new) result }
{
    let stored = read_stored_relay(memory, body)?;
    if !stored.is_accepted(place.stage, &place.terms) {
        return Ok(None);
    }
    Ok(Some(RelayFrame::Resume(stored)))
}

/// Whether a child has this number, which is not the place in which limits are given.
fn is_expiring(terms: &RelayTerms, child: u16) -> bool
    ensures { IsTrue result ↔ (IsExpireAccepted child × ¬ (terms.now.giver ≡ Some child)) }
{
    is_child(child) && !terms.is_giver(child)
}

/// Whether limits may be given, and these under this number.
fn are_given(terms: &RelayTerms, number: u32, limits: &Limits) -> bool
    ensures { IsTrue result ↔ (¬ (terms.now.giver ≡ None) × IsGivenAccepted number limits.now) }
{
    terms.giver.is_some() && is_given(number, limits)
}

/// Whether a child may have this bound, and its number is not the place in which limits are given.
fn is_childs_bound(terms: &RelayTerms, child: u16, bound: &Limits) -> bool
    ensures { IsTrue result ↔ (IsBoundAccepted child bound.now × ¬ (terms.now.giver ≡ Some child)) }
{
    is_bound(child, bound) && !terms.is_giver(child)
}

/// Reads the fields of Expire.
fn read_expire(place: RelayPlace, body: &[u8]) -> Option<RelayFrame>
    requires open { IsOpen place.stage }
    requires size { 3 ≡ length body.now + 1 }
    ensures { IsOne relay_framing place (expire_kind ∷ body.now) result }
{
    let child = read_expiring(body);
    if !is_expiring(&place.terms, child) {
        return None;
    }
    Some(RelayFrame::Expire { child })
}

/// Reads the fields of Limits.
fn read_new_limits(place: RelayPlace, body: &[u8]) -> Option<RelayFrame>
    requires open { IsOpen place.stage }
    requires size { limits_size ≡ length body.now + 1 }
    ensures { IsOne relay_framing place (limits_kind ∷ body.now) result }
{
    let (number, limits) = read_given(body);
    if !are_given(&place.terms, number, &limits) {
        return None;
    }
    Some(RelayFrame::Limits { number, limits })
}

/// Reads the fields of Bound.
fn read_child_bound(place: RelayPlace, body: &[u8]) -> Option<RelayFrame>
    requires open { IsOpen place.stage }
    requires size { bound_size ≡ length body.now + 1 }
    ensures { IsOne relay_framing place (bound_kind ∷ body.now) result }
{
    let (child, bound) = read_bound(body);
    if !is_childs_bound(&place.terms, child, &bound) {
        return None;
    }
    Some(RelayFrame::Bound { child, bound })
}

/// Reads the fields of a frame of this kind.
fn read_body<M: Memory>(
    memory: &mut M,
    place: RelayPlace,
    kind: u8,
    body: &[u8],
) -> Result<Option<RelayFrame>, AllocError>
    requires stage { IsStage place.stage }
    requires size { relay_size place.stage kind ≡ Some (length body.now + 1) }
    ensures one { IfOk result (IsOne relay_framing place (kind ∷ body.now)) }
    ensures cause { HasCause (M.refusals memory.old) (M.refusals memory.new) result }
{
    match kind {
        RESUME => read_resume(memory, place, body),
        SEND => Ok(Some(RelayFrame::Send)),
        EXPIRE => Ok(read_expire(place, body)),
        LIMITS => Ok(read_new_limits(place, body)),
        BOUND => Ok(read_child_bound(place, body)),
        PRICE | OLD => Ok(read_from_parent(place, kind, body)),
        _ => read_child(memory, place, kind, body),
    }
}

impl StreamFrame for RelayFrame {
    type Place = RelayPlace;

    ghost framing = { relay_framing };

    fn size_at(place: RelayPlace, kind: u8) -> Option<usize> {
        size_at(place.stage, kind)
    }

    fn read<M: Memory>(
        memory: &mut M,
        place: RelayPlace,
        kind: u8,
        body: &[u8],
    ) -> Result<Option<RelayFrame>, AllocError> {
        read_body(memory, place, kind, body)
    }

    fn place_after(&self, place: RelayPlace) -> RelayPlace {
        let stage = match self {
            RelayFrame::Child(frame) => place.stage.after(frame),
            RelayFrame::Parent(_)
            | RelayFrame::Send
            | RelayFrame::Expire { .. }
            | RelayFrame::Limits { .. }
            | RelayFrame::Bound { .. }
            | RelayFrame::Resume(_) => place.stage.behind(),
        };
        RelayPlace {
            child: place.child,
            terms: place.terms,
            stage,
        }
    }

    fn is_framing() {}
}
