//! The frames of the stream to an auctioneer that may restart.

ghost use Rattle.std.specs.Prelude.{◌≡◌, ◌+◌, ◌∷◌, length, Some, IfOk};
ghost use Rattle.pm_wire.specs.Frames.{size_at as bid_size_at};
ghost use Rattle.pm_io.specs.Causes.{HasCause};
ghost use Rattle.pm_wire.specs.Spelling.{IsOne};
ghost use Rattle.pm_frames.specs.Kinds.{resume_kind, expire_kind, bound_kind, bound_size};
ghost use Rattle.pm_frames.specs.Places.{bid_place, IsOpen, IsFresh, IsStage};
ghost use Rattle.pm_frames.specs.Stored.{root_resume_size};
ghost use Rattle.pm_frames.specs.RootFrames.{root_size, root_framing};

use crate::expiry::{is_child, read_expiring};
use crate::kinds::{BOUND, BOUND_SIZE, EXPIRE, EXPIRE_SIZE, RESUME, ROOT_RESUME_HEAD_SIZE};
use crate::limits::{is_bound, read_bound};
use crate::place::Stage;
use crate::stored::{StoredRoot, read_stored_root};
use pm_base::{Limits, MOST_NODES};
use pm_io::Memory;
use pm_wire::{Frame, StreamFrame};
use std::alloc::AllocError;

/// A frame of the stream to an auctioneer.
#[derive(Drop)]
pub enum RootFrame {
    /// A frame of a stream of bids.
    Market(Frame),
    /// The auctioneer is to let a device go, which is this child.
    Expire { child: u16 },
    /// The least and the greatest power that a child may bid, in watts.
    Bound { child: u16, bound: Limits },
    /// What the auctioneer comes back with.
    Resume(StoredRoot),
}

/// How many bytes a frame of this kind has at a stage, if it may stand there.
fn size_at(stage: Stage, kind: u8) -> Option<usize>
    requires { IsStage stage }
    ensures { result ≡ root_size stage kind }
{
    match stage {
        Stage::Opened { .. } if kind == RESUME => Some(ROOT_RESUME_HEAD_SIZE + 4 * MOST_NODES),
        Stage::Opened { .. } | Stage::Running { .. } if kind == EXPIRE => Some(EXPIRE_SIZE),
        Stage::Opened { .. } | Stage::Running { .. } if kind == BOUND => Some(BOUND_SIZE),
        Stage::Start | Stage::Opened { .. } | Stage::Running { .. } => {
            <Frame as StreamFrame>::size_at(stage.bid_place(), kind)
        }
    }
}

/// Reads the fields of a frame of a stream of bids.
fn read_market<M: Memory>(
    memory: &mut M,
    stage: Stage,
    kind: u8,
    body: &[u8],
) -> Result<Option<RootFrame>, AllocError>
    requires stage { IsStage stage }
    requires size { bid_size_at (bid_place stage) kind ≡ Some (length body.now + 1) }
    ensures one { IfOk result (IsOne root_framing stage (kind ∷ body.now)) }
    ensures cause { HasCause (M.refusals memory.old) (M.refusals memory.new) result }
{
    match Frame::read(memory, stage.bid_place(), kind, body)? {
        Some(frame) => Ok(Some(RootFrame::Market(frame))),
        None => Ok(None),
    }
}

/// Reads the fields of Resume.
fn read_resume<M: Memory>(
    memory: &mut M,
    stage: Stage,
    body: &[u8],
) -> Result<Option<RootFrame>, AllocError>
    requires fresh { IsFresh stage }
    requires size { root_resume_size ≡ length body.now + 1 }
    ensures one { IfOk result (IsOne root_framing stage (resume_kind ∷ body.now)) }
    ensures cause { HasCause (M.refusals memory.old) (M.refusals memory.new) result }
{
    let stored = read_stored_root(memory, body)?;
    if !stored.is_accepted(stage) {
        return Ok(None);
    }
    Ok(Some(RootFrame::Resume(stored)))
}

/// Reads the fields of Expire.
fn read_expire(stage: Stage, body: &[u8]) -> Option<RootFrame>
    requires open { IsOpen stage }
    requires size { 3 ≡ length body.now + 1 }
    ensures { IsOne root_framing stage (expire_kind ∷ body.now) result }
{
    let child = read_expiring(body);
    if !is_child(child) {
        return None;
    }
    Some(RootFrame::Expire { child })
}

/// Reads the fields of Bound.
fn read_child_bound(stage: Stage, body: &[u8]) -> Option<RootFrame>
    requires open { IsOpen stage }
    requires size { bound_size ≡ length body.now + 1 }
    ensures { IsOne root_framing stage (bound_kind ∷ body.now) result }
{
    let (child, bound) = read_bound(body);
    if !is_bound(child, &bound) {
        return None;
    }
    Some(RootFrame::Bound { child, bound })
}

/// Reads the fields of a frame of this kind.
fn read_body<M: Memory>(
    memory: &mut M,
    stage: Stage,
    kind: u8,
    body: &[u8],
) -> Result<Option<RootFrame>, AllocError>
    requires stage { IsStage stage }
    requires size { root_size stage kind ≡ Some (length body.now + 1) }
    ensures one { IfOk result (IsOne root_framing stage (kind ∷ body.now)) }
    ensures cause { HasCause (M.refusals memory.old) (M.refusals memory.new) result }
{
    if kind == RESUME {
        return read_resume(memory, stage, body);
    }
    if kind == EXPIRE {
        return Ok(read_expire(stage, body));
    }
    if kind == BOUND {
        return Ok(read_child_bound(stage, body));
    }
    read_market(memory, stage, kind, body)
}

impl StreamFrame for RootFrame {
    type Place = Stage;

    ghost framing = { root_framing };

    fn size_at(place: Stage, kind: u8) -> Option<usize> {
        size_at(place, kind)
    }

    fn read<M: Memory>(
        memory: &mut M,
        place: Stage,
        kind: u8,
        body: &[u8],
    ) -> Result<Option<RootFrame>, AllocError> {
        read_body(memory, place, kind, body)
    }

    fn place_after(&self, place: Stage) -> Stage {
        match self {
            RootFrame::Market(frame) => place.after(frame),
            RootFrame::Expire { .. } | RootFrame::Bound { .. } | RootFrame::Resume(_) => {
                place.behind()
            }
        }
    }

    fn is_framing() {}
}
