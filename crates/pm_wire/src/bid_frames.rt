//! Reads the frames of a stream of bids.

ghost use Rattle.std.specs.Prelude.{◌≡◌, ◌+◌, ◌∷◌, ◌≤◌, ◌*◌, length, IsTrue, ◌↔◌, IfOk, IfSome, Some, None, FitsSigned};
ghost use Rattle.std.specs.Int.{w32};
ghost use Rattle.std.specs.List.{AllByRecursion};
ghost use Rattle.pm_io.specs.Causes.{HasCause};
ghost use Rattle.pm_base.specs.Limits.{AreSteps};
ghost use Rattle.pm_bid.specs.Checks.{checked_bid};
ghost use Rattle.pm_wire.specs.Kinds.{hello_kind, bid_kind, gone_kind};
ghost use Rattle.pm_wire.specs.Frames.{size_at, place_after, demand_bytes, IsSender, MayStand, bid_framing};
ghost use Rattle.pm_wire.specs.Spelling.{IsOne};

use crate::frame::Frame;
use crate::kinds::{BID, BID_HEAD_SIZE, CLEAR, CLEAR_SIZE, GONE, GONE_SIZE, HELLO, HELLO_SIZE};
use crate::number_fields::{read_i32, read_u16, read_u32};
use crate::stream_frame::StreamFrame;
use crate::zeros::zero_bid;
use pm_base::{DEMAND_LIMIT, MOST_NODES};
use pm_basis::Basis;
use pm_bid::{ArrayBid, uncounted};
use pm_io::Memory;
use std::alloc::AllocError;

/// How many bytes a frame of this kind has, if it may stand at this place: before Hello, or behind it.
fn size_at(steps: Option<usize>, kind: u8) -> Option<usize>
    requires { IfSome steps AreSteps }
    ensures size { result ≡ size_at steps kind }
    ensures positive { IfSome result (λ size. 1 ≤ size) }
{
    match steps {
        None => {
            if kind == HELLO {
                return Some(HELLO_SIZE);
            }
        }
        Some(steps) => {
            if kind == BID {
                return Some(BID_HEAD_SIZE + 4 * steps);
            }
            if kind == GONE {
                return Some(GONE_SIZE);
            }
            if kind == CLEAR {
                return Some(CLEAR_SIZE);
            }
        }
    }
    None
}

/// Whether a frame may come from this child, under this number.
fn is_sender(child: u16, number: u32) -> bool
    ensures { IsTrue result ↔ IsSender child number }
{
    1 <= child && usize::from(child) <= MOST_NODES && 1 <= number
}

/// Reads the fields of Hello.
fn read_hello(body: &[u8]) -> Option<Frame>
    requires { length body.now ≡ 10 }
    ensures { IsOne bid_framing None (hello_kind ∷ body.now) result }
{
    let (min, rest) = read_i32(body);
    let (max, rest) = read_i32(rest);
    let (steps, _rest) = read_u16(rest);
    match Basis::new(min, max, i64::from(steps)) {
        Ok(basis) => Some(Frame::Hello { basis }),
        Err(_) => None,
    }
}

/// Fills the bid with the demands of these bytes, four bytes each, and tells whether they are a
/// bid: no demand is above the one before, and each is within the limit of a demand.
///
/// One pass finds both: if no demand is above the one before, the first is the greatest and the
/// last the least.
fn fill(bid: &mut ArrayBid, bytes: &[u8]) -> bool
    requires { length bytes.now ≡ 4 * length bid.old }
    ensures bytes { bytes.now ≡ demand_bytes bid.new }
    ensures fit { AllByRecursion (λ z. FitsSigned w32 z) bid.new }
    ensures steps { length bid.new ≡ length bid.old }
    ensures bid { IsTrue result ↔ (checked_bid (length bid.new) bid.new ≡ Ok bid.new) }
{
    let mut counter = uncounted();
    let mut rest = bytes;
    let mut before = DEMAND_LIMIT;
    let mut falls = true;
    for step in 0..bid.steps() {
        let (demand, behind) = read_i32(rest);
        falls &= demand <= before;
        bid.set(step, demand, &mut counter);
        before = demand;
        rest = behind;
    }
    falls && -DEMAND_LIMIT <= before
}

/// Reads the fields of a bid of so many steps.
fn read_bid<M: Memory>(
    memory: &mut M,
    steps: usize,
    body: &[u8],
) -> Result<Option<Frame>, AllocError>
    requires steps { AreSteps steps }
    requires length { length body.now ≡ 6 + 4 * steps }
    ensures one { IfOk result (IsOne bid_framing (Some steps) (bid_kind ∷ body.now)) }
    ensures cause { HasCause (M.refusals memory.old) (M.refusals memory.new) result }
{
    let (child, rest) = read_u16(body);
    let (number, rest) = read_u32(rest);
    let mut demand = zero_bid(memory, steps)?;
    if !fill(&mut demand, rest) {
        return Ok(None);
    }
    if !is_sender(child, number) {
        return Ok(None);
    }
    Ok(Some(Frame::Bid {
        child,
        number,
        demand,
    }))
}

/// Reads the fields of Gone, behind a Hello of so many steps.
fn read_gone(steps: usize, body: &[u8]) -> Option<Frame>
    requires { length body.now ≡ 6 }
    ensures { IsOne bid_framing (Some steps) (gone_kind ∷ body.now) result }
{
    let (child, rest) = read_u16(body);
    let (number, _rest) = read_u32(rest);
    if !is_sender(child, number) {
        return None;
    }
    Some(Frame::Gone { child, number })
}

/// Reads the fields of a frame of this kind.
fn read_body<M: Memory>(
    memory: &mut M,
    place: Option<usize>,
    kind: u8,
    body: &[u8],
) -> Result<Option<Frame>, AllocError>
    requires steps { IfSome place AreSteps }
    requires size { size_at place kind ≡ Some (length body.now + 1) }
    ensures one { IfOk result (IsOne bid_framing place (kind ∷ body.now)) }
    ensures cause { HasCause (M.refusals memory.old) (M.refusals memory.new) result }
{
    let Some(steps) = place else {
        return Ok(read_hello(body));
    };
    if kind == BID {
        return read_bid(memory, steps, body);
    }
    if kind == GONE {
        return Ok(read_gone(steps, body));
    }
    Ok(Some(Frame::Clear))
}

impl StreamFrame for Frame {
    type Place = Option<usize>;

    ghost framing = { bid_framing };

    fn size_at(place: Option<usize>, kind: u8) -> Option<usize> {
        size_at(place, kind)
    }

    fn read<M: Memory>(
        memory: &mut M,
        place: Option<usize>,
        kind: u8,
        body: &[u8],
    ) -> Result<Option<Frame>, AllocError> {
        read_body(memory, place, kind, body)
    }

    fn place_after(&self, place: Option<usize>) -> Option<usize> {
        match self {
            Frame::Hello { basis } => Some(basis.steps()),
            Frame::Bid { .. } | Frame::Gone { .. } | Frame::Clear => place,
        }
    }

    fn is_framing() {}
}
