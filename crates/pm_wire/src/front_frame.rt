//! Reads the frame at the front of some bytes, or tells why there is none.

ghost use Rattle.std.specs.Prelude.{IfOk};
ghost use Rattle.pm_io.specs.Causes.{HasCause};
ghost use Rattle.pm_wire.specs.Readings.{IsReading};

use crate::stream_frame::StreamFrame;
use pm_io::Memory;
use std::alloc::AllocError;

/// What stands at the front of some bytes.
#[derive(Drop)]
pub(crate) enum Reading<F> {
    /// A frame in the first `size` bytes.
    Whole { frame: F, size: usize },
    /// Fewer bytes than a frame of their kind has.
    Unfinished,
    /// A bad frame.
    Bad,
}

/// Reads what stands at the front of the bytes at this place.
pub(crate) fn read_frame<F: StreamFrame, M: Memory>(
    memory: &mut M,
    place: F::Place,
    bytes: &[u8],
) -> Result<Reading<F>, AllocError>
    requires { F.framing.IsPlace place }
    ensures reading { IfOk result (IsReading F.framing place bytes.now) }
    ensures cause { HasCause (M.refusals memory.old) (M.refusals memory.new) result }
{
    F::is_framing();
    if bytes.is_empty() {
        return Ok(Reading::Unfinished);
    }
    let kind = bytes[0];
    let Some(size) = F::size_at(place, kind) else {
        return Ok(Reading::Bad);
    };
    if bytes.len() < size {
        return Ok(Reading::Unfinished);
    }
    match F::read(memory, place, kind, &bytes[1..size])? {
        Some(frame) => Ok(Reading::Whole { frame, size }),
        None => Ok(Reading::Bad),
    }
}
