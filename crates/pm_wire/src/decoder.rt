//! Takes a stream in pieces of any size, and gives its whole frames.

ghost use Rattle.std.specs.Prelude.{◌≡◌, ◌+◌, ◌*◌, ◌≤◌, ◌++◌, length, drop, vec_len, is_ok, if◌then◌else◌};
ghost use Rattle.pm_io.specs.Causes.{HasCause, Rose};
ghost use Rattle.pm_wire.specs.Calls.{FeedsPiece, GivesNext};
ghost use Rattle.pm_wire.specs.Decoding.{nothing_fed_at, nothing_fed, HoldsLittle};

use crate::fault::DecodeFault;
use crate::frame::Frame;
use crate::front_frame::{Reading, read_frame};
use crate::stream_frame::StreamFrame;
use pm_io::{Memory, SystemMemory};
use std::alloc::{AllocError, Global};
use std::marker::Model;

/// Takes a stream of frames in pieces of any size, and gives the frames that are whole.
///
/// Contracts see how many bytes the frames given have, the place behind them (as before Hello, or behind a Hello of so many
/// steps), the bytes fed that belong to no frame given, whether a bad frame was told, and how many bytes are in memory.
/// Bytes of frames given are let go: at no time are they more than half of the bytes in memory. Each byte is copied a bounded
/// number of times, however the stream is cut.
#[derive(Drop)]
pub struct FrameDecoder<F: StreamFrame> {
    alloc: Global,
    buffer: Vec<u8>,
    start: usize,
    offset: u64,
    place: F::Place,
    refused: bool,
}

impl<F: StreamFrame> Model for FrameDecoder<F> {
    ghost use Rattle.std.specs.Prelude.{◌*◌, ◌≤◌, drop, length};
    ghost use Rattle.pm_wire.specs.Decoding.{Decoding, AreDecoderFields};

    ghost Value = { Decoding F.Place };

    ghost view = { λ fields. record {
      offset = fields.offset;
      place = fields.place;
      rest = drop fields.start fields.buffer.items;
      refused = fields.refused;
      held = length fields.buffer.items;
    } };

    ghost invariant = { λ fields. AreDecoderFields F.framing fields.start fields.buffer.items
        fields.place fields.refused };
}

/// The decoder of a stream of bids.
pub type Decoder = FrameDecoder<Frame>;

/// Takes the first `start` bytes off if they are at least as many as the others. So for each byte taken off, at most one is
/// moved. The answer is where the others begin now: in the first half of what is left.
fn drop_given(buffer: &mut Vec<u8>, start: usize) -> usize
    requires { start ≤ vec_len buffer.old }
    ensures rest { drop result buffer.new.items ≡ drop start buffer.old.items }
    ensures within { result ≤ vec_len buffer.new }
    ensures half { 2 * result ≤ vec_len buffer.new }
{
    let left = buffer.len() - start;
    if start < left {
        return start;
    }
    buffer.copy_within(start.., 0);
    buffer.truncate(left);
    0
}

/// Appends a piece to the bytes in memory, for which it asks room.
fn append_piece<M: Memory>(
    memory: &mut M,
    buffer: &mut Vec<u8>,
    piece: &[u8],
) -> Result<(), AllocError>
    ensures items { buffer.new.items
        ≡ (if is_ok result then buffer.old.items ++ piece.now else buffer.old.items) }
    ensures cause { HasCause (M.refusals memory.old) (M.refusals memory.new) result }
{
    memory.reserve(buffer, piece.len())?;
    let Ok(()) = buffer.extend_from_slice(piece) else {
        unreachable!()
    };
    Ok(())
}

impl FrameDecoder<Frame> {
    /// A decoder to which nothing was fed. It takes no memory.
    pub fn new(alloc: Global) -> Decoder
        ensures { result ≡ nothing_fed }
    {
        FrameDecoder::at(alloc, None)
    }
}

impl<F: StreamFrame> FrameDecoder<F> {
    /// A decoder to which nothing was fed, of a stream whose first frame is to stand at this place. It takes no memory.
    pub fn at(alloc: Global, place: F::Place) -> FrameDecoder<F>
        requires { F.framing.IsPlace place }
        ensures { result ≡ nothing_fed_at place }
    {
        FrameDecoder {
            alloc,
            buffer: Vec::new(alloc),
            start: 0,
            offset: 0,
            place,
            refused: false,
        }
    }

    /// Takes the next piece of the stream. With it at most 4,294,967,296 bytes are fed. Where an allocation fails nothing
    /// changes.
    pub fn feed(&mut self, piece: &[u8]) -> Result<(), AllocError>
        requires { self.old.offset + length self.old.rest + length piece.now ≤ 4294967296 }
        ensures { FeedsPiece F.framing self.old piece.now result self.new }
    {
        let mut memory = SystemMemory::new(self.alloc);
        self.feed_from(&mut memory, piece)
    }

    /// Takes the next piece as [`FrameDecoder::feed`] does, and asks this memory for its room.
    pub fn feed_from<M: Memory>(&mut self, memory: &mut M, piece: &[u8]) -> Result<(), AllocError>
        requires { self.old.offset + length self.old.rest + length piece.now ≤ 4294967296 }
        ensures takes { FeedsPiece F.framing self.old piece.now result self.new }

        // It fails only where memory was refused.
        ensures cause { HasCause (M.refusals memory.old) (M.refusals memory.new) result }
    {
        append_piece(memory, &mut self.buffer, piece)
    }

    /// Gives the next frame, or None where the bytes left are less than a frame and no bad frame shows. Where a bad frame is
    /// next the answer is its offset, and it stays so. Where an allocation fails nothing changes.
    pub fn next(&mut self) -> Result<Option<F>, DecodeFault>
        requires { self.old.offset + length self.old.rest ≤ 4294967296 }
        ensures { GivesNext F.framing self.old result self.new }
    {
        let mut memory = SystemMemory::new(self.alloc);
        self.next_from(&mut memory)
    }

    /// Gives the next frame as [`FrameDecoder::next`] does, and asks this memory for what the frame holds.
    pub fn next_from<M: Memory>(&mut self, memory: &mut M) -> Result<Option<F>, DecodeFault>
        requires { self.old.offset + length self.old.rest ≤ 4294967296 }
        ensures next { GivesNext F.framing self.old result self.new }

        // Want of memory is told only where memory was refused.
        ensures cause { result ≡ Err DecodeFault.NoMemory
            → Rose (M.refusals memory.old) (M.refusals memory.new) }
        ensures count { M.refusals memory.old ≤ M.refusals memory.new }
    {
        F::is_framing();
        if self.refused {
            return Err(DecodeFault::Bad { at: self.offset });
        }
        match read_frame::<F, M>(memory, self.place, &self.buffer[self.start..])? {
            Reading::Whole { frame, size } => {
                self.start = drop_given(&mut self.buffer, self.start + size);
                self.offset += size as u64;
                self.place = frame.place_after(self.place);
                Ok(Some(frame))
            }
            Reading::Unfinished => Ok(None),
            Reading::Bad => {
                self.refused = true;
                Err(DecodeFault::Bad { at: self.offset })
            }
        }
    }

    /// How many of the bytes fed belong to no frame given.
    pub fn rest(&self) -> usize
        ensures { result ≡ length self.now.rest }
    {
        self.buffer.len() - self.start
    }

    /// How many bytes are in memory: those that belong to no frame given, and at most as many of frames given.
    pub fn bytes_held(&self) -> usize
        ensures count { result ≡ self.now.held }
        ensures little { HoldsLittle self.now }
    {
        self.buffer.len()
    }
}
