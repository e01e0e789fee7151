//! Serves the market to the children whose frames come on a stream.

ghost use Rattle.std.specs.Prelude.{◌≡◌, ◌⊎◌, Some, None, ◌≤◌, ℕ, List};
ghost use Rattle.pm_io.specs.Causes.{Rose};
ghost use Rattle.pm_wire.specs.Frames.{bid_framing};
ghost use Rattle.pm_wire.specs.Answers.{AreReplies};
ghost use Rattle.pm_wire.specs.Services.{EndsSo};
ghost use Rattle.pm_wire.specs.Due.{EndsAsDue};
ghost use Rattle.pm_wire.specs.Moments.{AsksWhatIsDue};
ghost use Rattle.pm_wire.specs.SettingUp.{piece_size, IsHello, EndsSettingUp};

use crate::server::Server;
use crate::stream::{Served, serve_peer};
use pm_io::{Memory, Peer, Sink, Source, SystemMemory, Wire};
use std::alloc::Global;

/// How many bytes one read asks for.
const PIECE: usize = 16_384;

/// Serves the market to the children whose frames come from the peer: takes the frames of the stream one after the other, and
/// writes the answers. The answers to a piece of the stream are written before the next piece is read. The memory that is taken
/// is bounded by a piece, a frame and the children, and not by the stream.
///
/// What is written on Done and Refused is a function of the bytes that the peer had, however it cut them
/// ([`replies_are_of_the_bytes`](crate::replies_are_of_the_bytes)).
pub fn serve_market<W: Peer, M: Memory>(alloc: Global, memory: &mut M, wire: &mut W) -> Served
    // At each read, all whole frames of the bytes taken were answered. At each write, what was written before and what is
    // written now are together what is due for these frames. A peer may ask for what follows from that, whether the call
    // returns or not.
    requires { AsksWhatIsDue W.left W.held W.becomes W.may_read W.may_write bid_framing None
        AreReplies wire.old }

    // What was read and written, by how it ends. The two faults come only where a count rose.
    ensures ends { EndsSo bid_framing None AreReplies
        (W.left wire.old) (W.left wire.new) (W.held wire.old) (W.held wire.new)
        (Rose (W.read_faults wire.old) (W.read_faults wire.new))
        (Rose (W.write_faults wire.old) (W.write_faults wire.new)) result }

    // If the source tells what it has, this decides how the service ends, except for a failure.
    ensures due { (all : List ℕ) → W.left wire.old ≡ Some all →
        EndsAsDue bid_framing None AreReplies all
        (W.left wire.old) (W.left wire.new) (W.held wire.old) (W.held wire.new)
        (Rose (W.read_faults wire.old) (W.read_faults wire.new))
        (Rose (W.write_faults wire.old) (W.write_faults wire.new)) result }

    // Want of memory ends it only where memory was refused, but within the piece with Hello.
    ensures no_memory { result ≡ Served.NoMemory
        → Rose (M.refusals memory.old) (M.refusals memory.new)
        ⊎ EndsSettingUp bid_framing None IsHello piece_size (W.left wire.old) (W.left wire.new) }
    ensures becomes { W.becomes wire.old wire.new }
    ensures source_count { W.read_faults wire.old ≤ W.read_faults wire.new }
    ensures sink_count { W.write_faults wire.old ≤ W.write_faults wire.new }
    ensures memory_count { M.refusals memory.old ≤ M.refusals memory.new }
{
    let mut server = Server::new(alloc);
    let mut piece = [0u8; PIECE];
    serve_peer(alloc, memory, wire, None, &mut server, &mut piece)
}

/// Serves the market to the children whose frames come from the source, and appends the answers to the sink, as [`serve_market`]
/// does.
pub fn serve<S: Source, K: Sink>(alloc: Global, source: &mut S, sink: &mut K) -> Served
    // What was read and appended, by how it ends. The two faults come only where a count rose.
    ensures ends { EndsSo bid_framing None AreReplies
        (S.left source.old) (S.left source.new) (K.held sink.old) (K.held sink.new)
        (Rose (S.faults source.old) (S.faults source.new))
        (Rose (K.faults sink.old) (K.faults sink.new)) result }

    // If the source tells what it has, this decides how the service ends, except for a failure.
    ensures due { (all : List ℕ) → S.left source.old ≡ Some all →
        EndsAsDue bid_framing None AreReplies all
        (S.left source.old) (S.left source.new) (K.held sink.old) (K.held sink.new)
        (Rose (S.faults source.old) (S.faults source.new))
        (Rose (K.faults sink.old) (K.faults sink.new)) result }
    ensures source_count { S.faults source.old ≤ S.faults source.new }
    ensures sink_count { K.faults sink.old ≤ K.faults sink.new }
{
    let mut memory = SystemMemory::new(alloc);
    let mut wire = Wire { source, sink };
    serve_market(alloc, &mut memory, &mut wire)
}
