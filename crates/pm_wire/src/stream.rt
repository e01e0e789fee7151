//! Serves a stream from a source to a sink, whatever its frames are, and tells how it ended.

ghost use Rattle.std.specs.Prelude.{◌≡◌, ◌⊎◌, Some, ◌<◌, ◌≤◌, ◌++◌, ℕ, List, [], length, take, OnOk, IfErr};
ghost use Rattle.std.specs.Io.KnownBytes.{Appends};
ghost use Rattle.pm_io.specs.Causes.{Rose};
ghost use Rattle.pm_io.specs.Peers.{MayWriteAll};
ghost use Rattle.pm_wire.specs.Decoding.{nothing_fed_at};
ghost use Rattle.pm_wire.specs.Memory.{piece_limit};
ghost use Rattle.pm_wire.specs.Taking.{AnswersFrom};
ghost use Rattle.pm_wire.specs.Services.{fault_bytes, EndsSo};
ghost use Rattle.pm_wire.specs.Due.{EndsAsDue};
ghost use Rattle.pm_wire.specs.Moments.{AsksWhatIsDue};
ghost use Rattle.pm_wire.specs.SettingUp.{EndsSettingUp};

use crate::answer::Reply;
use crate::decoder::FrameDecoder;
use crate::fault::DecodeFault;
use crate::kinds::FAULT_SIZE;
use crate::pieces::take_piece;
use crate::service::Service;
use crate::stream_frame::StreamFrame;
use pm_io::{Memory, Peer, WriteFault, tell_all};
use std::alloc::Global;

/// The most bytes of a stream.
pub const STREAM_LIMIT: usize = 1_073_741_824;

/// How the service of a stream ended.
#[derive(Clone, Copy, Debug, PartialEq, Eq)]
pub enum Served {
    /// The input was read to its end and is a list of frames.
    Done,
    /// A frame is bad, or the input ends within one. Its fault was written.
    Refused,
    /// More than 1,073,741,824 bytes were taken, and no bad frame shows in them.
    TooLong,
    /// The source failed.
    ReadFault,
    /// The sink failed.
    WriteFault,
    /// An allocation failed.
    NoMemory,
}

/// Writes the answers that were appended so far, and lets them go.
fn flush<W: Peer>(wire: &mut W, out: &mut Vec<u8>) -> Result<(), WriteFault>
    requires next { MayWriteAll W.left W.held W.becomes W.may_write wire.old out.old.items }
    ensures all { OnOk result (Appends (W.held wire.old) (W.held wire.new) out.old.items) }
    ensures empty { OnOk result (out.new.items ≡ []) }
    ensures prefix { IfErr result (λ fault.
        Appends (W.held wire.old) (W.held wire.new) (take fault.written out.old.items)) }
    ensures proper { IfErr result (λ fault. fault.written < length out.old.items) }
    ensures left { W.left wire.new ≡ W.left wire.old }
    ensures becomes { W.becomes wire.old wire.new }
    ensures read_faults { W.read_faults wire.new ≡ W.read_faults wire.old }
    ensures count { W.write_faults wire.old ≤ W.write_faults wire.new }
    ensures cause { IfErr result (λ fault.
        Rose (W.write_faults wire.old) (W.write_faults wire.new)) }
{
    tell_all(wire, out)?;
    out.clear();
    Ok(())
}

/// Appends the fault of the frame at this offset to the answers, and writes them.
fn refuse<W: Peer, M: Memory>(
    memory: &mut M,
    wire: &mut W,
    out: &mut Vec<u8>,
    offset: u64,
) -> Served
    requires next { MayWriteAll W.left W.held W.becomes W.may_write wire.old
        (out.old.items ++ fault_bytes offset) }
    ensures either { (result ≡ Served.Refused) ⊎ (result ≡ Served.WriteFault)
        ⊎ (result ≡ Served.NoMemory) }
    ensures refused { result ≡ Served.Refused
        → Appends (W.held wire.old) (W.held wire.new)
        (out.old.items ++ fault_bytes offset) }
    ensures write_fault { result ≡ Served.WriteFault →
        Rose (W.write_faults wire.old) (W.write_faults wire.new)
        × ((written : ℕ) × (written < length (out.old.items ++ fault_bytes offset))
        × Appends (W.held wire.old) (W.held wire.new)
        (take written (out.old.items ++ fault_bytes offset))) }
    ensures no_memory { result ≡ Served.NoMemory → wire.new ≡ wire.old }
    ensures cause { result ≡ Served.NoMemory
        → Rose (M.refusals memory.old) (M.refusals memory.new) }
    ensures memory_count { M.refusals memory.old ≤ M.refusals memory.new }
    ensures left { W.left wire.new ≡ W.left wire.old }
    ensures becomes { W.becomes wire.old wire.new }
    ensures read_faults { W.read_faults wire.new ≡ W.read_faults wire.old }
    ensures count { W.write_faults wire.old ≤ W.write_faults wire.new }
{
    if memory.reserve(out, FAULT_SIZE).is_err() {
        return Served::NoMemory;
    }
    let Ok(()) = (Reply::Fault { offset }).write(out) else {
        unreachable!()
    };
    match flush(wire, out) {
        Ok(()) => Served::Refused,
        Err(_) => Served::WriteFault,
    }
}

/// Serves the stream by a decoder and a service that took nothing, and tells how it ended.
fn run<F: StreamFrame, V: Service<F>, W: Peer, M: Memory>(
    memory: &mut M,
    wire: &mut W,
    decoder: &mut FrameDecoder<F>,
    service: &mut V,
    piece: &mut [u8],
    out: &mut Vec<u8>,
) -> Served
    requires decoder { decoder.old ≡ nothing_fed_at decoder.old.place }
    requires place { F.framing.IsPlace decoder.old.place }
    requires service { V.begins decoder.old.place service.old }
    requires out { out.old.items ≡ [] }
    requires some { 1 ≤ length piece.old }
    requires few { length piece.old ≤ piece_limit }
    requires asks { AsksWhatIsDue W.left W.held W.becomes W.may_read W.may_write F.framing
        decoder.old.place (AnswersFrom V.answers service.old) wire.old }
    ensures ends { EndsSo F.framing decoder.old.place (AnswersFrom V.answers service.old)
        (W.left wire.old) (W.left wire.new) (W.held wire.old) (W.held wire.new)
        (Rose (W.read_faults wire.old) (W.read_faults wire.new))
        (Rose (W.write_faults wire.old) (W.write_faults wire.new)) result }
    ensures no_memory { result ≡ Served.NoMemory
        → Rose (M.refusals memory.old) (M.refusals memory.new)
        ⊎ EndsSettingUp F.framing decoder.old.place V.sets_up (length piece.old)
        (W.left wire.old) (W.left wire.new) }
    ensures becomes { W.becomes wire.old wire.new }
    ensures source_count { W.read_faults wire.old ≤ W.read_faults wire.new }
    ensures sink_count { W.write_faults wire.old ≤ W.write_faults wire.new }
    ensures memory_count { M.refusals memory.old ≤ M.refusals memory.new }
{
    F::is_framing();
    let mut taken = 0;
    while taken <= STREAM_LIMIT {
        let count = match wire.read(piece) {
            Ok(count) => count,
            Err(_) => return Served::ReadFault,
        };
        if count == 0 {
            let rest = decoder.rest();
            if rest > 0 {
                return refuse(memory, wire, out, (taken - rest) as u64);
            }
            return Served::Done;
        }
        taken += count;
        match take_piece(decoder, service, memory, &piece[..count], out) {
            Ok(()) => {}
            Err(DecodeFault::Bad { at }) => return refuse(memory, wire, out, at),
            Err(DecodeFault::NoMemory) => return Served::NoMemory,
        }
        if flush(wire, out).is_err() {
            return Served::WriteFault;
        }
    }
    Served::TooLong
}

/// Serves a stream of frames from a place on: takes one after the other, and appends the answers of the service to the sink. The
/// answers to a piece of the stream are written before the next piece is read into `piece`, which has at most 65,536 bytes. The
/// memory that is asked for beside it is bounded by a piece, a frame and its answers, and not by the stream.
pub fn serve_peer<F: StreamFrame, V: Service<F>, W: Peer, M: Memory>(
    alloc: Global,
    memory: &mut M,
    wire: &mut W,
    place: F::Place,
    service: &mut V,
    piece: &mut [u8],
) -> Served
    requires place { F.framing.IsPlace place }
    requires service { V.begins place service.old }
    requires some { 1 ≤ length piece.old }
    requires few { length piece.old ≤ piece_limit }

    // At each read, all whole frames of the bytes taken were answered. At each write, what was written before and what is
    // written now are together what is due for these frames. A peer may ask for what follows from that, and for no more.
    requires asks { AsksWhatIsDue W.left W.held W.becomes W.may_read W.may_write F.framing place
        (AnswersFrom V.answers service.old) wire.old }

    // What was read and written, by how it ends. The two faults come only where a count rose.
    ensures ends { EndsSo F.framing place (AnswersFrom V.answers service.old)
        (W.left wire.old) (W.left wire.new) (W.held wire.old) (W.held wire.new)
        (Rose (W.read_faults wire.old) (W.read_faults wire.new))
        (Rose (W.write_faults wire.old) (W.write_faults wire.new)) result }

    // If the source tells what it has, this decides how the service ends, except for a failure.
    ensures due { (all : List ℕ) → W.left wire.old ≡ Some all →
        EndsAsDue F.framing place (AnswersFrom V.answers service.old) all
        (W.left wire.old) (W.left wire.new) (W.held wire.old) (W.held wire.new)
        (Rose (W.read_faults wire.old) (W.read_faults wire.new))
        (Rose (W.write_faults wire.old) (W.write_faults wire.new)) result }

    // Want of memory ends it only where memory was refused, but within the piece in which a frame sets the service up.
    ensures no_memory { result ≡ Served.NoMemory
        → Rose (M.refusals memory.old) (M.refusals memory.new)
        ⊎ EndsSettingUp F.framing place V.sets_up (length piece.old)
        (W.left wire.old) (W.left wire.new) }
    ensures becomes { W.becomes wire.old wire.new }
    ensures source_count { W.read_faults wire.old ≤ W.read_faults wire.new }
    ensures sink_count { W.write_faults wire.old ≤ W.write_faults wire.new }
    ensures memory_count { M.refusals memory.old ≤ M.refusals memory.new }
{
    F::is_framing();
    let mut decoder = FrameDecoder::at(alloc, place);
    let mut out = Vec::new(alloc);
    run(memory, wire, &mut decoder, service, piece, &mut out)
}
