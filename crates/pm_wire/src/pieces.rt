//! Takes each piece of the stream, and appends the answers to its whole frames.

ghost use Rattle.std.specs.Prelude.{◌≡◌, ◌⊎◌, ◌+◌, ◌*◌, ◌<◌, ◌≤◌, ℕ, length, OnOk, IfErr};
ghost use Rattle.pm_io.specs.Causes.{Rose};
ghost use Rattle.pm_wire.specs.Decoding.{with_piece};
ghost use Rattle.pm_wire.specs.Memory.{piece_limit, rest_limit, held_limit, answers_limit};
ghost use Rattle.pm_wire.specs.SettingUp.{StopsSettingUp};
ghost use Rattle.pm_wire.specs.Taking.{Agrees, TakesWhole, TakesUpToBad, count_limit};

use crate::decoder::FrameDecoder;
use crate::fault::DecodeFault;
use crate::service::Service;
use crate::stream_frame::StreamFrame;
use pm_io::Memory;

/// Takes all frames that are whole, and appends the answers to them.
pub(crate) fn take_frames<F: StreamFrame, V: Service<F>, M: Memory>(
    decoder: &mut FrameDecoder<F>,
    service: &mut V,
    memory: &mut M,
    out: &mut Vec<u8>,
) -> Result<(), DecodeFault>
    requires agrees { Agrees F.framing V.begins V.answers decoder.old service.old }
    requires fits { decoder.old.offset + length decoder.old.rest < count_limit }
    // What is in memory: fewer than `held_limit` bytes once a piece was fed, and fewer than `rest_limit` once its frames were taken.
    requires held { decoder.old.held < held_limit F.framing.most_bytes }
    ensures rest { OnOk result (length decoder.new.rest < F.framing.most_bytes) }
    ensures held { OnOk result (decoder.new.held < rest_limit F.framing.most_bytes) }
    ensures answers { length out.new.items ≤ length out.old.items + V.most_answers * length
        decoder.old.rest }
    ensures taken { OnOk result (TakesWhole F.framing V.answers decoder.old decoder.new service.old
        service.new out.old.items out.new.items) }
    ensures bad { IfErr result (λ fault. (at : ℕ) → fault ≡ DecodeFault.Bad at →
        TakesUpToBad F.framing V.answers decoder.old decoder.new service.old
        service.new out.old.items out.new.items at) }
    // Memory was refused, or the last frame given sets the service up.
    ensures no_memory { result ≡ Err DecodeFault.NoMemory
        → Rose (M.refusals memory.old) (M.refusals memory.new)
        ⊎ StopsSettingUp F.framing V.sets_up decoder.old decoder.new }
    ensures count { M.refusals memory.old ≤ M.refusals memory.new }
{
    F::is_framing();
    while let Some(frame) = decoder.next_from(memory)? {
        service.answer(memory, &frame, out)?;
    }
    Ok(())
}

/// Takes the next piece of the stream and all frames that are whole with it, and appends the answers to them.
pub(crate) fn take_piece<F: StreamFrame, V: Service<F>, M: Memory>(
    decoder: &mut FrameDecoder<F>,
    service: &mut V,
    memory: &mut M,
    piece: &[u8],
    out: &mut Vec<u8>,
) -> Result<(), DecodeFault>
    requires agrees { Agrees F.framing V.begins V.answers decoder.old service.old }
    requires fits { decoder.old.offset + length decoder.old.rest + length piece.now < count_limit }
    requires empty { length out.old.items ≡ 0 }
    // The bound on what is in memory before a piece holds again behind it, and the answers to it have so many bytes at most.
    requires piece { length piece.now ≤ piece_limit }
    requires rest { length decoder.old.rest < F.framing.most_bytes }
    requires held { decoder.old.held < rest_limit F.framing.most_bytes }
    ensures rest { OnOk result (length decoder.new.rest < F.framing.most_bytes) }
    ensures held { OnOk result (decoder.new.held < rest_limit F.framing.most_bytes) }
    ensures answers { length out.new.items
        ≤ answers_limit F.framing.most_bytes V.most_answers }
    ensures taken { OnOk result (TakesWhole F.framing V.answers (with_piece decoder.old piece.now)
        decoder.new service.old service.new out.old.items out.new.items) }
    ensures bad { IfErr result (λ fault. (at : ℕ) → fault ≡ DecodeFault.Bad at →
        TakesUpToBad F.framing V.answers (with_piece decoder.old piece.now) decoder.new service.old
        service.new out.old.items out.new.items at) }
    ensures no_memory { result ≡ Err DecodeFault.NoMemory
        → Rose (M.refusals memory.old) (M.refusals memory.new)
        ⊎ StopsSettingUp F.framing V.sets_up (with_piece decoder.old piece.now) decoder.new }
    ensures count { M.refusals memory.old ≤ M.refusals memory.new }
{
    decoder.feed_from(memory, piece)?;
    take_frames(decoder, service, memory, out)
}
