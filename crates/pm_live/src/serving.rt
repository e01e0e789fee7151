//! Serves a node from the start of its stream, whatever its frames are.

ghost use Rattle.std.specs.Prelude.{◌≡◌, ◌⊎◌, ◌≤◌, ℕ, List, Some};
ghost use Rattle.pm_io.specs.Causes.{Rose};
ghost use Rattle.pm_wire.specs.Services.{EndsSo};
ghost use Rattle.pm_wire.specs.Due.{EndsAsDue};
ghost use Rattle.pm_wire.specs.Moments.{AsksWhatIsDue};
ghost use Rattle.pm_wire.specs.SettingUp.{piece_size, EndsSettingUp};
ghost use Rattle.pm_wire.specs.Taking.{AnswersFrom};

use pm_io::{Memory, Peer};
use pm_wire::{Served, Service, StreamFrame, serve_peer};
use std::alloc::Global;

/// How many bytes one read asks for.
const PIECE: usize = 16_384;

/// Serves a stream whose first frame is to stand at this place, and tells how it ended.
pub(crate) fn serve_from_start<F: StreamFrame, V: Service<F>, W: Peer, M: Memory>(
    alloc: Global,
    memory: &mut M,
    wire: &mut W,
    place: F::Place,
    service: &mut V,
) -> Served
    requires place { F.framing.IsPlace place }
    requires service { V.begins place service.old }
    requires asks { AsksWhatIsDue W.left W.held W.becomes W.may_read W.may_write F.framing place
        (AnswersFrom V.answers service.old) wire.old }
    ensures serves { EndsSo F.framing place (AnswersFrom V.answers service.old)
        (W.left wire.old) (W.left wire.new) (W.held wire.old) (W.held wire.new)
        (Rose (W.read_faults wire.old) (W.read_faults wire.new))
        (Rose (W.write_faults wire.old) (W.write_faults wire.new)) result }
    ensures due { (all : List ℕ) → W.left wire.old ≡ Some all →
        EndsAsDue F.framing place (AnswersFrom V.answers service.old) all
        (W.left wire.old) (W.left wire.new) (W.held wire.old) (W.held wire.new)
        (Rose (W.read_faults wire.old) (W.read_faults wire.new))
        (Rose (W.write_faults wire.old) (W.write_faults wire.new)) result }
    ensures no_memory { result ≡ Served.NoMemory
        → Rose (M.refusals memory.old) (M.refusals memory.new)
        ⊎ EndsSettingUp F.framing place V.sets_up piece_size (W.left wire.old) (W.left wire.new) }
    ensures becomes { W.becomes wire.old wire.new }
    ensures source_count { W.read_faults wire.old ≤ W.read_faults wire.new }
    ensures sink_count { W.write_faults wire.old ≤ W.write_faults wire.new }
    ensures memory_count { M.refusals memory.old ≤ M.refusals memory.new }
{
    let mut piece = [0u8; PIECE];
    serve_peer(alloc, memory, wire, place, service, &mut piece)
}
