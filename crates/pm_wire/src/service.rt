//! What a service of a stream has to offer: it takes one frame after the other, and appends its answers.

ghost use Rattle.std.specs.Prelude.{◌≡◌, ◌⊎◌, ◌+◌, ◌≤◌, ℕ, List, length, OnOk, OnErr};
ghost use Rattle.pm_io.specs.Causes.{Rose};
ghost use Rattle.pm_wire.specs.Taking.{CanTake, TakesFrame};

use crate::stream_frame::StreamFrame;
use pm_io::Memory;
use std::alloc::AllocError;

/// A service that takes the frames of a stream one after the other, and appends the bytes of its answers to each.
pub trait Service<F: StreamFrame> {
    /// A state at the start of a stream, whose first frame is to stand at this place.
    ghost begins: { F.Place → Self → Type 0 };

    /// What a frame makes of the state, and the bytes that are appended.
    ghost answers: { Self → F → Self → List ℕ → Type 0 };

    /// The most bytes of the answers to a frame.
    ghost most_answers: { ℕ };

    /// A frame that sets the state up, as Hello does. For what it keeps then a service may have memory of its own.
    ghost sets_up: { F → Type 0 };

    /// Takes the next frame, and appends the answers to it. Where an allocation fails nothing changes and nothing is appended.
    /// All memory is asked of the one that is handed in, but for a frame that sets the state up.
    fn answer<M: Memory>(
        &mut self,
        memory: &mut M,
        frame: &F,
        out: &mut Vec<u8>,
    ) -> Result<(), AllocError>
        requires { CanTake F.framing begins answers self.old frame.now }
        ensures taken { OnOk result
            (TakesFrame answers self.old frame.now self.new out.old.items out.new.items) }
        ensures unchanged { OnErr result (self.new ≡ self.old) }
        ensures nothing_appended { OnErr result (out.new.items ≡ out.old.items) }
        ensures few { length out.new.items ≤ length out.old.items + most_answers }
        ensures cause { OnErr result
            (sets_up frame.now ⊎ Rose (M.refusals memory.old) (M.refusals memory.new)) }
        ensures count { M.refusals memory.old ≤ M.refusals memory.new };
}
