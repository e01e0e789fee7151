//! What a sort of frames has to offer, so that a decoder can take it off a stream.

ghost use Rattle.std.specs.Prelude.{◌≡◌, ◌+◌, ◌∷◌, length, IfOk, Some};
ghost use Rattle.pm_io.specs.Causes.{HasCause};
ghost use Rattle.pm_wire.specs.Framing.{Framing, IsFraming, MayStand};
ghost use Rattle.pm_wire.specs.Spelling.{IsOne};

use pm_io::Memory;
use std::alloc::AllocError;

/// A sort of frames that stand one behind the other in a stream of bytes. The first byte of a frame tells its kind, and the
/// kind how many bytes it has.
pub trait StreamFrame: Drop {
    /// A place in the stream: what the frames before it say of those behind it, as how many steps a bid has.
    type Place: Copy;

    /// Which frame may stand where, and its bytes.
    ghost framing: { Framing Self.Place Self };

    /// How many bytes a frame of this kind has, if it may stand at this place.
    fn size_at(place: Self::Place, kind: u8) -> Option<usize>
        requires { framing.IsPlace place }
        ensures { result ≡ framing.size_at place kind };

    /// Reads the fields of a frame of this kind from the bytes behind the first one: the frame, or None where a field is
    /// refused. What it holds is asked of this memory.
    fn read<M: Memory>(
        memory: &mut M,
        place: Self::Place,
        kind: u8,
        body: &[u8],
    ) -> Result<Option<Self>, AllocError>
        requires place { framing.IsPlace place }
        requires size { framing.size_at place kind ≡ Some (length body.now + 1) }
        ensures one { IfOk result (IsOne framing place (kind ∷ body.now)) }
        ensures cause { HasCause (M.refusals memory.old) (M.refusals memory.new) result };

    /// The place after the frame, which may stand at this one.
    fn place_after(&self, place: Self::Place) -> Self::Place
        requires { MayStand framing place self.now }
        ensures { result ≡ framing.place_after place self.now };

    /// A law: the first byte of a frame tells how long the frame is, and its bytes tell which frame it is. There is nothing to
    /// do when it runs.
    fn is_framing()
        ensures { IsFraming framing };
}
