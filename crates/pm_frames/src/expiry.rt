//! The frame by which a device is let go at its parent.

ghost use Rattle.std.specs.Prelude.{◌≡◌, ◌+◌, ◌∷◌, ◌↔◌, IsTrue, length};
ghost use Rattle.pm_frames.specs.Kinds.{expire_kind};
ghost use Rattle.pm_frames.specs.Expiries.{expire_bytes, IsExpireFormed, IsExpireAccepted};

use pm_base::MOST_NODES;
use pm_wire::read_u16;

/// The child that an Expire names.
pub(crate) fn read_expiring(body: &[u8]) -> u16
    requires { 3 ≡ length body.now + 1 }
    ensures formed { IsExpireFormed result }
    ensures spelled { expire_kind ∷ body.now ≡ expire_bytes result }
{
    let (child, _rest) = read_u16(body);
    child
}

/// Whether a child has this number.
pub(crate) fn is_child(child: u16) -> bool
    ensures { IsTrue result ↔ IsExpireAccepted child }
{
    1 <= child && usize::from(child) <= MOST_NODES
}
