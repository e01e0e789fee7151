//! Limits in a frame: those of a relay, and the bound of a child.

ghost use Rattle.std.specs.Prelude.{◌≡◌, ◌+◌, ◌≤◌, ◌∷◌, ◌++◌, ◌↔◌, IsTrue, length};
ghost use Rattle.pm_relay.specs.Relays.{AreRelayLimits};
ghost use Rattle.pm_frames.specs.LimitsFrames.{limits_bytes, AreLimitsFormed, given_bytes, IsGivenFormed, IsGivenAccepted, bound_bytes};
ghost use Rattle.pm_frames.specs.LimitsFrames.{IsBoundFormed, IsBoundAccepted};
ghost use Rattle.pm_frames.specs.Kinds.{limits_kind, bound_kind, limits_size, bound_size};

use crate::expiry::is_child;
use pm_base::{DEMAND_LIMIT, Limits};
use pm_wire::{read_i32, read_u16, read_u32};

/// The limits that the bytes begin with, four bytes each, and the bytes behind them.
pub(crate) fn read_floor_and_ceiling(bytes: &[u8]) -> (Limits, &[u8])
    requires { 8 ≤ length bytes.now }
    ensures bytes { bytes.now ≡ limits_bytes result.0 ++ result.1.now }
    ensures formed { AreLimitsFormed result.0 }
{
    let (floor, rest) = read_i32(bytes);
    let (ceiling, rest) = read_i32(rest);
    (Limits { floor, ceiling }, rest)
}

/// Whether a relay may have these limits.
pub(crate) fn are_relay_limits(limits: &Limits) -> bool
    ensures { IsTrue result ↔ AreRelayLimits limits.now }
{
    -DEMAND_LIMIT <= limits.floor
        && limits.floor <= 0
        && 0 <= limits.ceiling
        && limits.ceiling <= DEMAND_LIMIT
}

/// The number and the limits that a Limits has.
pub(crate) fn read_given(body: &[u8]) -> (u32, Limits)
    requires { limits_size ≡ length body.now + 1 }
    ensures formed { IsGivenFormed result.0 result.1 }
    ensures spelled { limits_kind ∷ body.now ≡ given_bytes result.0 result.1 }
{
    let (number, rest) = read_u32(body);
    let (limits, _rest) = read_floor_and_ceiling(rest);
    (number, limits)
}

/// Whether the number is one that is given, and a relay may have the limits.
pub(crate) fn is_given(number: u32, limits: &Limits) -> bool
    ensures { IsTrue result ↔ IsGivenAccepted number limits.now }
{
    number >= 1 && number % 2 == 0 && are_relay_limits(limits)
}

/// The child and its bound that a Bound has.
pub(crate) fn read_bound(body: &[u8]) -> (u16, Limits)
    requires { bound_size ≡ length body.now + 1 }
    ensures formed { IsBoundFormed result.0 result.1 }
    ensures spelled { bound_kind ∷ body.now ≡ bound_bytes result.0 result.1 }
{
    let (child, rest) = read_u16(body);
    let (bound, _rest) = read_floor_and_ceiling(rest);
    (child, bound)
}

/// Whether a child has this number, and may have this bound.
pub(crate) fn is_bound(child: u16, bound: &Limits) -> bool
    ensures { IsTrue result ↔ IsBoundAccepted child bound.now }
{
    is_child(child) && are_relay_limits(bound)
}
