//! Reads the number fields of a frame.

ghost use Rattle.std.specs.Prelude.{◌≡◌, ◌*◌, ◌≤◌, ◌++◌, length, IfOk, FitsSigned};
ghost use Rattle.std.specs.Int.{w16, w32, to_be_bytes};
ghost use Rattle.std.specs.List.{AllByRecursion};
ghost use Rattle.pm_io.specs.Causes.{HasCause};
ghost use Rattle.pm_wire.specs.Frames.{signed_bytes, demand_bytes};

use crate::zeros::zeros;
use pm_io::Memory;
use std::alloc::AllocError;

/// The first two bytes as a number, and the bytes behind them.
pub fn read_u16(bytes: &[u8]) -> (u16, &[u8])
    requires { 2 ≤ length bytes.now }
    ensures { bytes.now ≡ to_be_bytes w16 result.0 ++ result.1.now }
{
    let number = u16::from_be_bytes([bytes[0], bytes[1]]);
    (number, &bytes[2..])
}

/// The first four bytes as a number, and the bytes behind them.
pub fn read_u32(bytes: &[u8]) -> (u32, &[u8])
    requires { 4 ≤ length bytes.now }
    ensures { bytes.now ≡ to_be_bytes w32 result.0 ++ result.1.now }
{
    let number = u32::from_be_bytes([bytes[0], bytes[1], bytes[2], bytes[3]]);
    (number, &bytes[4..])
}

/// The first four bytes as a signed number, and the bytes behind them.
pub fn read_i32(bytes: &[u8]) -> (i64, &[u8])
    requires { 4 ≤ length bytes.now }
    ensures bytes { bytes.now ≡ signed_bytes result.0 ++ result.1.now }
    ensures fits { FitsSigned w32 result.0 }
{
    let number = i32::from_be_bytes([bytes[0], bytes[1], bytes[2], bytes[3]]);
    (i64::from(number), &bytes[4..])
}

/// The demands that the bytes are, four bytes each.
pub fn read_demands<M: Memory>(
    memory: &mut M,
    count: usize,
    bytes: &[u8],
) -> Result<Vec<i64>, AllocError>
    requires { length bytes.now ≡ 4 * count }
    ensures bytes { IfOk result (λ demands. bytes.now ≡ demand_bytes demands.items) }
    ensures fit { IfOk result (λ demands. AllByRecursion (λ z. FitsSigned w32 z) demands.items) }
    ensures count { IfOk result (λ demands. length demands.items ≡ count) }
    ensures cause { HasCause (M.refusals memory.old) (M.refusals memory.new) result }
{
    let mut demands = zeros(memory, count)?;
    let mut rest = bytes;
    for place in demands.iter_mut() {
        let (demand, behind) = read_i32(rest);
        *place = demand;
        rest = behind;
    }
    Ok(demands)
}
