//! The names of the nodes of a demo cluster.

ghost use Rattle.std.specs.Prelude.{◌≡◌, IfOk, string_bytes};
ghost use Rattle.pm_gen.specs.Nodes.{concentrator_name, device_name, parent_name};

use std::alloc::{AllocError, Global};

/// The name of a concentrator, counted from 1.
pub(crate) fn concentrator_name(alloc: Global, number: u32) -> Result<String, AllocError>
    ensures { IfOk result (λ name. string_bytes name ≡ concentrator_name number) }
{
    Ok(format!(in alloc; "c{number}")?)
}

/// The name of a device, counted from 1.
pub(crate) fn device_name(alloc: Global, number: u32) -> Result<String, AllocError>
    ensures { IfOk result (λ name. string_bytes name ≡ device_name number) }
{
    Ok(format!(in alloc; "d{number}")?)
}

/// The name of a concentrator's parent: the auctioneer of the first, and of any other the concentrator of half its
/// number.
pub(crate) fn parent_name(alloc: Global, number: u32) -> Result<String, AllocError>
    ensures { IfOk result (λ name. string_bytes name ≡ parent_name number) }
{
    if number == 1 {
        Ok(String::from_str(alloc, "auctioneer")?)
    } else {
        concentrator_name(alloc, number / 2)
    }
}
