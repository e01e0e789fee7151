//! Lists of no power at any step, in memory that is asked for.

ghost use Rattle.std.specs.Prelude.{◌≡◌, IfOk};
ghost use Rattle.pm_base.specs.Limits.{AreSteps};
ghost use Rattle.pm_bid.specs.Bids.{zeros};
ghost use Rattle.pm_io.specs.Causes.{HasCause};

use pm_bid::{ArrayBid, uncounted};
use pm_io::Memory;
use std::alloc::AllocError;

/// No power at any of so many steps.
pub(crate) fn zeros<M: Memory>(memory: &mut M, steps: usize) -> Result<Vec<i64>, AllocError>
    ensures zeros { IfOk result (λ demands. demands.items ≡ zeros steps) }
    ensures cause { HasCause (M.refusals memory.old) (M.refusals memory.new) result }
{
    let mut demands = memory.list(steps)?;
    let Ok(()) = demands.resize(steps, 0) else {
        unreachable!()
    };
    Ok(demands)
}

/// The bid of no power at any of so many steps, as `ArrayBid::zero` gives it.
pub fn zero_bid<M: Memory>(memory: &mut M, steps: usize) -> Result<ArrayBid, AllocError>
    requires { AreSteps steps }
    ensures bid { IfOk result (λ bid. bid ≡ zeros steps) }
    ensures cause { HasCause (M.refusals memory.old) (M.refusals memory.new) result }
{
    let demands = zeros(memory, steps)?;
    let Ok(bid) = ArrayBid::new(demands, steps, &mut uncounted()) else {
        unreachable!()
    };
    Ok(bid)
}
