//! Fills the bid of a device of any kind, from its levels or from a manual device's array.

ghost use Rattle.std.specs.Prelude.{◌≡◌, ◌≤ℤ◌, pos, length, All, IsTrue};
ghost use Rattle.pm_bid.specs.Bids.{zeros, HaveSteps, AllWithinLimit, NeverRises};
ghost use Rattle.pm_base.specs.Limits.{demand_limit};
ghost use Rattle.pm_device.specs.Kinds.{is_valid, state_fits};
ghost use Rattle.pm_strategy.specs.Strategies.{bid_of, numbered_array};

use crate::kinds::levels_of;
use pm_bid::{ArrayBid, uncounted};
use pm_device::{DeviceState, Kind};

/// Makes `out` the bid of a device of this kind in this state, with as many steps as `out` has. With `k` the step,
/// `m` the last one, `/` rounding down and `ceil` rounding up, the demand in watts at `k` is:
///
/// - freezer at temperature `t`: `power` if `t >= high`; else 0 if `t <= low`; else `power` if `k <=
///   (t-low)*m/(high-low)`, and 0 above;
/// - heat pump at `t`: `power` if `t <= low`; else 0 if `t >= high`; else `power` if `k <=
///   (high-t)*m/(high-low)`, and 0 above;
/// - cogeneration unit at buffer temperature `t`: `-power` if `t <= low`; else 0 if `t >= high`; else `-power` if `k
///   >= ceil((t-low)*m/(high-low))`, and 0 below;
/// - battery with charge `s` and `mid = (capacity-s)*m/capacity`: `charge` if `k + spread < mid`, `-discharge` if
///   `k > mid + spread`, else 0;
/// - solar panel: its output, negative; load: its power; objective: its target, negative;
/// - manual device: the demand of the array whose number, from 0, is the state, and 0 if there is no such array.
///
/// The arrays have as many steps as `out`. The bid never rises and lies within ±1,000,000,000 watts; for a manual
/// device both hold if they hold of the arrays.
pub fn fill_bid(kind: &Kind, state: DeviceState, arrays: &[ArrayBid], out: &mut ArrayBid)
    requires valid { IsTrue (is_valid kind.now) }
    requires fits { IsTrue (state_fits kind.now state.0) }
    requires arrays { HaveSteps (length out.old) arrays.now }
    ensures bid { out.new ≡ bid_of kind.now state.0 arrays.now (length out.old) }
    ensures steps { length out.new ≡ length out.old }

    // A manual device's bid is one of the caller's arrays.
    ensures falls { (kind.now ≡ Kind.Manual → All NeverRises arrays.now) → NeverRises out.new }
    ensures within { (kind.now ≡ Kind.Manual → All (AllWithinLimit demand_limit) arrays.now)
        → AllWithinLimit demand_limit out.new }
{
    match levels_of(kind, state, out.steps() - 1) {
        Some(levels) => levels.fill(out),
        None => fill_from_array(state, arrays, out),
    }
}

/// Makes `out` the array whose number is the state, and zeros if there is no such array.
#[tactic(auto, using(crate::proofs::BidLaws::array_of_number))]
fn fill_from_array(state: DeviceState, arrays: &[ArrayBid], out: &mut ArrayBid)
    requires number { pos 0 ≤ℤ state.0 }
    requires arrays { HaveSteps (length out.old) arrays.now }
    ensures { out.new ≡ numbered_array arrays.now state.0 (length out.old) }
{
    let DeviceState(number) = state;
    let mut counter = uncounted();
    match arrays.get(number as usize) {
        Some(array) => array.copy_into(out, &mut counter),
        None => out.set_zero(&mut counter),
    }
}
