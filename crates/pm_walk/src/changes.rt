//! Makes the next changes of a device, and its demand after them.

ghost use Rattle.std.specs.Prelude.{◌≡◌, ◌+◌, ◌-◌, ◌<◌, ◌≤◌, IsTrue, true, length};
ghost use Rattle.pm_base.specs.Limits.{demand_limit, IsWithin, most_changes};
ghost use Rattle.pm_device.specs.Kinds.{is_valid, state_fits};
ghost use Rattle.pm_plan.specs.Devices.{member_after};
ghost use Rattle.pm_plan.specs.Plans.{is_leaf, end_cut};
ghost use Rattle.pm_plan.specs.Auction.{power};
ghost use Rattle.pm_plan.specs.States.{state, changed_state};
ghost use Rattle.pm_plan.specs.Kept.{change_fits};
ghost use Rattle.pm_walk.specs.Standing.{HasCome, demand_come};

use pm_bid::{ArrayBid, uncounted};
use pm_device::{DeviceState, Kind, advance};
use pm_plan::{Plan, Planned};
use pm_strategy::fill_bid;
use pm_tree::NodeId;

/// How far a node has come.
#[derive(Clone, Copy)]
pub(crate) struct Progress {
    /// How many changes it has made.
    pub(crate) count: u32,
    /// The state after them.
    pub(crate) state: DeviceState,
    /// Whether it is a member after them.
    pub(crate) member: bool,
}

/// Makes a change of a device of this kind, which had the power `used` at the end of the phase before.
fn make_change(kind: Kind, what: Planned, used: i64, before: Progress) -> Progress
    requires few { before.count < most_changes }
    requires valid { IsTrue (is_valid kind) }
    requires fits { IsTrue (state_fits kind before.state.0) }
    requires change { IsTrue (change_fits kind what) }
    requires used { IsWithin demand_limit used }
    ensures count { result.count ≡ before.count + 1 }
    ensures state { result.state.0 ≡ changed_state kind before.state.0 used what }
    ensures member { result.member ≡ member_after before.member what }
{
    let (state, member) = match what {
        Planned::Join => (before.state, true),
        Planned::Leave => (before.state, false),
        Planned::Set { state } => (state, before.member),
        Planned::Tick { minutes } => (advance(&kind, before.state, used, minutes), before.member),
    };
    Progress {
        count: before.count + 1,
        state,
        member,
    }
}

/// Makes the next changes of a device, which all belong to this phase. `used` is its power at the end of the phase
/// before.
pub(crate) fn make_changes(
    plan: &Plan,
    device: NodeId,
    phase: u32,
    used: i64,
    many: u32,
    before: Progress,
) -> Progress
    requires leaf { is_leaf plan.now device.0 ≡ true }
    requires first { 1 ≤ phase }
    requires reached { HasCome plan.now device.0 before }
    requires begun { end_cut plan.now (phase - 1) device.0 ≤ before.count }
    requires inside { before.count + many ≤ end_cut plan.now phase device.0 }
    requires used { used ≡ power plan.now (state plan.now) (end_cut plan.now (phase - 1)) device.0 }
    ensures reached { HasCome plan.now device.0 result }
    ensures count { result.count ≡ before.count + many }
{
    let kind = plan.kind(device);
    let mut here = before;
    for _ in 0..many {
        let what = plan.planned(device, here.count + 1).unwrap();
        here = make_change(kind, what, used, here);
    }
    here
}

/// Makes `out` the demand of a device that has come so far: its bid if it is a member, otherwise zeros.
pub(crate) fn fill_demand(plan: &Plan, device: NodeId, here: Progress, out: &mut ArrayBid)
    requires leaf { is_leaf plan.now device.0 ≡ true }
    requires reached { HasCome plan.now device.0 here }
    requires steps { length out.old ≡ plan.now.basis.steps }
    ensures demand { out.new ≡ demand_come plan.now device.0 here }
    ensures steps { length out.new ≡ plan.now.basis.steps }
{
    if here.member {
        fill_bid(&plan.kind(device), here.state, plan.arrays(), out);
    } else {
        out.set_zero(&mut uncounted());
    }
}
