//! Tests of agents: bids after a change, worked by hand for three kinds.

ghost use Rattle.std.specs.Prelude.{◌≡◌, length};
ghost use Rattle.pm_bid.specs.Bids.{HaveSteps};

use crate::same::same;
use crate::shared::may_be_shared;
use pm_agent::{DeviceAgent, Made};
use pm_bid::{ArrayBid, uncounted};
use pm_device::{DeviceState, Kind, Next};
use std::alloc::Global;
use std::process::Abort;
use std::slice::from_ref;

/// The answer to a change of device 1 has the change and the agent's kind. It has one demand at the steps before the
/// end and another from there on.
fn answer_is<R: Abort>(
    rt: &R,
    agent: &mut DeviceAgent,
    next: Next,
    arrays: &[ArrayBid],
    demands: (i64, i64),
    end: usize,
)
    requires { HaveSteps agent.old.steps arrays.now }
{
    let kind = agent.kind();
    let steps = agent.steps();
    assert!(rt; agent.device() == next.device && kind.fits(next.state));
    let made = agent.work(next, arrays);
    let have = (made.next(), made.kind(), made.demand().steps());
    same(rt, "change", have, (next, kind, steps));
    demand_is(rt, next, made.demand(), demands, end);
}

fn demand_is<R: Abort>(rt: &R, next: Next, bid: &ArrayBid, demands: (i64, i64), end: usize) {
    let mut counter = uncounted();
    for step in 0..bid.steps() {
        let want = if step < end { demands.0 } else { demands.1 };
        same(rt, (next, step), bid.at(step, &mut counter), want);
    }
}

fn change(number: u32, member: bool, state: i64) -> Next {
    Next {
        device: 1,
        number,
        member,
        state: DeviceState(state),
    }
}

/// A change: its number, whether the device is a member, and its state; and its demands and the step at which the first ends.
type Row = (u32, bool, i64, (i64, i64), usize);

/// An agent of device 1 over ten steps answers each change as its row says.
fn answers_are<R: Abort>(rt: &R, agent: &mut DeviceAgent, rows: &[Row]) {
    same(rt, "agent", (agent.device(), agent.steps()), (1, 10));
    for row in rows {
        answer_is(rt, agent, change(row.0, row.1, row.2), &[], row.3, row.4);
    }
}

/// An agent of device 1 over ten steps.
fn agent_of<R: Abort>(rt: &R, alloc: Global, kind: Kind) -> DeviceAgent {
    assert!(rt; kind.valid());
    DeviceAgent::new(alloc, kind, 1, 10).expect(rt, "memory")
}

const LOAD: &[Row] = &[
    (1, true, 100, (100, 0), 10),
    (2, false, 100, (0, 0), 10),
    (3, true, 250, (250, 0), 10),
];

#[test]
fn a_load_answers_with_its_bid(rt: HostRuntime) {
    answers_are(&rt, &mut agent_of(&rt, rt.alloc(), Kind::Load), LOAD);
}

const FREEZER: Kind = Kind::Freezer {
    low: -2200,
    high: -1800,
    power: 200,
    warm: 30,
    cool: 80,
};

const FREEZES: &[Row] = &[
    (1, false, -2000, (0, 0), 10),
    (2, true, -2000, (200, 0), 5), // 200 * 9 / 400 = 4.5
];

#[test]
fn a_freezer_answers_with_its_bid(rt: HostRuntime) {
    answers_are(&rt, &mut agent_of(&rt, rt.alloc(), FREEZER), FREEZES);
}

/// An array of three steps with 7 at the first of them.
fn seven_first<R: Abort>(rt: &R, alloc: Global) -> ArrayBid
    ensures { length result ≡ 3 }
{
    let mut counter = uncounted();
    let mut array = ArrayBid::zero(alloc, 3, &mut counter).expect(rt, "memory");
    array.set(0, 7, &mut counter);
    array
}

#[test]
fn a_manual_device_answers_with_its_array(rt: HostRuntime) {
    manual_device_answers(&rt, rt.alloc(), &seven_first(&rt, rt.alloc()));
}

fn manual_device_answers<R: Abort>(rt: &R, alloc: Global, array: &ArrayBid)
    requires { length array.now ≡ 3 }
{
    let mut agent = DeviceAgent::new(alloc, Kind::Manual, 1, 3).expect(rt, "memory");
    same(rt, "steps", agent.steps(), 3);
    answer_is(
        rt,
        &mut agent,
        change(1, true, 0),
        from_ref(array),
        (7, 0),
        1,
    );
}

/// Agents and their answers may be sent to threads and shared by them: it is proved here.
#[test]
fn agents_may_be_shared() {
    may_be_shared::<(DeviceAgent, Made)>();
}
