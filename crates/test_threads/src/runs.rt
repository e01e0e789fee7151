//! The files that are run, and what is due of a run.

use pm_gates::{HoldingGate, MeetingGate, Moment, TellingGate};
use pm_gen::make_plan;
use pm_plan::{PhaseEnd, Plan};
use pm_scene::read_scene;
use pm_walk::all_ends;
use std::alloc::Global;
use std::process::Abort;
use std::sync::Wait;

/// A load of 100 at all steps, and a generator of 150 from step 4.
pub(crate) const TWO_BIDS: &[u8] =
    b"{\"version\":1,\"basis\":{\"min\":0,\"max\":9,\"steps\":10},\"nodes\":[
    {\"name\":\"load1\",\"kind\":\"manual\",\"parent\":\"auctioneer\",\"demand\":[100,100,100,100,100,100,100,100,100,100]},
    {\"name\":\"gen1\",\"kind\":\"manual\",\"parent\":\"auctioneer\",\"demand\":[0,0,0,0,-150,-150,-150,-150,-150,-150]}],
    \"phases\":[{\"events\":[{\"join\":\"load1\"},{\"join\":\"gen1\"}]}]}";

/// Three levels, one of them limited; devices that join and leave in one phase, empty phases, and a device that never joins.
pub(crate) const REJOINS: &[u8] =
    b"{\"version\":2,\"basis\":{\"min\":0,\"max\":9,\"steps\":10},\"nodes\":[
    {\"name\":\"c1\",\"kind\":\"concentrator\",\"parent\":\"auctioneer\"},
    {\"name\":\"c2\",\"kind\":\"limited\",\"parent\":\"c1\",\"floor\":-100,\"ceiling\":150},
    {\"name\":\"c3\",\"kind\":\"concentrator\",\"parent\":\"c2\"},
    {\"name\":\"a\",\"kind\":\"load\",\"parent\":\"c3\",\"start\":100},
    {\"name\":\"b\",\"kind\":\"solar\",\"parent\":\"c2\",\"start\":70},
    {\"name\":\"c\",\"kind\":\"battery\",\"parent\":\"c1\",\"capacity\":1000,\"charge\":400,\"discharge\":400,\"spread\":1,\"start\":500},
    {\"name\":\"d\",\"kind\":\"load\",\"parent\":\"auctioneer\",\"start\":10},
    {\"name\":\"e\",\"kind\":\"load\",\"parent\":\"c3\",\"start\":10}],
    \"phases\":[{\"events\":[]},
    {\"events\":[{\"join\":\"a\"},{\"leave\":\"a\"},{\"join\":\"a\"},{\"join\":\"b\"},{\"leave\":\"b\"}]},
    {\"tick\":15},
    {\"events\":[{\"join\":\"c\"},{\"join\":\"d\"},{\"leave\":\"a\"}]},
    {\"tick\":30},{\"tick\":30},{\"events\":[]},
    {\"events\":[{\"join\":\"a\"},{\"state\":\"a\",\"value\":101},{\"state\":\"a\",\"value\":102},{\"leave\":\"d\"},{\"leave\":\"c\"}]},
    {\"events\":[{\"join\":\"b\"},{\"leave\":\"a\"},{\"leave\":\"b\"}]},{\"events\":[]}]}";

/// The plan of a file.
pub(crate) fn plan_of<R: Abort>(rt: &R, alloc: Global, file: &[u8]) -> Plan {
    read_scene(alloc, file).expect(rt, "a plan")
}

/// The plan of a demo cluster.
pub(crate) fn demo<R: Abort>(rt: &R, alloc: Global, size: u32, number: u32) -> Plan {
    make_plan(alloc, size, number).expect(rt, "a plan")
}

/// Whether two ends are the same.
fn is_same(end: &PhaseEnd, due: &PhaseEnd) -> bool {
    (end.step(), end.price(), end.total()) == (due.step(), due.price(), due.total())
        && end.members() == due.members()
        && end.limited() == due.limited()
}

/// Whether two lists of ends are the same.
fn are_same(ends: &[PhaseEnd], due: &[PhaseEnd]) -> bool {
    for (place, end) in ends.iter().enumerate() {
        match due.get(place) {
            Some(due) if is_same(end, due) => {}
            _ => return false,
        }
    }
    ends.len() == due.len()
}

/// Whether the ends are those of the plain program.
pub(crate) fn are_right<R: Abort>(rt: &R, alloc: Global, plan: &Plan, ends: &[PhaseEnd]) -> bool {
    are_same(ends, &all_ends(alloc, plan).expect(rt, "ends"))
}

/// How often each of the first eleven nodes yields the processor: 100 times if its number has this rest by `divisor`.
fn yields_of<R: Abort>(rt: &R, alloc: Global, divisor: u32, rest: u32) -> Vec<u32> {
    let mut yields = Vec::new(alloc);
    for node in 0..11 {
        let many = if node % divisor.max(1) == rest {
            100
        } else {
            0
        };
        yields.push(many).expect(rt, "memory");
    }
    yields
}

/// A gate that holds back, of the first eleven nodes, those whose number has this rest by `divisor`.
pub(crate) fn holding<R: Abort>(rt: &R, alloc: Global, divisor: u32, rest: u32) -> HoldingGate {
    HoldingGate::new(yields_of(rt, alloc, divisor, rest))
}

/// How often a node looks for the other at most.
pub(crate) const LOOKS: u32 = 20_000_000;

/// A gate under which the nodes 1 and 2 meet at this moment, and which keeps what it is told.
pub(crate) fn meeting<R: Wait + Sync>(
    rt: &R,
    alloc: Global,
    moment: Moment,
    looks: u32,
) -> TellingGate<'_, R, MeetingGate> {
    TellingGate::new(rt, alloc, MeetingGate::new((1, 2), moment, looks))
}
