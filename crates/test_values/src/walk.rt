//! Tests of the plain program: the ends of phases and of cuts, worked by hand.

ghost use Rattle.std.specs.Prelude.{◌≡◌, ℕ, ◌≤◌, length, true};
ghost use Rattle.pm_plan.specs.Plans.{change_count};
ghost use Rattle.pm_walk.specs.Cuts.{file_cut};

use crate::plans::{NodeLine, Role, basis_of, joins, plan_of_parts, string_of};
use crate::same::same;
use pm_device::Kind;
use pm_plan::{EventSpec, MemberLine, PhaseEnd, PhaseSpec, Plan, StateSpec};
use pm_tree::NodeId;
use pm_walk::{all_ends, end_of_cut};
use std::alloc::Global;
use std::process::Abort;

/// A phase's end: step, price and total; and the members.
#[derive(Clone, Copy)]
struct Due {
    end: (u32, i64, i64),
    members: &'static [MemberLine],
}

/// The members of an end: node, power in watts and number of the bid of each.
macro_rules! members {
    ($(($node:expr, $power:expr, $number:expr)),* $(,)?) => {
        &[$(MemberLine { node: $node, power: $power, number: $number }),*]
    };
}

/// A battery that holds half its charge, and a load of 200 watts.
const NODES: [NodeLine; 2] = [
    (
        "battery",
        "auctioneer",
        Role::Device(
            Kind::Battery {
                capacity: 1000,
                charge: 400,
                discharge: 400,
                spread: 1,
            },
            500,
        ),
    ),
    ("load", "auctioneer", Role::Device(Kind::Load, 200)),
];

/// The load takes 500 watts.
fn load_rises<R: Abort>(rt: &R, alloc: Global) -> PhaseSpec {
    let device = string_of(rt, alloc, "load");
    let value = StateSpec::Number(500);
    let mut events = Vec::new(alloc);
    events
        .push(EventSpec::State { device, value })
        .expect(rt, "memory");
    PhaseSpec::Events(events)
}

/// The plan of the nodes over the prices 0 to 9: both join, a quarter of an hour goes by, and the load rises.
fn plan_of<R: Abort>(rt: &R, alloc: Global) -> Plan {
    let mut phases = Vec::new(alloc);
    phases.push(joins(rt, alloc, &NODES)).expect(rt, "memory");
    phases
        .push(PhaseSpec::Tick { minutes: 15 })
        .expect(rt, "memory");
    phases.push(load_rises(rt, alloc)).expect(rt, "memory");
    plan_of_parts(rt, alloc, basis_of(rt, 0, 9, 10), &NODES, phases)
}

/// Whether an end is the one that is due, without a limited concentrator.
fn is_due(end: &PhaseEnd, due: Due) -> bool {
    (end.step(), end.price(), end.total()) == due.end
        && end.members() == due.members
        && end.limited().is_empty()
}

/// 500 watt-hours: 400 watts at steps 0 to 2, -400 from 6. A quarter of an hour at -400 watts leaves 400 watt-hours:
/// 400 watts at steps 0 to 3, -400 from 7.
const ENDS: [Due; 3] = [
    Due {
        end: (6, 6, -200),
        members: members![(1, -400, 1), (2, 200, 1)],
    },
    Due {
        end: (7, 7, -200),
        members: members![(1, -400, 2), (2, 200, 1)],
    },
    Due {
        end: (9, 9, 100),
        members: members![(1, -400, 2), (2, 500, 2)],
    },
];

/// Whether the end in this place is the one that is due.
fn is_end_at(ends: &[PhaseEnd], place: usize, due: Due) -> bool {
    match ends.get(place) {
        Some(end) => is_due(end, due),
        None => false,
    }
}

fn ends_are<R: Abort>(rt: &R, ends: &[PhaseEnd]) {
    same(rt, "ends", ends.len(), ENDS.len());
    for (place, due) in ENDS.iter().enumerate() {
        same(rt, place, is_end_at(ends, place, *due), true);
    }
}

fn ends_of_plan_are<R: Abort>(rt: &R, alloc: Global, plan: &Plan) {
    ends_are(rt, &all_ends(alloc, plan).expect(rt, "ends"));
}

#[test]
fn the_ends_of_all_phases(rt: HostRuntime) {
    ends_of_plan_are(&rt, rt.alloc(), &plan_of(&rt, rt.alloc()));
}

/// Whether a node has so many changes.
fn has_changes(plan: &Plan, node: NodeId, count: u32) -> bool
    requires { node.0 ≤ length plan.now.nodes }
    ensures { result ≡ true → count ≤ change_count plan.now node.0 }
{
    if count == 0 {
        return true;
    }
    if !plan.tree().is_leaf(node) {
        return false;
    }
    plan.planned(node, count).is_some()
}

/// Whether a list is a cut of the plan's nodes.
fn is_cut(plan: &Plan, cut: &[u32]) -> bool
    ensures one_each { result ≡ true → length cut.now ≡ length plan.now.nodes }
    ensures planned { result ≡ true →
        ((x : ℕ) → 1 ≤ x → x ≤ length plan.now.nodes →
        file_cut cut.now x ≤ change_count plan.now x) }
{
    if cut.len() != plan.tree().len() as usize {
        return false;
    }
    for number in 1..plan.tree().len() + 1 {
        if !has_changes(plan, NodeId(number), cut[number as usize - 1]) {
            return false;
        }
    }
    true
}

/// The end over a list that is a cut.
fn planned_end<R: Abort>(rt: &R, alloc: Global, plan: &Plan, cut: &[u32]) -> PhaseEnd {
    assert!(rt; is_cut(plan, cut));
    end_of_cut(alloc, plan, cut).expect(rt, "an end")
}

/// The battery after its tick or before it, with the load before or after its new state.
const CUTS: &[([u32; 2], Due)] = &[
    (
        [0, 0],
        Due {
            end: (0, 0, 0),
            members: &[],
        },
    ),
    (
        [0, 1],
        Due {
            end: (9, 9, 200),
            members: members![(2, 200, 1)],
        },
    ),
    (
        [1, 2],
        Due {
            end: (9, 9, 100),
            members: members![(1, -400, 1), (2, 500, 2)],
        },
    ),
    (
        [2, 1],
        Due {
            end: (7, 7, -200),
            members: members![(1, -400, 2), (2, 200, 1)],
        },
    ),
];

/// A list is a cut, and its end is the one that is due.
fn cut_has_its_end<R: Abort>(rt: &R, alloc: Global, plan: &Plan, row: &([u32; 2], Due)) {
    let end = planned_end(rt, alloc, plan, &row.0);
    same(rt, row.0, is_due(&end, row.1), true);
}

fn cuts_have_their_ends<R: Abort>(rt: &R, alloc: Global, plan: &Plan) {
    for row in CUTS {
        cut_has_its_end(rt, alloc, plan, row);
    }
}

#[test]
fn the_end_over_a_cut(rt: HostRuntime) {
    cuts_have_their_ends(&rt, rt.alloc(), &plan_of(&rt, rt.alloc()));
}
