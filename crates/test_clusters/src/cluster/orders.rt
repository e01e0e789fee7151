//! Phases that are driven by acts alone, in three orders: each order comes to the ends of the plain auction.

use super::files::{BOTH_SIDES, CEILING, FLOOR, VILLAGE, plan_of};
use super::hand::{End, act_at, act_count, close, ends_so, make, open};
use crate::same::same;
use pm_cluster::Cluster;
use pm_market::Act;
use pm_plan::Plan;
use std::alloc::Global;
use std::process::Abort;
use std::slice::from_ref;

/// Whose acts are made first: those of the lowest node that has one, of the highest, or of each node in turn.
#[derive(Clone, Copy, Debug, PartialEq, Eq)]
enum Order {
    LowestFirst,
    HighestFirst,
    RoundRobin,
}

/// The place of the act that is tried at this turn.
fn place_of(order: Order, turn: u32, many: u32) -> u32 {
    if order == Order::HighestFirst {
        many.saturating_sub(1).saturating_sub(turn)
    } else {
        turn
    }
}

/// Tries each act once, but of the turns of all nodes only up to the first that is legal; whether one was.
fn try_acts<R: Abort>(rt: &R, cluster: &mut Cluster, order: Order) -> bool {
    let many = act_count(cluster);
    let mut moved = false;
    for turn in 0..many {
        if make(rt, cluster, act_at(place_of(order, turn, many))).is_some() {
            moved = true;
            if order != Order::RoundRobin {
                return true;
            }
        }
    }
    moved
}

/// Makes acts until no act is legal.
fn settle<R: Abort>(rt: &R, cluster: &mut Cluster, order: Order) {
    for _turn in 0..10_000u32 {
        if !try_acts(rt, cluster, order) {
            return;
        }
    }
    panic!(rt; "there is always an act");
}

/// Closes a phase, by an act or the call; whether it could be closed.
fn closes<R: Abort>(rt: &R, cluster: &mut Cluster, order: Order) -> bool {
    if order == Order::RoundRobin {
        make(rt, cluster, Act::Close).is_some()
    } else {
        close(cluster)
    }
}

/// Whether a phase cannot be closed before its changes are made, ends so, and can then be closed.
fn runs_phase<R: Abort>(
    rt: &R,
    alloc: Global,
    cluster: &mut Cluster,
    order: Order,
    due: End,
) -> bool {
    let early = close(cluster);
    settle(rt, cluster, order);
    !early && ends_so(rt, alloc, cluster, due) && closes(rt, cluster, order)
}

/// The place of the first phase that ends otherwise.
fn first_wrong<R: Abort>(
    rt: &R,
    alloc: Global,
    cluster: &mut Cluster,
    order: Order,
    ends: &[End],
) -> Option<usize> {
    for (place, due) in ends.iter().enumerate() {
        if !runs_phase(rt, alloc, cluster, order, *due) {
            return Some(place);
        }
    }
    None
}

const ORDERS: &[Order] = &[Order::LowestFirst, Order::HighestFirst, Order::RoundRobin];

/// The two loads rest from step 6 on; the device would take 300 watts where the whole balances; it would deliver 150 there.
const PARTS: &[(&str, &str, End)] = &[
    (
        "ceiling",
        CEILING,
        End {
            at: (0, 0, 0),
            members: members![(2, 0, 1), (3, 0, 1), (4, -150, 1)],
            limited: limited![(1, 6, 0)],
        },
    ),
    (
        "floor",
        FLOOR,
        End {
            at: (0, 0, 0),
            members: members![(2, 150, 1), (3, -150, 1)],
            limited: limited![(1, 3, 150)],
        },
    ),
    (
        "both sides",
        BOTH_SIDES,
        End {
            at: (9, 9, 300),
            members: members![(2, -100, 1), (3, 400, 1)],
            limited: limited![(1, 8, -100)],
        },
    ),
];

/// The phases of a plan have these ends in an order.
fn ends_in_order_are<R: Abort>(
    rt: &R,
    alloc: Global,
    name: &str,
    plan: &Plan,
    order: Order,
    ends: &[End],
) {
    let wrong = first_wrong(rt, alloc, &mut open(rt, alloc, plan), order, ends);
    same(rt, (name, order), wrong, None);
}

/// The phases of a plan have these ends in each order.
fn ends_are<R: Abort>(rt: &R, alloc: Global, name: &str, plan: &Plan, ends: &[End]) {
    for order in ORDERS {
        ends_in_order_are(rt, alloc, name, plan, *order, ends);
    }
}

fn ends_of_file_are<R: Abort>(rt: &R, alloc: Global, name: &str, file: &str, ends: &[End]) {
    ends_are(rt, alloc, name, &plan_of(rt, alloc, file), ends);
}

#[test]
fn a_limited_part_keeps_to_its_limits_in_each_order(rt: HostRuntime) {
    for part in PARTS {
        ends_of_file_are(&rt, rt.alloc(), part.0, part.1, from_ref(&part.2));
    }
}

const VILLAGE_ENDS: [End; 5] = [
    End {
        at: (40, 40, 0),
        members: members![
            (3, 200, 1),
            (4, 0, 1),
            (5, 1000, 1),
            (6, -2000, 1),
            (7, -800, 1),
            (8, 1200, 1),
            (9, 400, 1),
        ],
        limited: &[],
    },
    End {
        at: (47, 47, -1270),
        members: members![
            (3, 0, 2),
            (4, 0, 2),
            (5, 0, 2),
            (6, -2000, 2),
            (7, -800, 1),
            (8, 1200, 1),
            (9, 330, 1),
        ],
        limited: &[],
    },
    End {
        at: (50, 50, -800),
        members: members![
            (3, 0, 2),
            (4, 0, 2),
            (5, -1000, 2),
            (6, -2000, 2),
            (7, -300, 2),
            (8, 1200, 1),
            (9, 300, 1),
            (10, 1000, 1),
        ],
        limited: &[],
    },
    End {
        at: (60, 60, -900),
        members: members![
            (3, 0, 3),
            (4, 0, 3),
            (5, -1000, 3),
            (6, -2000, 3),
            (7, -300, 2),
            (8, 1200, 1),
            (9, 200, 1),
            (10, 1000, 1),
        ],
        limited: &[],
    },
    End {
        at: (53, 53, -2330),
        members: members![
            (3, 0, 3),
            (4, 0, 3),
            (5, 0, 3),
            (6, -2000, 3),
            (7, -300, 2),
            (9, -30, 2),
        ],
        limited: &[],
    },
];

#[test]
fn a_village_comes_to_its_ends_in_each_order(rt: HostRuntime) {
    ends_of_file_are(&rt, rt.alloc(), "village", VILLAGE, &VILLAGE_ENDS);
}
