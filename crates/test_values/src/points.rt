//! Tests of point bids: faults in their order, and demands on the lines between points.

use crate::same::same;
use crate::shared::may_be_shared;
use pm_basis::Basis;
use pm_bid::{ArrayBid, uncounted};
use pm_points::{PointBid, PointFault};
use std::alloc::Global;
use std::process::Abort;

/// The basis of the prices 0 to 9.
fn ten_prices<R: Abort>(rt: &R) -> Basis {
    Basis::new(0, 9, 10).expect(rt, "a basis")
}

/// The fault of these points, if they are no bid on this basis.
fn fault_of<R: Abort>(
    rt: &R,
    alloc: Global,
    points: &[(i64, i64)],
    basis: &Basis,
) -> Option<PointFault> {
    PointBid::new(points.to_vec(alloc).expect(rt, "memory"), basis).err()
}

const FAULTS: &[(&[(i64, i64)], Option<PointFault>)] = &[
    (&[], Some(PointFault::NoPoints)),
    (&[(0, 0); 65], Some(PointFault::TooMany { have: 65 })),
    (&[(0, 0); 64], None),
    (&[(5, 10), (4, 0)], Some(PointFault::PriceFalls { at: 1 })),
    (&[(0, 5), (1, 6)], Some(PointFault::Rising { at: 1 })),
    (
        &[(0, 6), (1, 7), (0, 5)],
        Some(PointFault::PriceFalls { at: 2 }),
    ),
    (
        &[(0, 0), (1, -1_000_000_001)],
        Some(PointFault::TooLarge { at: 1 }),
    ),
    (&[(0, 5), (10, 4)], Some(PointFault::PriceOutside { at: 1 })),
];

#[test]
fn the_first_fault_is_named(rt: HostRuntime) {
    let basis = ten_prices(&rt);
    for row in FAULTS {
        same(&rt, row.0, fault_of(&rt, rt.alloc(), row.0, &basis), row.1);
    }
}

/// The bid of these points on this basis.
fn bid_of<R: Abort>(rt: &R, alloc: Global, points: &[(i64, i64)], basis: &Basis) -> PointBid {
    let points = points.to_vec(alloc).expect(rt, "memory");
    PointBid::new(points, basis).expect(rt, "a bid")
}

/// The array of these points on this basis.
fn array_of<R: Abort>(rt: &R, alloc: Global, points: &[(i64, i64)], basis: &Basis) -> ArrayBid {
    bid_of(rt, alloc, points, basis)
        .to_array(basis)
        .expect(rt, "memory")
}

/// The array has these demands, step by step.
fn array_is(rt: &impl Abort, array: &ArrayBid, demands: &[i64]) {
    same(rt, demands, array.steps(), demands.len());
    let mut counter = uncounted();
    for step in 0..array.steps() {
        let due = demands.get(step).copied();
        same(rt, step, Some(array.at(step, &mut counter)), due);
    }
}

/// The points, and the demands step by step. Rounding towards zero would give 10, 7, 4 for the second of these bids.
const LINES: &[(&[(i64, i64)], &[i64])] = &[
    (&[(4, 100), (4, 0)], &[100, 100, 100, 100, 0, 0, 0, 0, 0, 0]),
    (&[(0, 10), (3, 0)], &[10, 6, 3, 0, 0, 0, 0, 0, 0, 0]),
    (
        &[(0, 300), (9, -150)],
        &[300, 250, 200, 150, 100, 50, 0, -50, -100, -150],
    ),
];

#[test]
fn the_demand_lies_on_the_lines(rt: HostRuntime) {
    let basis = ten_prices(&rt);
    for row in LINES {
        array_is(&rt, &array_of(&rt, rt.alloc(), row.0, &basis), row.1);
    }
}

/// On the prices 0 to 99: 600 up to price 20, then 10 less for each price, and 0 from price 80.
const LEVEL_THEN_DOWN: [(u8, i64); 7] = [
    (0, 600),
    (20, 600),
    (21, 590),
    (50, 300),
    (79, 10),
    (80, 0),
    (99, 0),
];

/// On the same prices: 500 less 10 for each price.
const DOWN: [(u8, i64); 6] = [
    (0, 500),
    (1, 490),
    (50, 0),
    (51, -10),
    (98, -480),
    (99, -490),
];

fn demands_at_are(rt: &impl Abort, bid: &PointBid, demands: &[(u8, i64)]) {
    for (price, demand) in demands {
        same(rt, *price, bid.demand_at(i64::from(*price)), *demand);
    }
}

/// Points, and demands of their bid at some prices.
const BIDS: &[(&[(i64, i64)], &[(u8, i64)])] = &[
    (&[(20, 600), (80, 0)], &LEVEL_THEN_DOWN),
    (&[(0, 500), (99, -490)], &DOWN),
];

#[test]
fn bids_of_a_hundred_steps(rt: HostRuntime) {
    let basis = Basis::new(0, 99, 100).expect(&rt, "a basis");
    for row in BIDS {
        demands_at_are(&rt, &bid_of(&rt, rt.alloc(), row.0, &basis), row.1);
    }
}

/// Bids and faults may be sent to threads and shared by them: it is proved here.
#[test]
fn point_bids_may_be_shared() {
    may_be_shared::<(PointBid, PointFault)>();
}
