//! Tests of array bids: faults in their order, and a market without bids.

use crate::same::same;
use crate::shared::may_be_shared;
use pm_bid::{ArrayBid, BidFault, BidHead, uncounted};
use std::alloc::Global;
use std::process::Abort;

/// The fault of these demands, if they are no bid of three steps.
fn fault_of<R: Abort>(rt: &R, alloc: Global, demands: &[i64]) -> Option<BidFault> {
    let demands = demands.to_vec(alloc).expect(rt, "memory");
    ArrayBid::new(demands, 3, &mut uncounted()).err()
}

/// The sum of no bids at ten steps.
fn no_bids<R: Abort>(rt: &R, alloc: Global) -> ArrayBid {
    ArrayBid::zero(alloc, 10, &mut uncounted()).expect(rt, "memory")
}

fn has_no_power(rt: &impl Abort, bid: &ArrayBid) {
    let mut counter = uncounted();
    same(rt, "clears", bid.first_not_positive(&mut counter), 0);
    for step in 0..bid.steps() {
        same(rt, step, bid.at(step, &mut counter), 0);
    }
}

#[test]
fn a_market_without_bids_has_no_power_and_clears_at_the_first_step(rt: HostRuntime) {
    has_no_power(&rt, &no_bids(&rt, rt.alloc()));
}

/// A wrong length comes before a rise, and a rise before a demand that is too large.
const FAULTS: &[(&[i64], Option<BidFault>)] = &[
    (&[5, 6], Some(BidFault::WrongLength { have: 2 })),
    (&[1_000_000_001, 5, 6], Some(BidFault::Rising { at: 2 })),
    (&[1_000_000_001, 0, 0], Some(BidFault::TooLarge { at: 0 })),
    (&[0, 0, -1_000_000_001], Some(BidFault::TooLarge { at: 2 })),
    (&[1_000_000_000, 0, -1_000_000_000], None),
];

#[test]
fn the_first_fault_is_named(rt: HostRuntime) {
    for row in FAULTS {
        same(&rt, row.0, fault_of(&rt, rt.alloc(), row.0), row.1);
    }
}

/// Bids, heads and faults may be sent to threads and shared by them: it is proved here.
#[test]
fn bids_may_be_shared() {
    may_be_shared::<(ArrayBid, BidHead, BidFault)>();
}
