//! Tests of bases: faults in their order, and prices at equal distances.

use crate::same::same;
use crate::shared::may_be_shared;
use pm_basis::{Basis, BasisFault};

/// The least price, the greatest, the number of steps, and the fault.
const FAULTS: &[(i64, i64, i64, BasisFault)] = &[
    (0, 9, 1, BasisFault::BadSteps),
    (0, 9, 1001, BasisFault::BadSteps),
    (9, 0, 1, BasisFault::BadSteps),
    (9, 9, 10, BasisFault::BadRange),
    (0, 1_000_000_001, 2, BasisFault::BadRange),
    (0, 10, 10, BasisFault::Uneven),
];

#[test]
fn faults_come_in_their_order(rt: HostRuntime) {
    for row in FAULTS {
        same(&rt, row, Basis::new(row.0, row.1, row.2), Err(row.3));
    }
}

/// Bases and faults may be sent to threads and shared by them: it is proved here.
#[test]
fn bases_may_be_shared() {
    may_be_shared::<(Basis, BasisFault)>();
}

/// The prices from -100 to 100 in five steps.
const PRICES: &[i64] = &[-100, -50, 0, 50, 100];

fn price_at(basis: &Basis, step: usize) -> Option<i64> {
    if step < basis.steps() {
        Some(basis.price(step))
    } else {
        None
    }
}

#[test]
fn prices_stand_at_equal_distances(rt: HostRuntime) {
    let basis = Basis::new(-100, 100, 5).expect(&rt, "a basis");
    same(&rt, "steps", basis.steps(), PRICES.len());
    for (step, price) in PRICES.iter().enumerate() {
        same(&rt, step, price_at(&basis, step), Some(*price));
    }
}
