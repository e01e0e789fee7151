//! Tests of strategies: the bids of each kind over bases of ten and a hundred steps, by hand.

ghost use Rattle.std.specs.Prelude.{◌≡◌, ◌<◌, length};
ghost use Rattle.pm_base.specs.Limits.{AreSteps, IsWithin, sum_limit};
ghost use Rattle.pm_bid.specs.Bids.{HaveSteps};

use crate::kinds::{battery, cogeneration, freezer, heat_pump};
use crate::same::same;
use pm_bid::{ArrayBid, uncounted};
use pm_device::{DeviceState, Kind};
use pm_strategy::fill_bid;
use std::alloc::Global;
use std::process::Abort;

const COLD: Kind = freezer!(-2200, -1800, 200, 30, 80);

const PUMP: Kind = heat_pump!(-500, -200, 10, 20, 60);

const UNIT: Kind = cogeneration!(-500, -200, 10, 200, 500);

const STORE: Kind = battery!(1000, 400, 300, 1);

const CLOSE: Kind = battery!(900, 400, 300, 0);

const WARM_PUMP: Kind = heat_pump!(1900, 2200, 1500, 20, 60);

const WARM_UNIT: Kind = cogeneration!(5000, 8000, 2000, 200, 500);

const HOME: Kind = battery!(5000, 1000, 1000, 5);

/// A kind, its number, its demands, and the steps at which the first two of them end.
type Row = (Kind, i64, (i64, i64, i64), (usize, usize));

/// One demand at the steps before the first end, the next before the second end, and the last from there on.
fn demand_at(row: &Row, step: usize) -> i64 {
    let (demands, ends) = (row.2, row.3);
    if step < ends.0 {
        demands.0
    } else if step < ends.1 {
        demands.1
    } else {
        demands.2
    }
}

fn demands_are<R: Abort>(rt: &R, bid: &ArrayBid, row: &Row) {
    let mut counter = uncounted();
    for step in 0..bid.steps() {
        let have = bid.at(step, &mut counter);
        same(rt, (row.0, row.1, step), have, demand_at(row, step));
    }
}

/// The bid of the row's kind is that of the row.
fn bid_is<R: Abort>(rt: &R, out: &mut ArrayBid, row: &Row) {
    let (kind, state) = (row.0, DeviceState(row.1));
    assert!(rt; kind.valid() && kind.fits(state));
    fill_bid(&kind, state, &[], out);
    demands_are(rt, out, row);
}

/// Ten steps, so the last is 9. Each row is worked by hand.
const TEN: &[Row] = &[
    (COLD, -2000, (200, 0, 0), (5, 10)), // 200 * 9 / 400 = 4.5
    (COLD, -1800, (200, 0, 0), (10, 10)),
    (COLD, -1700, (200, 0, 0), (10, 10)),
    (COLD, -1801, (200, 0, 0), (9, 10)), // 399 * 9 / 400 = 8.9
    (COLD, -2199, (200, 0, 0), (1, 10)), // 9 / 400 = 0.02
    (COLD, -2200, (0, 0, 0), (0, 0)),
    (COLD, -2300, (0, 0, 0), (0, 0)),
    (freezer!(0, 9, 7, 30, 80), 4, (7, 0, 0), (5, 10)), // 4 * 9 / 9 = 4
    (PUMP, -300, (10, 0, 0), (4, 10)), // 100 * 9 / 300 = 3
    (PUMP, -500, (10, 0, 0), (10, 10)),
    (PUMP, -499, (10, 0, 0), (9, 10)), // 299 * 9 / 300 = 8.97
    (PUMP, -201, (10, 0, 0), (1, 10)), // 9 / 300 = 0.03
    (PUMP, -200, (0, 0, 0), (0, 0)),
    (UNIT, -300, (0, -10, -10), (6, 10)), // 200 * 9 / 300 = 6
    (UNIT, -299, (0, -10, -10), (7, 10)), // 201 * 9 / 300 = 6.03, rounded up
    (UNIT, -500, (-10, -10, -10), (10, 10)),
    (UNIT, -499, (0, -10, -10), (1, 10)), // 9 / 300 = 0.03, rounded up
    (UNIT, -201, (0, -10, -10), (9, 10)), // 299 * 9 / 300 = 8.97, rounded up
    (UNIT, -200, (0, 0, 0), (0, 0)),
    (STORE, 500, (400, 0, -300), (3, 6)), // the middle is 4.5, so 4
    (STORE, 0, (400, 0, -300), (8, 10)), // the middle is 9
    (STORE, 1000, (400, 0, -300), (0, 2)), // the middle is 0
    (CLOSE, 500, (400, 0, -300), (4, 5)), // the middle is 4
    (CLOSE, 0, (400, 0, -300), (9, 10)),
    (CLOSE, 900, (400, 0, -300), (0, 1)),
    (battery!(900, 400, 300, 1000), 500, (0, 0, 0), (0, 0)),
    (battery!(1000, 400, 400, 1), 500, (400, 0, -400), (3, 6)),
    (Kind::Solar, 800, (-800, 0, 0), (10, 10)),
    (Kind::Load, 1200, (1200, 0, 0), (10, 10)),
    (Kind::Objective, -1000, (1000, 0, 0), (10, 10)),
    (Kind::Objective, 300, (-300, 0, 0), (10, 10)),
    (Kind::Manual, 0, (0, 0, 0), (0, 0)), // no array has this number
];

/// A hundred steps, so the last is 99.
const HUNDRED: &[Row] = &[
    (COLD, -2000, (200, 0, 0), (50, 100)), // 200 * 99 / 400 = 49.5
    (COLD, -2050, (200, 0, 0), (38, 100)), // 37.1
    (COLD, -2020, (200, 0, 0), (45, 100)), // 44.6
    (WARM_PUMP, 2080, (1500, 0, 0), (40, 100)), // 120 * 99 / 300 = 39.6
    (WARM_PUMP, 2060, (1500, 0, 0), (47, 100)), // 46.2
    (WARM_PUMP, 2040, (1500, 0, 0), (53, 100)), // 52.8
    (WARM_UNIT, 6000, (0, -2000, 0), (33, 100)), // 1000 * 99 / 3000 = 33
    (WARM_UNIT, 6300, (0, -2000, 0), (43, 100)), // 42.9
    (WARM_UNIT, 6600, (0, -2000, 0), (53, 100)), // 52.8
    (HOME, 2500, (1000, 0, -1000), (44, 55)), // 2500 * 99 / 5000 = 49.5
    (HOME, 2750, (1000, 0, -1000), (39, 50)), // 44.6
    (HOME, 2250, (1000, 0, -1000), (49, 60)), // 54.5
];

/// Each row has its bid over so many steps.
fn rows_are<R: Abort>(rt: &R, alloc: Global, steps: usize, rows: &[Row])
    requires { AreSteps steps }
{
    let mut out = ArrayBid::zero(alloc, steps, &mut uncounted()).expect(rt, "memory");
    for row in rows {
        bid_is(rt, &mut out, row);
    }
}

#[test]
fn bids_of_ten_steps_follow_the_table(rt: HostRuntime) {
    rows_are(&rt, rt.alloc(), 10, TEN);
}

#[test]
fn bids_of_a_hundred_steps_follow_the_table(rt: HostRuntime) {
    rows_are(&rt, rt.alloc(), 100, HUNDRED);
}

/// An array of three steps with one demand at a step, and 0 at the others.
fn array_with<R: Abort>(rt: &R, alloc: Global, step: usize, demand: i64) -> ArrayBid
    requires step { step < 3 }
    requires within { IsWithin sum_limit demand }
    ensures { length result ≡ 3 }
{
    let mut counter = uncounted();
    let mut array = ArrayBid::zero(alloc, 3, &mut counter).expect(rt, "memory");
    array.set(step, demand, &mut counter);
    array
}

/// The demands of a manual device with the number, at the first step and the last of three.
fn manual_bid(out: &mut ArrayBid, number: u8, arrays: &[ArrayBid]) -> (i64, i64)
    requires steps { length out.old ≡ 3 }
    requires arrays { HaveSteps 3 arrays.now }
    ensures steps { length out.new ≡ 3 }
{
    let state = DeviceState(i64::from(number));
    fill_bid(&Kind::Manual, state, arrays, out);
    let mut counter = uncounted();
    (out.at(0, &mut counter), out.at(2, &mut counter))
}

/// The number of a manual device counts the arrays from 0; a number without an array bids nothing.
fn manual_bids_are(rt: &impl Abort, alloc: Global, arrays: &[ArrayBid])
    requires { HaveSteps 3 arrays.now }
{
    let mut out = ArrayBid::zero(alloc, 3, &mut uncounted()).expect(rt, "memory");
    same(rt, 1, manual_bid(&mut out, 1, arrays), (0, -5));
    same(rt, 2, manual_bid(&mut out, 2, arrays), (0, 0));
}

#[test]
fn a_manual_device_bids_its_array(rt: HostRuntime) {
    let alloc = rt.alloc();
    let arrays = [array_with(&rt, alloc, 0, 7), array_with(&rt, alloc, 2, -5)];
    let arrays = Vec::from_array(alloc, arrays).expect(&rt, "memory");
    manual_bids_are(&rt, alloc, &arrays);
}
