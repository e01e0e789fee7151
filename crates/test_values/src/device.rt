//! Tests of kinds: ticks worked by hand, and both sides of each limit of a parameter.

use crate::kinds::{battery, cogeneration, freezer, heat_pump};
use crate::same::same;
use crate::shared::may_be_shared;
use pm_device::{DeviceState, Kind, Next, advance};
use std::process::Abort;

const FREEZER: Kind = freezer!(-2200, -1800, 200, 30, 80);

const PUMP: Kind = heat_pump!(1900, 2200, 1500, 20, 60);

const UNIT: Kind = cogeneration!(5000, 8000, 2000, 200, 500);

const SMALL: Kind = battery!(1000, 400, 400, 1);

const HOME: Kind = battery!(5000, 1000, 1000, 5);

const LARGE: Kind = battery!(1_000_000_000, 0, 0, 0);

/// A kind, its state before a tick, its power, the minutes, and its state after the tick, worked by hand.
type Tick = (Kind, i64, i64, i64, i64);

/// The state after is the sum, then the nearest within ±1,000,000.
const TEMPERATURES: &[Tick] = &[
    (FREEZER, -2000, 200, 15, -2050), // -2000 + 30 - 80
    (FREEZER, -2050, 0, 1440, -2020), // -2050 + 30: it did not run, whatever the minutes
    (FREEZER, -2050, 1, 1, -2100), // -2050 + 30 - 80: any positive power
    (FREEZER, -2050, -1, 1, -2020),
    (FREEZER, 999_980, 0, 1, 1_000_000), // 1,000,010
    (FREEZER, 1_000_000, 200, 1, 999_950), // 1,000,030 - 80: moved after the sum alone
    (FREEZER, -999_960, 200, 1, -1_000_000), // -1,000,010
    (PUMP, 2080, 0, 15, 2060),
    (PUMP, 2060, 0, 15, 2040),
    (PUMP, 2060, 1500, 15, 2100), // 2060 - 20 + 60
    (PUMP, -10, 1, 15, 30),
    (PUMP, -10, -1, 15, -30), // it gains where the power is positive alone
    (PUMP, -999_990, 0, 1, -1_000_000),
    (PUMP, 999_970, 1500, 1, 1_000_000), // 1,000,010
    (UNIT, 6000, -2000, 15, 6300), // 6000 - 200 + 500
    (UNIT, 6300, -2000, 15, 6600),
    (UNIT, 6300, 0, 15, 6100),
    (UNIT, 6300, 1, 15, 6100), // it gains where the power is negative alone
    (UNIT, -999_900, 0, 15, -1_000_000),
    (UNIT, 999_800, -1, 15, 1_000_000), // 1,000,100
];

/// The state after is that before and power * minutes / 60 rounded down, then within 0..=capacity.
const CHARGES: &[Tick] = &[
    (SMALL, 500, -400, 15, 400), // -100
    (SMALL, 500, 400, 15, 600),
    (SMALL, 500, 59, 1, 500), // 59 / 60 is 0
    (SMALL, 500, 60, 1, 501),
    (SMALL, 500, -1, 1, 499), // -1 / 60 is -1, rounded down
    (SMALL, 500, -60, 1, 499),
    (SMALL, 500, -61, 1, 498), // -61 / 60 is -2
    (SMALL, 500, 90, 1440, 1000), // 2160: full
    (SMALL, 1000, 400, 15, 1000),
    (SMALL, 1000, -400, 15, 900),
    (SMALL, 900, 400, 15, 1000), // just full
    (SMALL, 0, -400, 15, 0),
    (SMALL, 50, -400, 15, 0),
    (SMALL, 100, -400, 15, 0), // just empty
    (HOME, 2500, 1000, 15, 2750),
    (HOME, 2750, -1000, 30, 2250),
    (LARGE, 0, 1_000_000_000, 60, 1_000_000_000),
    (LARGE, 0, 1_000_000_000, 30, 500_000_000),
    (LARGE, 1_000_000_000, -1_000_000_000, 1440, 0),
    (Kind::Solar, 800, -800, 15, 800), // no ticks: the state stays
    (Kind::Load, 1200, 1200, 15, 1200),
    (Kind::Objective, -1000, 1000, 15, -1000),
    (Kind::Manual, 3, 500, 15, 3),
];

fn tick_is<R: Abort>(rt: &R, tick: Tick) {
    let (kind, before, power, minutes, after) = tick;
    let state = DeviceState(before);
    assert!(rt; kind.valid() && kind.fits(state));
    assert!(rt; -1_000_000_000 <= power && power <= 1_000_000_000);
    assert!(rt; 1 <= minutes && minutes <= 1440);
    let made = advance(&kind, state, power, minutes);
    same(rt, tick, made, DeviceState(after));
}

fn ticks_are<R: Abort>(rt: &R, ticks: &[Tick]) {
    for tick in ticks {
        tick_is(rt, *tick);
    }
}

#[test]
fn temperatures_follow_the_table(rt: HostRuntime) {
    ticks_are(&rt, TEMPERATURES);
}

#[test]
fn charges_follow_the_table(rt: HostRuntime) {
    ticks_are(&rt, CHARGES);
}

/// A kind, and whether its parameters are within their limits.
const VALID: &[(Kind, bool)] = &[
    (
        freezer!(-1_000_000, 1_000_000, 1_000_000_000, 1_000_000, 1_000_000),
        true,
    ),
    (freezer!(0, 1, 0, 0, 0), true),
    (freezer!(1, 1, 0, 0, 0), false),
    (freezer!(2, 1, 0, 0, 0), false),
    (freezer!(-1_000_001, 0, 0, 0, 0), false),
    (freezer!(0, 1_000_001, 0, 0, 0), false),
    (freezer!(0, 1, -1, 0, 0), false),
    (freezer!(0, 1, 1_000_000_001, 0, 0), false),
    (freezer!(0, 1, 0, -1, 0), false),
    (freezer!(0, 1, 0, 0, 1_000_001), false),
    (heat_pump!(0, 1, 0, 1_000_000, 0), true),
    (heat_pump!(0, 1, 0, 1_000_001, 0), false),
    (heat_pump!(0, 1, 0, 0, -1), false),
    (cogeneration!(0, 1, 1_000_000_000, 0, 1_000_000), true),
    (cogeneration!(0, 1, 1_000_000_001, 0, 0), false),
    (battery!(1, 0, 0, 0), true),
    (
        battery!(1_000_000_000, 1_000_000_000, 1_000_000_000, 1000),
        true,
    ),
    (battery!(0, 0, 0, 0), false),
    (battery!(1_000_000_001, 0, 0, 0), false),
    (battery!(1, -1, 0, 0), false),
    (battery!(1, 0, 1_000_000_001, 0), false),
    (battery!(1, 0, 0, -1), false),
    (battery!(1, 0, 0, 1001), false),
    (Kind::Manual, true),
];

#[test]
fn limits_are_those_of_the_profile(rt: HostRuntime) {
    for (kind, valid) in VALID {
        same(&rt, *kind, kind.valid(), *valid);
    }
}

/// A kind, the least state that fits, and the greatest.
const FITS: &[(Kind, i64, i64)] = &[
    (freezer!(0, 1, 0, 0, 0), -1_000_000, 1_000_000),
    (heat_pump!(0, 1, 0, 0, 0), -1_000_000, 1_000_000),
    (cogeneration!(0, 1, 0, 0, 0), -1_000_000, 1_000_000),
    (battery!(700, 0, 0, 0), 0, 700),
    (Kind::Solar, 0, 1_000_000_000),
    (Kind::Load, 0, 1_000_000_000),
    (Kind::Objective, -1_000_000_000, 1_000_000_000),
];

fn fits_is<R: Abort>(rt: &R, kind: Kind, number: i64, fits: bool) {
    same(rt, (kind, number), kind.fits(DeviceState(number)), fits);
}

#[test]
fn states_fit_between_their_ends(rt: HostRuntime) {
    for (kind, least, greatest) in FITS {
        fits_is(&rt, *kind, *least, true);
        fits_is(&rt, *kind, *greatest, true);
        fits_is(&rt, *kind, least.saturating_sub(1), false);
        fits_is(&rt, *kind, greatest.saturating_add(1), false);
    }
    fits_is(&rt, Kind::Manual, i64::MAX, true);
    fits_is(&rt, Kind::Manual, -1, false);
}

/// A kind, and whether its state changes by itself.
const TICKING: &[(Kind, bool)] = &[
    (battery!(1, 0, 0, 0), true),
    (heat_pump!(0, 1, 0, 0, 0), true),
    (Kind::Solar, false),
    (Kind::Manual, false),
];

#[test]
fn some_kinds_tick(rt: HostRuntime) {
    for (kind, ticks) in TICKING {
        same(&rt, *kind, kind.ticks(), *ticks);
    }
}

#[test]
fn threads_may_share_each_type() {
    may_be_shared::<(Next, DeviceState, Kind)>();
}
