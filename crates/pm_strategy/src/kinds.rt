//! The bid of each kind in each state, as at most three levels of demand.

ghost use Rattle.std.specs.Prelude.{◌≡◌, ℕ, ◌≤◌, ◌*◌, pos, ◌≤ℤ◌, ◌<ℤ◌, IsTrue, MatchOption};
ghost use Rattle.pm_base.specs.Limits.{demand_limit};
ghost use Rattle.pm_device.specs.Kinds.{is_temperature, is_band, is_power, is_battery, is_between, spread_limit, is_valid, state_fits};
ghost use Rattle.pm_strategy.specs.Steps.{last_limit, share, share_up, up_to, from_on};
ghost use Rattle.pm_strategy.specs.Levels.{level_at, AreLevelsOf};
ghost use Rattle.pm_strategy.specs.Strategies.{freezer_demand, heat_pump_demand, cogeneration_demand, battery_demand, around};

use crate::levels::Levels;
use crate::shares::{share, share_up};
use pm_device::{DeviceState, Kind};

/// The demand of a device at each step up to the last one; None for a manual device.
pub(crate) fn levels_of(kind: &Kind, state: DeviceState, last: usize) -> Option<Levels>
    requires valid { IsTrue (is_valid kind.now) }
    requires fits { IsTrue (state_fits kind.now state.0) }
    requires last_small { last ≤ last_limit }
    ensures levels { MatchOption result (kind.now ≡ Kind.Manual)
        (AreLevelsOf kind.now state.0 last) }
{
    let DeviceState(now) = state;
    match *kind {
        Kind::Freezer {
            low,
            high,
            power,
            ..
        } => Some(freezer(low, high, power, now, last)),
        Kind::HeatPump {
            low,
            high,
            power,
            ..
        } => Some(heat_pump(low, high, power, now, last)),
        Kind::Cogeneration {
            low,
            high,
            power,
            ..
        } => Some(cogeneration(low, high, power, now, last)),
        Kind::Battery {
            capacity,
            charge,
            discharge,
            spread,
        } => Some(battery(capacity, charge, discharge, spread, now, last)),
        Kind::Solar | Kind::Objective => Some(Levels::flat(-now)),
        Kind::Load => Some(Levels::flat(now)),
        Kind::Manual => None,
    }
}

/// A freezer takes power at every price if it is too warm, and at no price if it is cold enough. Between these it
/// takes power at more prices the warmer it is.
fn freezer(low: i64, high: i64, power: i64, temperature: i64, last: usize) -> Levels
    requires band { IsTrue (is_band low high) }
    requires temperature { IsTrue (is_temperature temperature) }
    requires last_small { last ≤ last_limit }
    ensures { (step : ℕ) → level_at result step
        ≡ freezer_demand low high power temperature last step }
{
    if temperature >= high {
        return Levels::flat(power);
    }
    if temperature <= low {
        return Levels::flat(0);
    }
    up_to_share(power, temperature - low, high - low, last)
}

/// A heat pump takes power at every price if its room is too cold, and at no price if it is warm enough. Between
/// these it takes power at more prices the colder it is.
fn heat_pump(low: i64, high: i64, power: i64, room: i64, last: usize) -> Levels
    requires band { IsTrue (is_band low high) }
    requires room { IsTrue (is_temperature room) }
    requires last_small { last ≤ last_limit }
    ensures { (step : ℕ) → level_at result step ≡ heat_pump_demand low high power room last step }
{
    if room <= low {
        return Levels::flat(power);
    }
    if room >= high {
        return Levels::flat(0);
    }
    up_to_share(power, high - room, high - low, last)
}

/// A cogeneration unit delivers power at every price if its buffer is too cold, and at no price if it is hot enough.
/// Between these it delivers from a lower price on the colder it is.
fn cogeneration(low: i64, high: i64, power: i64, buffer: i64, last: usize) -> Levels
    requires band { IsTrue (is_band low high) }
    requires power { IsTrue (is_power power) }
    requires buffer { IsTrue (is_temperature buffer) }
    requires last_small { last ≤ last_limit }
    ensures { (step : ℕ) → level_at result step
        ≡ cogeneration_demand low high power buffer last step }
{
    if buffer <= low {
        return Levels::flat(-power);
    }
    if buffer >= high {
        return Levels::flat(0);
    }
    from_share(-power, buffer - low, high - low, last)
}

/// A power up to the share of the part, rounded down, and 0 above.
fn up_to_share(power: i64, part: i64, whole: i64, last: usize) -> Levels
    requires part_not_negative { pos 0 ≤ℤ part }
    requires part_small { part ≤ℤ pos demand_limit }
    requires whole_positive { pos 0 <ℤ whole }
    requires last_small { last ≤ last_limit }
    ensures { (step : ℕ) → level_at result step ≡ up_to power (share part whole last) step }
{
    Levels::split(power, share(part, whole, last) + 1, 0)
}

/// A power from the share of the part on, rounded up, and 0 below.
fn from_share(power: i64, part: i64, whole: i64, last: usize) -> Levels
    requires part_not_negative { pos 0 ≤ℤ part }
    requires part_small { part ≤ℤ pos demand_limit }
    requires whole_positive { pos 0 <ℤ whole }
    requires last_small { last ≤ last_limit }
    ensures { (step : ℕ) → level_at result step ≡ from_on power (share_up part whole last) step }
{
    Levels::split(0, share_up(part, whole, last), power)
}

/// A battery charges below a middle price and discharges above it, at a distance of more than its spread. The middle
/// is lower the fuller it is.
fn battery(
    capacity: i64,
    charge: i64,
    discharge: i64,
    spread: i64,
    stored: i64,
    last: usize,
) -> Levels
    requires parameters { IsTrue (is_battery capacity charge discharge spread) }
    requires stored { IsTrue (is_between (pos 0) capacity stored) }
    requires last_small { last ≤ last_limit }
    ensures { (step : ℕ) →
        level_at result step ≡ battery_demand capacity charge discharge spread stored last step }
{
    around(
        share(capacity - stored, capacity, last),
        charge,
        discharge,
        spread,
    )
}

/// A charge at the steps more than `spread` below the middle, a discharge at those more than `spread` above it.
fn around(middle: i64, charge: i64, discharge: i64, spread: i64) -> Levels
    requires middle_not_negative { pos 0 ≤ℤ middle }
    requires middle_small { middle ≤ℤ pos (demand_limit * last_limit) }
    requires discharge { IsTrue (is_power discharge) }
    requires spread { IsTrue (is_between (pos 0) (pos spread_limit) spread) }
    ensures { (step : ℕ) → level_at result step ≡ around middle charge discharge spread step }
{
    Levels {
        first: charge,
        first_end: middle - spread,
        second: 0,
        second_end: middle + spread + 1,
        third: -discharge,
    }
}
