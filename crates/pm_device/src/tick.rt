//! What a tick makes of a device's state, kind by kind.

ghost use Rattle.std.specs.Prelude.{◌≡◌, ℤ, pos, neg_ℤ, ◌≤ℤ◌, IsTrue};
ghost use Rattle.pm_device.specs.Kinds.{is_valid, state_fits, is_between, is_temperature, is_change, power_limit, capacity_limit, minutes_limit};
ghost use Rattle.pm_device.specs.Ticks.{tick, nearest_temperature, change_if, freezer_after, heated_after, charge_after};

use crate::kind::Kind;
use crate::limits::TEMPERATURE_LIMIT;
use crate::state::DeviceState;

/// The state after a tick of so many minutes, in which the device had this power. The power is in watts, positive
/// if it took power from the cluster, negative if it delivered.
///
/// A freezer warms up by `warm` and cools down by `cool` if the power is positive. A heat pump's room loses `loss`
/// and gains `gain` if the power is positive, a cogeneration unit's buffer if it is negative. These are amounts per
/// tick, whatever its minutes, and the temperature is then moved into ±1,000,000. A battery's charge changes by
/// `power * minutes / 60` watt-hours, rounded down, and is then moved into 0..=capacity. Every other kind keeps its
/// state.
pub fn advance(kind: &Kind, state: DeviceState, power: i64, minutes: i64) -> DeviceState
    requires valid { IsTrue (is_valid kind.now) }
    requires fits { IsTrue (state_fits kind.now state.0) }
    requires power_low { neg_ℤ (pos power_limit) ≤ℤ power }
    requires power_high { power ≤ℤ pos power_limit }
    requires at_least_one_minute { pos 1 ≤ℤ minutes }
    requires at_most_a_day { minutes ≤ℤ pos minutes_limit }
    ensures state { result.0 ≡ tick kind.now state.0 power minutes }
    ensures fits { IsTrue (state_fits kind.now result.0) }
{
    let DeviceState(now) = state;
    DeviceState(number_after(kind, now, power, minutes))
}

/// The number of the state after a tick.
fn number_after(kind: &Kind, now: i64, power: i64, minutes: i64) -> i64
    requires valid { IsTrue (is_valid kind.now) }
    requires fits { IsTrue (state_fits kind.now now) }
    requires power_low { neg_ℤ (pos power_limit) ≤ℤ power }
    requires power_high { power ≤ℤ pos power_limit }
    requires at_least_one_minute { pos 1 ≤ℤ minutes }
    requires at_most_a_day { minutes ≤ℤ pos minutes_limit }
    ensures { result ≡ tick kind.now now power minutes }
{
    match *kind {
        Kind::Freezer { warm, cool, .. } => freezer_after(now, warm, cool, power > 0),
        Kind::HeatPump { loss, gain, .. } => heated_after(now, loss, gain, power > 0),
        Kind::Cogeneration { loss, gain, .. } => heated_after(now, loss, gain, power < 0),
        Kind::Battery { capacity, .. } => charge_after(capacity, now, power, minutes),
        Kind::Solar | Kind::Load | Kind::Objective | Kind::Manual => now,
    }
}

/// A freezer's temperature after a tick.
fn freezer_after(temperature: i64, warm: i64, cool: i64, ran: bool) -> i64
    requires temperature { IsTrue (is_temperature temperature) }
    requires warm { IsTrue (is_change warm) }
    requires cool { IsTrue (is_change cool) }
    ensures after { result ≡ freezer_after temperature warm cool ran }
    ensures fits { IsTrue (is_temperature result) }
{
    nearest_temperature(temperature + warm - change_if(ran, cool))
}

/// The temperature of a room or a buffer after a tick.
fn heated_after(temperature: i64, loss: i64, gain: i64, ran: bool) -> i64
    requires temperature { IsTrue (is_temperature temperature) }
    requires loss { IsTrue (is_change loss) }
    requires gain { IsTrue (is_change gain) }
    ensures after { result ≡ heated_after temperature loss gain ran }
    ensures fits { IsTrue (is_temperature result) }
{
    nearest_temperature(temperature - loss + change_if(ran, gain))
}

/// A change of the temperature if it is so, otherwise 0.
fn change_if(so: bool, change: i64) -> i64
    requires { IsTrue (is_change change) }
    ensures change { result ≡ change_if so change }
    ensures fits { IsTrue (is_change result) }
{
    if so { change } else { 0 }
}

/// The temperature within the limits that is nearest.
fn nearest_temperature(temperature: i64) -> i64
    ensures nearest { result ≡ nearest_temperature temperature }
    ensures fits { IsTrue (is_temperature result) }
{
    temperature.clamp(-TEMPERATURE_LIMIT, TEMPERATURE_LIMIT)
}

/// A battery's charge after so many minutes at this power.
fn charge_after(capacity: i64, stored: i64, power: i64, minutes: i64) -> i64
    requires capacity { IsTrue (is_between (pos 1) (pos capacity_limit) capacity) }
    requires stored { IsTrue (is_between (pos 0) capacity stored) }
    requires power_low { neg_ℤ (pos power_limit) ≤ℤ power }
    requires power_high { power ≤ℤ pos power_limit }
    requires at_least_one_minute { pos 1 ≤ℤ minutes }
    requires at_most_a_day { minutes ≤ℤ pos minutes_limit }
    ensures after { result ≡ charge_after capacity stored power minutes }
    ensures fits { IsTrue (is_between (pos 0) capacity result) }
{
    let energy = (power * minutes).div_euclid(60);
    (stored + energy).clamp(0, capacity)
}
