//! The limits of the parameters of devices, and the tests that the kinds share.

ghost use Rattle.std.specs.Prelude.{◌≡◌};
ghost use Rattle.pm_device.specs.Kinds.{is_between, is_temperature, is_band, is_change, are_changes, is_power, is_thermal, is_battery};

/// The largest absolute value of a temperature.
pub(crate) const TEMPERATURE_LIMIT: i64 = 1_000_000;

/// The most that one cause changes a temperature by in a tick.
pub(crate) const CHANGE_LIMIT: i64 = 1_000_000;

/// The most power of one device, in watts.
pub(crate) const POWER_LIMIT: i64 = 1_000_000_000;

/// The most charge of a battery, in watt-hours.
pub(crate) const CAPACITY_LIMIT: i64 = 1_000_000_000;

/// The most steps between a battery's middle step and the step at which it begins to charge or to discharge.
pub(crate) const SPREAD_LIMIT: i64 = 1000;

/// Whether a number lies between two others or is one of them.
pub(crate) fn is_between(low: i64, high: i64, number: i64) -> bool
    ensures { result ≡ is_between low high number }
{
    low <= number && number <= high
}

/// Whether a number is a temperature.
pub(crate) fn is_temperature(number: i64) -> bool
    ensures { result ≡ is_temperature number }
{
    is_between(-TEMPERATURE_LIMIT, TEMPERATURE_LIMIT, number)
}

/// Whether two numbers are the ends of a band of temperatures.
pub(crate) fn is_band(low: i64, high: i64) -> bool
    ensures { result ≡ is_band low high }
{
    is_temperature(low) && is_temperature(high) && low < high
}

/// Whether a number is a temperature's change in one tick for one cause.
pub(crate) fn is_change(number: i64) -> bool
    ensures { result ≡ is_change number }
{
    is_between(0, CHANGE_LIMIT, number)
}

/// Whether two numbers are such changes.
pub(crate) fn are_changes(drift: i64, effect: i64) -> bool
    ensures { result ≡ are_changes drift effect }
{
    is_change(drift) && is_change(effect)
}

/// Whether a number is a power without direction.
pub(crate) fn is_power(number: i64) -> bool
    ensures { result ≡ is_power number }
{
    is_between(0, POWER_LIMIT, number)
}

/// Whether a device that keeps a temperature may have these parameters: the band, its power, and the changes of the
/// temperature in a tick.
pub(crate) fn is_thermal(low: i64, high: i64, power: i64, drift: i64, effect: i64) -> bool
    ensures { result ≡ is_thermal low high power drift effect }
{
    is_band(low, high) && is_power(power) && are_changes(drift, effect)
}

/// Whether a battery may have these parameters.
pub(crate) fn is_battery(capacity: i64, charge: i64, discharge: i64, spread: i64) -> bool
    ensures { result ≡ is_battery capacity charge discharge spread }
{
    is_between(1, CAPACITY_LIMIT, capacity)
        && is_power(charge)
        && is_power(discharge)
        && is_between(0, SPREAD_LIMIT, spread)
}
