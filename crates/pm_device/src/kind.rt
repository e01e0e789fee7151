//! The kinds of device with their parameters: which are valid, which states fit, which kinds tick.

use crate::limits::{POWER_LIMIT, is_battery, is_between, is_power, is_temperature, is_thermal};
use crate::state::DeviceState;

/// A kind of device with its parameters. Powers are in watts, `capacity` is in watt-hours, `spread` in steps of the
/// market basis. `warm`, `cool`, `loss` and `gain` are amounts of temperature for one tick.
#[derive(Clone, Copy, Debug)]
pub enum Kind {
    /// Keeps its temperature between `low` and `high`. It warms up by `warm`, and cools down by `cool` if it runs.
    Freezer {
        low: i64,
        high: i64,
        power: i64,
        warm: i64,
        cool: i64,
    },
    /// Keeps a room's temperature between `low` and `high`. The room loses `loss`, and gains `gain` if it runs.
    HeatPump {
        low: i64,
        high: i64,
        power: i64,
        loss: i64,
        gain: i64,
    },
    /// Delivers power and heats a buffer. The buffer loses `loss`, and gains `gain` if the unit runs.
    Cogeneration {
        low: i64,
        high: i64,
        power: i64,
        loss: i64,
        gain: i64,
    },
    /// Stores up to `capacity`; takes `charge` at low prices and delivers `discharge` at high ones.
    Battery {
        capacity: i64,
        charge: i64,
        discharge: i64,
        spread: i64,
    },
    /// Delivers its state at every price.
    Solar,
    /// Takes its state at every price.
    Load,
    /// Asks the cluster for the power of its state: to take it if positive, to deliver it if negative.
    Objective,
    /// Bids the array whose number is its state.
    Manual,
}

impl Kind {
    ghost use Rattle.std.specs.Prelude.{◌≡◌};
    ghost use Rattle.pm_device.specs.Kinds.{is_valid, state_fits, has_ticks};
    ghost use Rattle.pm_device.specs.Keys.{key_of};

    /// True exactly if every parameter lies within its limits and `low` is below `high`. Temperatures are within
    /// ±1,000,000, their changes in 0..=1,000,000, powers in 0..=1,000,000,000. A capacity is in
    /// 1..=1,000,000,000, a spread in 0..=1000.
    pub fn valid(&self) -> bool
        ensures valid { result ≡ is_valid self.now }
    {
        match *self {
            Kind::Freezer {
                low,
                high,
                power,
                warm,
                cool,
            } => is_thermal(low, high, power, warm, cool),
            Kind::HeatPump {
                low,
                high,
                power,
                loss,
                gain,
            } => is_thermal(low, high, power, loss, gain),
            Kind::Cogeneration {
                low,
                high,
                power,
                loss,
                gain,
            } => is_thermal(low, high, power, loss, gain),
            Kind::Battery {
                capacity,
                charge,
                discharge,
                spread,
            } => is_battery(capacity, charge, discharge, spread),
            Kind::Solar | Kind::Load | Kind::Objective | Kind::Manual => true,
        }
    }

    /// True exactly if a device of this kind may have the state. A temperature is within ±1,000,000, a charge in
    /// 0..=capacity, an output or a load in 0..=1,000,000,000. A target is within ±1,000,000,000, and a number of
    /// an array is not negative.
    pub fn fits(&self, state: DeviceState) -> bool
        ensures fits { result ≡ state_fits self.now state.0 }
    {
        let DeviceState(number) = state;
        match *self {
            Kind::Freezer { .. } | Kind::HeatPump { .. } | Kind::Cogeneration { .. } => {
                is_temperature(number)
            }
            Kind::Battery { capacity, .. } => is_between(0, capacity, number),
            Kind::Solar | Kind::Load => is_power(number),
            Kind::Objective => is_between(-POWER_LIMIT, POWER_LIMIT, number),
            Kind::Manual => number >= 0,
        }
    }

    /// True exactly for the kinds whose state changes by itself at a tick: freezer, heat pump, cogeneration unit and
    /// battery.
    pub fn ticks(&self) -> bool
        ensures ticks { result ≡ has_ticks self.now }
    {
        match *self {
            Kind::Freezer { .. }
            | Kind::HeatPump { .. }
            | Kind::Cogeneration { .. }
            | Kind::Battery { .. } => true,
            Kind::Solar | Kind::Load | Kind::Objective | Kind::Manual => false,
        }
    }

    /// The number of the kind among the kinds, and its parameters in their order with zeros after them.
    fn key(&self) -> (u8, i64, i64, i64, i64, i64)
        ensures { result ≡ key_of self.now }
    {
        match *self {
            Kind::Freezer {
                low,
                high,
                power,
                warm,
                cool,
            } => (0, low, high, power, warm, cool),
            Kind::HeatPump {
                low,
                high,
                power,
                loss,
                gain,
            } => (1, low, high, power, loss, gain),
            Kind::Cogeneration {
                low,
                high,
                power,
                loss,
                gain,
            } => (2, low, high, power, loss, gain),
            Kind::Battery {
                capacity,
                charge,
                discharge,
                spread,
            } => (3, capacity, charge, discharge, spread, 0),
            Kind::Solar => (4, 0, 0, 0, 0, 0),
            Kind::Load => (5, 0, 0, 0, 0, 0),
            Kind::Objective => (6, 0, 0, 0, 0, 0),
            Kind::Manual => (7, 0, 0, 0, 0, 0),
        }
    }
}

impl PartialEq for Kind {
    ghost use Rattle.std.specs.Prelude.{◌≡◌, ◌↔◌, IsTrue};
    ghost use Rattle.std.specs.Cmp.Rules.{comparing};
    ghost use Rattle.std.proofs.Common.{rules};
    ghost use Rattle.pm_device.specs.Keys.{are_same_kinds};

    ghost eq = { are_same_kinds };

    ghost laws = { Prim.search (comparing, rules) depth 10 };

    /// True exactly if both are the same kind with the same parameters.
    fn eq(&self, other: &Kind) -> bool
        ensures test { result ≡ are_same_kinds self.now other.now }
        ensures same { IsTrue result ↔ (self.now ≡ other.now) }
    {
        self.key() == other.key()
    }
}

impl Eq for Kind {
    ghost use Rattle.std.specs.Cmp.Rules.{comparing};
    ghost use Rattle.std.proofs.Common.{rules};

    ghost laws = { Prim.search (comparing, rules) depth 10 };
}
