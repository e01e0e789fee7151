//! Kinds by their parameters, as tables of constants write them.

macro_rules! freezer {
    ($low:expr, $high:expr, $power:expr, $warm:expr, $cool:expr) => {
        Kind::Freezer {
            low: $low,
            high: $high,
            power: $power,
            warm: $warm,
            cool: $cool,
        }
    };
}

macro_rules! heat_pump {
    ($low:expr, $high:expr, $power:expr, $loss:expr, $gain:expr) => {
        Kind::HeatPump {
            low: $low,
            high: $high,
            power: $power,
            loss: $loss,
            gain: $gain,
        }
    };
}

macro_rules! cogeneration {
    ($low:expr, $high:expr, $power:expr, $loss:expr, $gain:expr) => {
        Kind::Cogeneration {
            low: $low,
            high: $high,
            power: $power,
            loss: $loss,
            gain: $gain,
        }
    };
}

macro_rules! battery {
    ($capacity:expr, $charge:expr, $discharge:expr, $spread:expr) => {
        Kind::Battery {
            capacity: $capacity,
            charge: $charge,
            discharge: $discharge,
            spread: $spread,
        }
    };
}

pub(crate) use battery;
pub(crate) use cogeneration;
pub(crate) use freezer;
pub(crate) use heat_pump;
