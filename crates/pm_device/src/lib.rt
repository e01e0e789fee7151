//! Devices: their kinds with parameters, their states, and what a tick makes of a state.
//!
//! A device is a leaf of the cluster. A device agent of the PowerMatcher has one (J. K. Kok, "The PowerMatcher:
//! Smart Coordination for the Smart Electricity Grid", 2013). The kinds, their limits and their ticks are this
//! project's own profile, in whole numbers:
//!
//! - Power is in watts, and positive if the device takes power from the cluster. Charge is in watt-hours, time in
//!   minutes. Temperatures are plain numbers in the units of the cluster file.
//! - A tick changes a temperature by fixed amounts, whatever its minutes. It changes a battery's charge by the
//!   energy of the minutes, rounded down to whole watt-hours.
//! - No call takes memory.
//!
//! Each question about a kind has one table. `kind` has its parameters, their limits, the states that fit, whether it ticks,
//! and the row of numbers by which kinds are compared. `tick` has what a tick makes of a state. The definitions are in `Kinds`,
//! `Keys` and `Ticks`.
#![tactic(auto)]

mod kind;
mod limits;
mod state;
mod tick;

pub use kind::Kind;
pub use state::{DeviceState, Next};
pub use tick::advance;
