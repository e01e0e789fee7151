//! A guard, by which what flows to the children of a node is within its limits at every moment.
//!
//! While new prices travel, one child still takes by an older price and another already by the newest. A [`Guard`] has for
//! each child the bands of powers that it may be taking by now: what it promised to go by, and all that it was told since. It
//! says which child may be told its next band now, so that nothing which the children may be taking leaves the limits. All
//! others are held back, as messages that are late.
#![tactic(auto)]

mod band;
mod child;
mod guard;
mod laws;

pub use band::{ALWAYS, Band};
pub use child::Child;
pub use guard::Guard;
pub use laws::{
    guarded_feeders_stay_within, guards_do_not_get_stuck, guards_restart, relays_are_devices,
    small_guards_are_as_worked_out, targets_that_fit_are_told_at_once,
};
