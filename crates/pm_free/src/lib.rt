//! A running market over links without a lock, phase by phase, beside a board of the caller.
//!
//! The board plans: it has the changes of each phase, with what each makes of its device. [`run_free`] hands them to the nodes of
//! `pm_phase`, whose messages pass links without a lock while threads make their turns. If the numbers that the nodes and the links
//! have say that the phase is settled, its end is read of what the nodes hold, and of nothing else: it came over the links. No
//! clause says how often a thread takes a turn, so a phase need not settle. From the first such phase on the ends are those of the
//! board, which makes the same changes. [`settle_free`] answers the ends alone.
#![tactic(auto)]

mod counting;
mod phase;
mod planning;
mod settle;

pub use phase::FreePhase;
pub use settle::{FreeRun, run_free, settle_free};
