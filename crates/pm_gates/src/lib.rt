//! Gates that try a run by threads: they hold its turns back, let two nodes meet, and keep what is told. A [`Schedule`] makes
//! such a gate for a tree.
//!
//! What a market runs by is the open gate of pm_nodes. These are for the tests of the runs.
#![tactic(auto)]

mod closing;
mod drawing;
mod held;
mod holding;
mod meeting;
mod schedule;
mod scheduled;
mod telling;

pub use closing::ClosingGate;
pub use drawing::DrawingGate;
pub use held::HeldNodes;
pub use holding::HoldingGate;
pub use meeting::{MeetingGate, Moment};
pub use schedule::{SCHEDULES, Schedule};
pub use scheduled::ScheduledGate;
pub use telling::TellingGate;
