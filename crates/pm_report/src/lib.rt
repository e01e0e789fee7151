//! The texts of a run as bytes: the report, the trace, the summary of a demo and the line of a refusal.
//!
//! A text is a list of lines. A line is words with one blank between two and a line feed at the end. A number is
//! decimal, with `-` in front if it is negative and without leading zeros. Nodes are named as in the cluster file,
//! and node 0 is `auctioneer`. The definitions are in `specs/`: `Words` (lines, names), `Report` (a phase, the
//! report), `Trace`, `Summary`, `Refusal`. The words of the lines are this project's own profile.
#![tactic(auto)]

mod law;
mod refusal;
mod report;
mod summary;
mod trace;
mod words;

pub use law::{lines_tell_their_moves, traces_tell_their_journals};
pub use refusal::refusal_line;
pub use report::{phase_text, report_text};
pub use summary::summary_text;
pub use trace::trace_text;
