//! What a command of `market` answers to its input: a status, and the text that comes with it.
//!
//! [`command_of`] tells what the arguments of the command line ask for. Of the bytes of an input [`answer_of`] makes the
//! [`Answer`] that is due. A cluster file becomes a plan (`pm_scene`). A run of the plan gives its journal and its
//! phases' ends (`pm_runner`, a thread for each node). These become lines of text (`pm_report`, `pm_bill`, `pm_ask`,
//! `pm_check`). [`demo_of`] has the summary of the demo cluster. Nothing is read or written here; `pm_top` does that.
#![tactic(auto)]

mod answer;
mod arguments;
mod law;
mod status;
mod texts;

pub use answer::{Outcome, answer_of};
pub use arguments::{Command, FileCommand, command_of};
pub use law::traces_tell_their_runs;
pub use status::Status;
pub use texts::demo_of;
