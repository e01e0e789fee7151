//! The moves of a run, made one after another by whoever asks for them.
//!
//! [`make_move`] makes a move of a board, and [`finish`] all that are left: those of the nodes by [`turn_of`], the changes of the
//! devices by [`change`] and their agents, and the closings. So [`drain`] is a run by one thread, and
//! [`complete`] the end of a run that others began.
//!
//! A gate of `pm_nodes` is told of each turn.
#![tactic(auto)]

mod completion;
mod lines;
mod one_thread;
mod posting;

pub use completion::complete;
pub use lines::newest_line;
pub use one_thread::{change, drain, finish, first_next, make_move, next_of, turn_of};
pub use posting::{Posted, post_made};
