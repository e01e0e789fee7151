//! An input that begins with a cluster file: a line with the number of the file's bytes, the file, and the rest.
//!
//! So a command can take a cluster file together with what is asked of it. The number is in decimal digits without sign
//! or leading zero, and at most that of the bytes of a cluster file. [`open_envelope`] takes the input apart; it needs
//! [`split_line`] and [`number_up_to`], which serve any text of lines and numbers. Nothing here takes memory.
//!
//! The definitions are in `specs/`: `Lines` (the first line of a text), `Envelopes`. The form of an envelope is this
//! project's own profile.
#![tactic(auto)]

mod envelope;
mod line;
mod number;

pub use envelope::{Envelope, FILE_LIMIT, envelopes_are_unique, open_envelope};
pub use line::split_line;
pub use number::number_up_to;
