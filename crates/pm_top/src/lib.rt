//! The work of the program `market`, over any source of bytes and any sink.
//!
//! [`market`] takes the arguments of the command line, reads what the command asks for from the source, and appends the
//! text due to the sink. The text is that of the answer to the input (`pm_answer`). Of a service it is what the auctioneer
//! answers to each frame (`pm_wire`). Its contract says when each status comes and exactly which bytes are appended.
#![tactic(auto)]

mod law;
mod top;

pub use law::texts_have_causes;
pub use pm_answer::{Status, traces_tell_their_runs};
pub use top::market;
