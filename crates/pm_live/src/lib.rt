//! The one call of the program `live`: a node of a market across machines, over one stream in and one out.
//!
//! [`live`] takes the arguments of the command line, a source and a sink. They name a relay, an auctioneer that may restart, or the
//! agent of a device; it serves the source's frames as the service of pm_services does, and tells how that ended. What carries the
//! bytes between the nodes is left to the system.
//!
//! The definitions stand in `specs/`: `LiveNodes` (which node the arguments name), `Serving` (what a node reads and writes, by how it
//! ends), `Asks` (what a peer may ask at each read and write), `Processes` (that it is a process of which the law of a market speaks).
#![tactic(auto)]

mod ending;
mod law;
mod named;
mod serving;
mod top;

pub use ending::Ending;
pub use law::{ending_codes_are_as_worked_out, processes_may_be_asked};
pub use named::{LiveNode, named_node};
pub use top::{live, live_peer};
