//! A phase of a market over links without a lock, made by threads, each with some of the nodes.
//!
//! [`run_phase`] opens a link of `pm_cells` above each node, hands each node its ends, and lets threads make the turns of the
//! nodes. A turn is made of calls on the node's part: a device makes a change, puts its bid, and holds the price that came; a node
//! with children learns their bids, makes its bid or clears, and passes prices on. The contracts of these calls say what a part
//! keeps and what it hands out, so no message is lost between a link and a node. How often turns come, and in which order, no
//! clause says. At the end of the phase what the threads left is taken to its end, the links are closed, and the parts come back
//! for the next phase, with the log of each link.
//!
//! Each cell has a lock that is tried and never waited for: an end that is stopped within a call keeps the other end `Busy`. So no
//! progress is claimed.
#![tactic(auto)]

mod closing;
mod device;
mod ends;
mod hearing;
mod laws;
mod matcher;
mod node;
mod opening;
mod parent;
mod phase;
mod reading;
mod settled;
mod threads;
mod turns;

pub use laws::{new_parts_end_plainly, settled_parts_end_plainly};
pub use node::NodePart;
pub use phase::{PhaseRun, run_phase};
pub use reading::read_end;
pub use settled::has_settled;
