//! Device agents: what a device's next change makes of its bid.
//!
//! In the PowerMatcher a device agent is between its device and the market (Kok, "The PowerMatcher", 2013). It follows
//! the state of the device and sends a bid by its strategy. Here it takes the device's next change, computes the bid
//! in a buffer of its own, and lends both as a [`Made`]. The type keeps that the bid is the one of the kind and the
//! state, for every kind except manual. The bid of a manual device is one of the arrays that the caller hands in. So
//! whoever enters it into a market need not compute it again, and an agent can work while others use the market.
//!
//! Only [`DeviceAgent::new`] takes memory.
#![tactic(auto)]

mod agent;
mod made;

pub use agent::DeviceAgent;
pub use made::Made;
