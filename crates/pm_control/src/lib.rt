//! The agent of a device on a machine of its own, between the device's control and its parent.
//!
//! The control offers the power that the device would take at each step, or leaves. The agent gives each of these the next
//! number, under which it goes up as a bid, and keeps what is not answered. A price from the parent names the number of an
//! offer; the agent tells the control the power that this offer has at the price's step. Messages may be lost, come twice or
//! out of order, and the agent may restart. The numbering and the window of eight offers are this project's own profile.
//!
//! The rules are the definitions of `Agents` in pm_net, whose laws say what follows from them for a whole network.
#![tactic(auto)]

mod agent;
mod fault;
mod offer;
mod resume;
mod setpoint;

pub use agent::{ControlAgent, agents_come_back};
pub use fault::OfferFault;
pub use resume::AgentResume;
pub use setpoint::Setpoint;
