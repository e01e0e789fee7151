//! The plan of a run, and its plain auction.
//!
//! A plan is what a cluster file says. It has the prices of the market, the tree of names, what is planned for each
//! node, and the phases. Each event and each tick is one numbered change of its device, which belongs to one phase.
//! From the plan alone the definitions in `specs/` say what a run comes to:
//!
//! - `Devices`: what is planned for a device, and when that makes it a member.
//! - `Plans`: what is planned for each node, who is a member after how many changes, the group that a node belongs to.
//! - `Auction`: the plain auction over a cut, which gives each device a number of its changes. It has the sum of each
//!   group, what a limited concentrator announces, the total and its step. It also has the step and the power of each
//!   device, and the phase's end as lists of lines.
//! - `States`: the state of each device after its changes. A tick uses the power at the end of the phase before.
//! - `Causes`: why a file is refused, and the number of each cause.
//! - `Building`: the plan that the parts of a file give, or the first refusal.
//! - `Market`: the lists of the market of cuts (`pm_market`) that a plan stands for.
//! - `Kept`: what the type of a plan keeps.
//!
//! To add up the demands of all devices, and to find the price at which they balance, is the PowerMatcher's way (J. K.
//! Kok, "The PowerMatcher: Smart Coordination for the Smart Electricity Grid", 2013). Phases, numbered changes, limited
//! concentrators and the refusals are this project's own profile.
#![tactic(auto)]

mod building;
mod devices;
mod draft;
mod end;
mod laws;
mod node;
mod parts;
mod plan;
mod planned;
mod refusal;
mod same;

pub use devices::is_device;
pub use end::{LimitedLine, MemberLine, PhaseEnd};
pub use laws::{lists_are_lawful, plans_keep_the_limits, states_fit, states_follow_the_changes};
pub use parts::{EventSpec, NodeSpec, PhaseSpec, StateSpec};
pub use plan::Plan;
pub use planned::Planned;
pub use refusal::{Cause, Place, PlanFault, Refusal};
