//! What the nodes of a run have, whoever makes their moves.
//!
//! [`make_agents`] makes the agents of the devices of a plan, and a [`Gate`] is told of each turn of a node. The runs by one
//! thread (`pm_turns`), by threads over a lock (`pm_runner`) and by threads over links (`pm_phase`) all stand on them.
#![tactic(auto)]

mod agents;
mod gate;
mod waiting;

pub use agents::{agent_of, can_work, make_agents, make_bid};
pub use gate::{Gate, OpenGate};
pub use waiting::pause;
