//! The demo cluster: a plan of so many devices. Their kinds, powers and starts come from a generator of numbers,
//! and its phases let drawn devices leave and join again.
//!
//! It is made for trying the market out: a size and a number fix the plan, so two runs on them give the same text. The
//! definitions in `specs/` say which plan it is: `Draws` the numbers, `Nodes` the tree and the devices, `Rounds` the
//! phases, `Demo` the whole. The generator is this project's own.
#![tactic(auto)]

mod demo;
mod devices;
mod draws;
mod fault;
mod law;
mod names;
mod rounds;
mod tree;

pub use demo::make_plan;
pub use fault::GenFault;
pub use law::plans_of_demos_keep_the_limits;
