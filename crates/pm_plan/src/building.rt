//! Builds a plan from the parts of a file. First come the nodes in order, then the phases in order, each by the plan
//! as far as it goes before.

mod draft;
mod events;
mod new;
mod nodes;
mod phases;
mod states;
