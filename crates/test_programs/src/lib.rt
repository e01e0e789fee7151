//! The work of the whole program, over sources and sinks in memory.
//!
//! A crate of tests alone: the crates that it tests are proved without them.
#![tactic(auto)]

#[cfg(test)]
mod holds;
#[cfg(test)]
mod live;
#[cfg(test)]
mod top;
