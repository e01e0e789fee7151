//! Runs with a thread for each node, over a board behind a lock and over links without one.
//!
//! A crate of tests alone: the crates that it tests are proved without them.
#![tactic(auto)]

#[cfg(test)]
mod free;
#[cfg(test)]
mod holds;
#[cfg(test)]
mod locked;
#[cfg(test)]
mod posting;
#[cfg(test)]
mod runs;
