//! What is driven call by call: markets, clusters and boards.
//!
//! A crate of tests alone: the crates that it tests are proved without them.
#![tactic(auto)]

#[cfg(test)]
mod board;
#[cfg(test)]
mod cluster;
#[cfg(test)]
mod market;
#[cfg(test)]
mod same;
#[cfg(test)]
mod shared;
