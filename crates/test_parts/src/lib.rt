//! The parts of a node, driven call by call: sources, sinks and stores; links, caches, windows and sums of bids; the parents, the relay,
//! the control of a device; the guard and the lease; and the server of a stream of bids.
//!
//! A crate of tests alone: the crates that it tests are proved without them.
#![tactic(auto)]

#[cfg(test)]
mod auctioneer;
#[cfg(test)]
mod bids;
#[cfg(test)]
mod cache;
#[cfg(test)]
mod cells;
#[cfg(test)]
mod concentrator;
#[cfg(test)]
mod control;
#[cfg(test)]
mod guard;
#[cfg(test)]
mod io;
#[cfg(test)]
mod relay;
#[cfg(test)]
mod root;
#[cfg(test)]
mod same;
#[cfg(test)]
mod scarce;
#[cfg(test)]
mod session;
#[cfg(test)]
mod shared;
#[cfg(test)]
mod silence;
#[cfg(test)]
mod store;
#[cfg(test)]
mod watched;
#[cfg(test)]
mod wire;
