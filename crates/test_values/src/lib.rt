//! Values worked by hand: bids, prices, names, kinds of device and their bids; then plans, the ends of their phases, and texts.
//!
//! A crate of tests alone: the crates that it tests are proved without them.
#![tactic(auto)]

#[cfg(test)]
mod agent;
#[cfg(test)]
mod ask;
#[cfg(test)]
mod base;
#[cfg(test)]
mod basis;
#[cfg(test)]
mod bid;
#[cfg(test)]
mod bill;
#[cfg(test)]
mod demo;
#[cfg(test)]
mod device;
#[cfg(test)]
mod envelope;
#[cfg(test)]
mod kinds;
#[cfg(test)]
mod lines;
#[cfg(test)]
mod plan;
#[cfg(test)]
mod plans;
#[cfg(test)]
mod points;
#[cfg(test)]
mod report;
#[cfg(test)]
mod same;
#[cfg(test)]
mod scene;
#[cfg(test)]
mod shared;
#[cfg(test)]
mod strategy;
#[cfg(test)]
mod tree;
#[cfg(test)]
mod walk;
