//! The pure core of the market: a cluster of devices, concentrators and the auctioneer, one atomic move a call.
//!
//! A cluster keeps for each node what its process would keep. These are the session between the node and its parent, the
//! entries and records of a concentrator, the auctioneer, and the port of a device. Its type keeps that there is a state
//! of the market of cuts that it stands for (the relation of `pm_stands`). Each call that makes a move says that the move
//! is legal there, and that the cluster stands for the state after it.
//!
//! [`Cluster::open`] takes the memory of all moves. Only a list of acts (a cluster and a journal), and an end that is not
//! written into a given one, take more.
#![tactic(auto)]

mod acts;
mod changes;
mod cluster;
mod ends;
mod fault;
mod links;
mod next;
mod node_moves;
mod opening;
mod parts;
mod quiet;
mod tree;

pub use cluster::Cluster;
pub use fault::{ActFault, ApplyFault, ChangeFault};
