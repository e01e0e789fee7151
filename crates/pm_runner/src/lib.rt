//! A running market: a thread for each node of a plan, over one board behind a lock.
//!
//! [`settle`] makes all moves of a run. Each node, the auctioneer among them, has a thread, which makes the node's own
//! moves, one call of the board a turn. What comes out of a lock is known by its type alone, and the type of a board keeps
//! that its journal is legal and that its ends are those of its closed phases. So once the threads are joined the caller
//! compares the board's plan with its own, and makes itself whatever moves the board does not show: that all phases are
//! closed rests on no thread, no wake-up and no fairness. These are its two stages: [`run_threads`], and `complete` of
//! `pm_turns`. A gate of `pm_nodes` is told of each turn.
//!
//! Which move gives whom work is in one file, `pending`; at which bell a node sleeps, in `sleeping` and `bells`. Who sleeps, and whose
//! bell is to be rung, is kept by the roster of `pm_waking`.
#![tactic(auto)]

mod bells;
mod desk;
mod pending;
mod rotation;
mod sleeping;
mod threads;
mod worker;

pub use threads::{run_threads, settle};
