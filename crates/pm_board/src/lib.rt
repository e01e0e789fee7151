//! The value behind the lock of a running market: a cluster, the journal of its moves, and the ends of its phases.
//!
//! Each atomic step of a running node is one call here. `post` makes a device's change, `turn` makes one move of a node,
//! and `close` closes the open phase. Its type keeps that the journal is legal, and that its lines tell what devices held.
//! It also keeps that the cluster stands for the state after it, and that the ends are those of the closed phases. So
//! whoever takes a board out of a lock knows this of it, whatever the threads before did.
//!
//! [`Board::open`] takes the memory of the whole run; no other call takes any.
#![tactic(auto)]

mod board;
mod moves;

pub use board::Board;
