//! Who sleeps in a run of threads, who has work, and which bells are to be rung.
//!
//! A [`Roster`] has the nodes of a run with what is pending at each ([`NodePending`]), the bell at which each sleeps, and the bells
//! that are to be rung ([`Rings`]). Its type keeps that no node that sleeps has work, and each call tells that nobody is forgotten:
//! who slept before it still sleeps there, or its bell is to be rung. So a wake-up that is lost is a call that is not proved.
//! Which move gives whom work is not told here: that is `pending` of `pm_runner`.
#![tactic(auto)]

mod node;
mod rings;
mod roster;

pub use node::{DevicePending, NodePending, NodeSort, ParentPending};
pub use rings::Rings;
pub use roster::{Entry, Roster, Totals};
