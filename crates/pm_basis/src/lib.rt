//! The market basis: the prices at which the agents of a cluster bid.
//!
//! A basis is PowerMatcher 2's market basis in whole prices: `steps` prices from `min` to `max` at
//! equal distances. Bids and totals of the market are lists with one demand for each step. A
//! clearing is a step; its price is the price of that step. Whole prices, their limits and the even
//! division are this project's own profile.
#![tactic(auto)]

mod basis;
mod fault;

pub use basis::Basis;
pub use fault::BasisFault;
