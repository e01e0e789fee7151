//! Strategies: the bid that a device of each kind makes in its state.
//!
//! A device agent of the PowerMatcher turns the state of its device into a demand function of the price (Kok, "The
//! PowerMatcher", 2013). A freezer that is warm takes power at a higher price than one that is cold. The strategies
//! themselves are this project's profile, in whole watts at the steps of a market basis. A bid's demand never rises
//! with the price, and lies within ±1,000,000,000 watts. A manual device's bid is one of the caller's arrays, so of
//! that kind both hold if they hold of the arrays.
//!
//! No call takes memory.
#![tactic(auto)]

mod bid;
mod kinds;
mod levels;
mod shares;

pub use bid::fill_bid;
