//! The auctioneer: the root of the tree, where the market clears.
//!
//! The auctioneer adds all bids, seeks the price at which the total balances, and sends the price
//! to the agents (Kok, "The PowerMatcher", 2013). Here it clears when it is told to, if something
//! was learnt since the last clearing. Clearings are numbered from 1, and a price names for each
//! child the number of the bid that it answers. The numbers are this project's own profile.
//!
//! All memory of an auctioneer is taken when it is made. If a later call has an allocation
//! failure in its result, it is proved never to come.
#![tactic(auto)]

mod auctioneer;
mod fault;

pub use auctioneer::{Auctioneer, Cleared};
pub use fault::ClearFault;
