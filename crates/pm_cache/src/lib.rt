//! The newest bid of each child of a node, and their running sum.
//!
//! A concentrator adds its children's bids into one bid, and so does the auctioneer (Kok, "The
//! PowerMatcher", 2013). A [`BidCache`] keeps for each child the bid with the greatest number that
//! it was given, and the sum of all of them. The sum follows each newer bid: the old bid is taken
//! off and the new one added. So no call adds all entries up anew, however many children there
//! are. How many elements a call touches is a clause of its contract, by the counter of pm_bid.
//! The numbers of bids and the limits are this project's own profile.
//!
//! All memory of a cache is taken when it is made.
#![tactic(auto)]

mod cache;
mod fault;
mod learnable;

pub use cache::BidCache;
pub use fault::CacheFault;
