//! Concentrators: the nodes of the tree between the devices and the auctioneer.
//!
//! A concentrator adds its children's bids into one bid. To its parent it looks like a device
//! agent, and to its children like an auctioneer (Kok, "The PowerMatcher", 2013). This project's
//! own profile adds three things. A concentrator numbers the bids that it publishes, and keeps
//! which numbers of its children went into each of them. A price names the number of the bid that
//! it answers, and is passed on to each child with the child's number in that record. At most
//! eight published numbers are unanswered.
//!
//! A limited concentrator bounds the power of its part of the cluster, in the manner of peak
//! shaving. It announces its children's sum within a floor and a ceiling. It passes down a local
//! step, at which the sum of the record that the price answers lies within them.
//!
//! All memory of a concentrator is taken when it is made. If a later call has an allocation
//! failure in its result, it is proved never to come.
#![tactic(auto)]

mod concentrator;
mod fault;
mod limited;

pub use concentrator::Concentrator;
pub use fault::PublishFault;
