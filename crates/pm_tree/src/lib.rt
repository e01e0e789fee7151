//! The tree of names of a cluster: devices below concentrators below one auctioneer.
//!
//! Node 0 is the auctioneer, and the entries of a list are nodes 1, 2, .. in list order. A leaf is a
//! device, and any other entry a concentrator. This is the tree of agents of Kok's thesis ("The
//! PowerMatcher: Smart Coordination for the Smart Electricity Grid", 2013). Device agents are at the
//! leaves, concentrators above them, and the auctioneer at the root. The limits are this project's
//! own profile. They are at most 256 entries, names of 1 to 32 bytes, and at most 6 concentrators on
//! a path to the auctioneer.
#![tactic(auto)]

mod entry;
mod fault;
mod index;
mod laws;
mod lists;
mod name;
mod node;
mod same;
mod tree;

pub use entry::TreeEntry;
pub use fault::TreeFault;
pub use laws::places_tell_the_children;
pub use node::NodeId;
pub use tree::Tree;
