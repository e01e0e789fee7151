//! Relays: concentrators on machines of their own, whose messages may be lost, come twice or out of order.
//!
//! A relay gathers its children's bids into bids of its own, and passes prices down, as a concentrator does (Kok, "The
//! PowerMatcher", 2013). The rest is this project's own profile. What it learns, sends and takes are values; whoever calls it
//! carries the messages. It takes a price once: the index rises. It is always limited, so that each of its bids fits a
//! message.
//!
//! A relay may restart. It comes back with a [`Resume`], which it gave before: its last number, the children's numbers in
//! that bid, and a price that it took. It sends nothing until it heard of each child what that bid had. If it heard the very
//! same numbers, it has the record of that bid again, can send it again and pass its price on.
//!
//! A [`Root`] is an auctioneer that may restart in the same way.
#![tactic(auto)]

mod fault;
mod numbers;
mod outcome;
mod relay;
mod resume;
mod root;

pub use fault::{RootFault, SendFault};
pub use outcome::PriceOutcome;
pub use relay::Relay;
pub use resume::Resume;
pub use root::Root;
