//! The session between a child and its parent in the tree of the market.
//!
//! In PowerMatcher 2 a session joins an agent to the one above it: bid updates go up, price updates
//! come down. Here a [`Link`] is one session, both ways, with room for one message each way. A
//! newer message takes the place of an older one that still waits. A [`Window`] is what a
//! concentrator remembers of the bids that it sent. By it a price can be passed on by the numbers
//! that went into the bid which it answers. A [`Port`] is a device's end of its link: it says which
//! price the device holds. The numbers, by which a price names the bid that it answers, and the
//! window are this project's own profile.
//!
//! All memory is taken when an object is made, and no later call takes any. If such a call has
//! `AllocError` in its result, it is proved never to come.
#![tactic(auto)]

mod link;
mod port;
mod price;
mod prices;
mod record;
mod window;

pub use link::Link;
pub use pm_bid::BidHead;
pub use port::Port;
pub use price::{Held, PriceUpdate};
pub use prices::Prices;
pub use record::Record;
pub use window::Window;
