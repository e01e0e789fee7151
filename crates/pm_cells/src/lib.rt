//! The link between a child and its parent without a lock: bids go up, prices come down, while both run.
//!
//! In PowerMatcher 2 a session joins an agent to the one above it. Here a [`FreeLink`] is one session, with two cells:
//! one for the bid that waits on the way up and one for the price that waits on the way down. A cell is a word and a slot
//! of an `atomic_table`; the word is twice the number of the newest message that was put, and one more while an end has
//! the slot. A newer message takes the place of one that was not taken. The child's thread has the [`ChildEnd`] and the
//! parent's thread the [`ParentEnd`]; no call waits, and none but [`open_link`] takes memory. Where the other end has the
//! slot the answer is [`Busy`], and a message that was to be put is handed back. That messages are numbered, and that a
//! price names the bid that it answers, is this project's own profile.
//!
//! The definitions stand in `specs/`: `Numbers` (lists of numbers that rise, and lists whose elements are all in
//! another), `Cells` (what holds of the two cells between any two steps), `Steps` (what each of the eight kinds of step
//! tells the end that makes it), `Ends` (an end, and what each call makes of it), `Calls` (the same in plain numbers and
//! lists). An end knows the numbers and the whole messages that it put and took, and counts the claims that it lost and the
//! takes that found nothing. No clause says that a message is ever taken, or a slot ever free.
#![tactic(auto)]

mod bids;
mod ends;
mod fault;
mod link;
mod message;
mod prices;
mod steps;
mod view;

pub use bids::{put_bid, take_bid};
pub use ends::{ChildEnd, ParentEnd};
pub use fault::{Busy, PutBidFault, PutPriceFault};
pub use link::{FreeLink, LinkLog, close_link, open_link};
pub use message::UpMessage;
pub use pm_session::PriceUpdate;
pub use prices::{put_price, take_price};
