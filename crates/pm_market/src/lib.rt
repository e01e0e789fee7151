//! The market of cuts: the moves of a cluster, which of them are legal in a state, and the journal of a run. A
//! cluster has devices, concentrators and an auctioneer.
//!
//! A cut gives each device the number of its changes that it contains. A device makes numbered changes. A concentrator
//! learns numbers of its children and publishes what it knows of its leaves under numbers of its own. The auctioneer
//! learns likewise and clears. A clearing is passed down, and names at each node the number that it contains of it. To
//! gather bids up a tree and pass prices down it is the PowerMatcher's way (J. K. Kok, "The PowerMatcher: Smart
//! Coordination for the Smart Electricity Grid", 2013). The numbers, the window of 8 unanswered numbers and the phases
//! are this project's own profile.
//!
//! The definitions are in `specs/`, over four plain lists. `Lists` has the tree, the memberships and the phases' ends,
//! `Moves` legal moves and journals, `Held` which price a device holds. Beside them are `State`, `Sound` and `Bound`.
//! `Legality` has tests of the same that compute. For lawful lists and a sound state they agree with the definitions
//! of `Moves`. `Market` is a plain program that computes the tests and makes the moves, on whole cuts. `Due` says what
//! it keeps of the clearings that are still to be passed. `pm_laws` proves that the tests agree, and what else follows
//! from the definitions.
#![tactic(auto)]

mod journal;
mod market;
mod moves;
mod rows;

pub use journal::{Journal, Line};
pub use market::Market;
pub use moves::{Act, Move};
