//! The relation by which a cluster stands for a state of the market of cuts, and the laws that each move keeps it.
//!
//! A cluster keeps numbers, running sums and the records of a window. A state of the market keeps whole cuts for good. The
//! relation `StandsFor` (`specs/Stands.antt`) has one clause for each part that is kept. Each law is the contract of a
//! function with an empty body. Suppose that the calls on a cluster's parts did what they say. Then the move that was made
//! is legal in every state that the cluster stood for, and the cluster stands for the state after it. A crate above calls
//! a law or cites the lemmas of `proofs/`. There is no code here, so an edit of code never proves the laws again.
#![tactic(auto)]

mod changes;
mod current;
mod moves;
mod prices;
mod still;

pub use changes::{changing_keeps_the_market, closing_keeps_the_market, openings_stand};
pub use current::{ports_answer_the_held_price, quiet_clusters_are_current};
pub use moves::{
    clearing_keeps_the_market, learning_keeps_the_market, nothing_pending_is_idle,
    publishing_keeps_the_market,
};
pub use prices::{passing_keeps_the_market, taking_keeps_the_market};
pub use still::a_node_is_still_where_it_has_no_move;
