//! Targets asked of a cluster's total: what becomes of the market if so much power is taken off.
//!
//! The total of all bids is a list of demands, one for each step of a market basis, that never rises (Kok, "The
//! PowerMatcher", 2013). A target is a whole number of watts. It is taken off the total at every step, as one more bid of
//! the negative target would do. The market clears with the rest. So an objective agent learns at which price the cluster
//! would take or deliver so much. A [`Curve`] answers one target after the other, each by a search that halves the steps.
//! It also tells which targets each step has. [`targets_are_bids`] is the law that a target is one more bid.
//! [`read_targets`] reads a list of targets, and [`ask_text`] writes the curve and the answers.
//!
//! The definitions are in `specs/`. `Asked` has the step of a target, the rest there, and its bid. `Breaks` has the steps
//! that have targets, with the least and the greatest of them. `Curves` says how they are read off a total. `TargetLists`
//! has a list as text, and the first bad line; `Texts` the texts; `Causes` why a total has no curve. Targets and breaks,
//! the lists and the texts are this project's own profile.
#![tactic(auto)]

mod breaks;
mod curve;
mod fault;
mod laws;
mod rise;
mod search;
mod target;
mod target_fault;
mod target_list;
mod text;

pub use breaks::Break;
pub use curve::{Answer, Curve, breaks_are_unique};
pub use fault::CurveFault;
pub use laws::targets_are_bids;
pub use target_fault::TargetsFault;
pub use target_list::{MOST_TARGETS, read_targets, texts_have_one_reading};
pub use text::ask_text;
