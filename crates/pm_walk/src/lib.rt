//! The phase ends of a plan, by one plain program that has the whole plan before it.
//!
//! No message is sent here. The program makes the changes of each phase, adds up the demands, and finds the step at
//! which they balance. What a cluster of many processes comes to is compared with it.
//!
//! Its time grows with changes times steps. Demands and sums of groups are kept from phase to phase, and a change
//! takes its device's old demand off and adds the new one. The total, the steps of the groups and the powers are found
//! anew in the phases in which some device makes a change.
//!
//! [`CutAuction`] is the same auction over cuts that come one by one, as a run clears them: `rising` makes the changes
//! between two cuts.
#![tactic(auto)]

mod auction;
mod changes;
mod clearing;
mod lines;
mod rising;
mod run;
mod standing;
mod stops;
mod totals;

pub use auction::CutAuction;
pub use run::{all_ends, end_of_cut};
