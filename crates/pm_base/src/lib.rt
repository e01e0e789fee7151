//! What several crates of the market share: the limits of its profile, and the definitions that their contracts share.
//!
//! The numbers are this project's own profile. To bound the power of a part of the cluster is peak shaving. `specs/` has
//! the same limits as definitions (`Limits`). It also has the cut that gives each device a number of its changes
//! (`Cuts`). `Outcomes` has stages that give a value or the first refusal. `proofs/` has the lemmas that several crates
//! cite, by subject.
#![tactic(auto)]

mod cuts;
mod limits;

pub use cuts::number_in_cut;
pub use limits::{
    DEMAND_LIMIT, LEAST_STEPS, Limits, MOST_CHANGES, MOST_DEPTH, MOST_EVENTS, MOST_NODES,
    MOST_PHASES, MOST_STEPS, PRICE_LIMIT, SUM_LIMIT, WINDOW_SIZE, constants_are_the_limits,
};
