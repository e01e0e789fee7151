//! Who holds a setpoint is counted by its parent, whatever messages do: a law over clocks.
//!
//! A control says [`Word`]s to its parent again and again, each with the number of its newest bid and what the control's own clock
//! showed. The parent answers a word that is news with the word itself. A control holds its setpoint for `validity` after it *said*
//! the newest word that was answered, by its own clock ([`Hold`]). The parent lets go for which it heard no news for `grace`, by
//! its own clock ([`ChildPlace`]). So it does not matter when an answer comes, how often, or who kept it: an old answer names an old moment
//! of the clock that counts from it. Clocks have no common zero, and each restart may begin another one.
//!
//! The laws are contracts of functions with an empty body, over all runs of a world ([`laws`]).
#![tactic(auto)]

mod beating;
mod holding;
mod laws;
mod places;
mod placing;
mod silence;
mod words;

pub use beating::{Beat, Beats, Listener};
pub use holding::Hold;
pub use laws::{
    a_control_is_told_no_longer, a_cut_is_told_at_any_depth, a_lost_start_is_learnt,
    histories_of_a_lease_are_worked_out, less_is_not_enough, let_go_means_fallen_back,
    nobody_falls_back_in_time, silence_is_told_in_time, who_does_not_count_takes_nothing,
};
pub use places::ChildPlaces;
pub use placing::ChildPlace;
pub use silence::{ControlOrder, Silence};
pub use words::Word;
