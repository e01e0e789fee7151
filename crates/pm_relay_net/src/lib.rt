//! The relay and the root of `pm_relay` do what the relays and the auctioneer of a network in `pm_net` do, restarts included.
//!
//! Each call of one, by its contract, is an event of the network, or none: the node is after it what the network then has
//! of it, and what it sends is what the network sends.
#![tactic(auto)]

mod relay;
mod root;

pub use relay::{
    relays_are_left_alone, relays_come_up, relays_learn, relays_send, relays_take_prices,
};
pub use root::{roots_are_left_alone, roots_clear, roots_come_up, roots_learn, roots_tell_again};
