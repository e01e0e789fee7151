//! The nodes of a market across machines as services of a stream: a relay, an auctioneer that may restart, a device's agent.
//!
//! Each is a [`Service`](pm_wire::Service) of its own sort of frames (pm_frames), over the value that pm_relay and pm_control have
//! of the node. So [`serve_frames`](pm_wire::serve_frames) runs it over a source and a sink. What the node gives to be kept over a
//! restart stands before the bid or the prices that must not be sent without it, and after the prices that a relay passes down:
//! a carrier that handles the frames in their order stores and sends in the right order.
//!
//! The definitions stand in `specs/`: `Outputs` (a frame that a node writes, and its bytes), `RelayWrites`, `RootWrites` and
//! `DeviceWrites` (what a node after Hello answers to each frame), `RelayAnswers`, `RootAnswers` and `DeviceAnswers` (the same of the
//! services, from the first frame on, and in bytes), `Bounds` (what a child may bid), `Limits` (the most bytes of the answers to a
//! frame). The frames are this project's own profile.
#![tactic(auto)]

mod bounds;
mod device;
mod held_root;
mod open_device;
mod open_relay;
mod open_root;
mod relay;
mod relay_bytes;
mod root;
mod setup;
mod waiting_relay;

pub use device::DeviceService;
pub use relay::RelayService;
pub use root::RootService;
