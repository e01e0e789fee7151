//! The frames that the nodes of a market across machines read and write on their streams.
//!
//! There are three streams: to a relay, to an auctioneer that may restart, and to a device's agent. Each has a sort of frames of
//! its own, which is a [`StreamFrame`](pm_wire::StreamFrame) of pm_wire. A relay and the auctioneer read their children's bids
//! as they stand in a stream of bids; a relay and a device read their parent's prices as the parent writes them. So a carrier
//! passes bytes and changes none. All three read directly after Hello what they gave to be kept over a restart.
//!
//! The definitions stand in `specs/`: `Kinds` (the first byte of each frame), `Places` (where in its stream a frame stands),
//! `Terms` (what the arguments say of a relay), `ParentFrames`, `LimitsFrames`, `NamedBases`, `Stored` (what is kept over a restart),
//! `OfferForms` (how a control says an offer), `NamedKinds` (which kind of device a frame names), `RelayFrames`, `RootFrames`,
//! `DeviceFrames` (which frame may stand where, and its bytes), `Answers` (the bytes of what only a node writes). The frames are this
//! project's own profile.
#![tactic(auto)]

mod answers;
mod basis;
mod device;
mod expiry;
mod form;
mod kinds;
mod limits;
mod named_kind;
mod offer;
mod parent;
mod place;
mod relay;
mod root;
mod stored;
mod terms;

pub use answers::{
    write_agent_resume, write_bid, write_dropped, write_gone, write_not_caught_up,
    write_other_basis, write_out_of_limits, write_out_of_numbers, write_prices, write_relay_resume,
    write_reply, write_root_resume, write_setpoint, write_too_much, write_window_full,
};
pub use basis::NamedBasis;
pub use device::DeviceFrame;
pub use form::OfferForm;
pub use named_kind::NamedKind;
pub use parent::ParentFrame;
pub use place::{NodePlace, RelayPlace, Stage};
pub use relay::RelayFrame;
pub use root::RootFrame;
pub use stored::{StoredAgent, StoredRelay, StoredRoot};
pub use terms::RelayTerms;
