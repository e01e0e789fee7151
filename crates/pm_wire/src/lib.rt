//! Frames over a stream of bytes, and the auctioneer as a service of them.
//!
//! A sort of frames is a [`StreamFrame`]: how long a frame is by its first byte and its place, and how its fields are read. A
//! [`FrameDecoder`] takes a stream in pieces of any size and gives the frames that are whole, or the offset of the first bad
//! one. A [`Service`] takes one frame after the other and appends the bytes of its answers, and [`serve_peer`] runs it over any
//! peer of pm_io. Memory is bounded by a piece, a frame and its answers, and not by the stream (`Memory`).
//!
//! The frames of a stream of bids are one such sort, and the auctioneer is one such service. Children send their bids as
//! frames, one behind the other on one stream, and the auctioneer answers with frames of its own. A [`Server`] keeps the
//! newest bid of each of up to 256 children and their running sum, clears the market when it is asked to, and appends the bytes
//! of its answers. [`serve`] serves it. The market is Kok's ("The PowerMatcher", 2013): bids are demand functions, and the
//! price is where their sum turns. The frames are this project's own profile.
//!
//! The definitions stand in `specs/`. Of any frames: `Framing` (which frame may stand where, and which is bad), `Spelling`
//! (what the bytes of one frame are), `Decoding` (what a decoder keeps, and what its calls do), `Calls` (any list of them),
//! `Taking` (what a service makes of frames), `Services` (what it reads and writes, by how it ends), `Due` (how it ends, by what its
//! source had), `Moments` (the same at each read and write), `Memory` (how many bytes it holds at a time). Of bids: `Frames` (the
//! frames as bytes), `Answers` (what the auctioneer answers to a list of frames), `Newest` (which bid of a child counts).
#![tactic(auto)]

mod answer;
mod auctioneer;
mod bid_frames;
mod decoder;
mod fault;
mod frame;
mod front_frame;
pub mod kinds;
mod laws;
mod market;
mod number_fields;
mod pieces;
mod server;
mod service;
mod stream;
mod stream_frame;
mod zeros;

pub use answer::Reply;
pub use auctioneer::{serve, serve_market};
pub use decoder::{Decoder, FrameDecoder};
pub use fault::DecodeFault;
pub use frame::Frame;
pub use laws::{
    early_ends_hold_a_beginning, frames_given_are_those_fed, replies_are_of_the_bytes,
    streams_have_one_reading, the_greatest_number_counts,
};
pub use market::write_prices;
pub use number_fields::{read_demands, read_i32, read_u16, read_u32};
pub use server::Server;
pub use service::Service;
pub use stream::{STREAM_LIMIT, Served, serve_peer};
pub use stream_frame::StreamFrame;
pub use zeros::zero_bid;
