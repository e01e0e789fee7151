//! The first byte of each frame of a stream of bids and of each answer, and how many bytes they have.

/// The kind of a Hello.
pub const HELLO: u8 = 1;

/// How many bytes a Hello has.
pub const HELLO_SIZE: usize = 11;

/// The kind of a Bid.
pub const BID: u8 = 2;

/// How many bytes a Bid has without its demands, of which each has 4.
pub const BID_HEAD_SIZE: usize = 7;

/// The kind of a Gone.
pub const GONE: u8 = 3;

/// How many bytes a Gone has.
pub const GONE_SIZE: usize = 7;

/// The kind of a Clear.
pub const CLEAR: u8 = 4;

/// How many bytes a Clear has.
pub const CLEAR_SIZE: usize = 1;

/// The kind of a price that does not tell its basis.
pub const BARE_PRICE: u8 = 5;

/// How many bytes such a price has.
pub const BARE_PRICE_SIZE: usize = 13;

/// The kind of a NotChanged.
pub const NOT_CHANGED: u8 = 6;

/// The kind of an Old.
pub const OLD: u8 = 7;

/// How many bytes an Old has.
pub const OLD_SIZE: usize = 7;

/// The kind of a Fault.
pub const FAULT: u8 = 8;

/// How many bytes a fault has.
pub const FAULT_SIZE: usize = 9;
