//! The first byte of each frame, and how many bytes it has.

pub(crate) use pm_wire::kinds::{
    BID, BID_HEAD_SIZE, GONE, GONE_SIZE, HELLO, HELLO_SIZE, OLD, OLD_SIZE,
};

pub(crate) const SEND: u8 = 9;

pub(crate) const SEND_SIZE: usize = 1;

pub(crate) const WINDOW_FULL: u8 = 10;

pub(crate) const DROPPED: u8 = 11;

pub(crate) const OFFER: u8 = 13;

pub(crate) const LEAVE: u8 = 14;

pub(crate) const LEAVE_SIZE: usize = 1;

pub(crate) const SETPOINT: u8 = 15;

pub(crate) const NOT_CAUGHT_UP: u8 = 17;

pub(crate) const OUT_OF_NUMBERS: u8 = 18;

pub(crate) const EXPIRE: u8 = 19;

pub(crate) const EXPIRE_SIZE: usize = 3;

pub(crate) const LIMITS: u8 = 20;

pub(crate) const LIMITS_SIZE: usize = 13;

pub(crate) const BOUND: u8 = 21;

pub(crate) const BOUND_SIZE: usize = 11;

pub(crate) const TOO_MUCH: u8 = 22;

pub(crate) const PRICE: u8 = 23;

pub(crate) const PRICE_SIZE: usize = 23;

pub(crate) const OTHER_BASIS: u8 = 24;

pub(crate) const RESUME: u8 = 25;

pub(crate) const RESUME_GONE: u8 = 26;

/// And of an agent's Resume without its demands.
pub(crate) const RESUME_GONE_SIZE: usize = 19;

pub(crate) const OUT_OF_LIMITS: u8 = 27;

pub(crate) const KIND: u8 = 29;

pub(crate) const KIND_SIZE: usize = 22;

pub(crate) const STATE: u8 = 30;

pub(crate) const STATE_SIZE: usize = 5;

/// The kind of points is this number and how many there are.
pub(crate) const POINTS: u8 = 128;

/// A Resume of a relay without the numbers of its children, of which each has 4 bytes.
pub(crate) const RELAY_RESUME_HEAD_SIZE: usize = 41;

/// A Resume of an auctioneer without the numbers of its children.
pub(crate) const ROOT_RESUME_HEAD_SIZE: usize = 15;
