//! The bid and the price as they lie in a cell.

use pm_bid::ArrayBid;
use pm_session::PriceUpdate;
use std::fmt;

/// A bid on its way up.
#[derive(Drop)]
pub struct UpMessage {
    /// The number of the bid, from 1.
    pub number: u32,
    /// The demand, in watts at each step; None is a bid that is gone: the child is no member.
    pub demand: Option<ArrayBid>,
}

impl fmt::Debug for UpMessage {
    fn fmt<W: fmt::Write>(&self, f: &mut fmt::Formatter<W>) -> fmt::Result {
        let number = self.number;
        write!(f, "the bid with number {number}")
    }
}

/// What lies in a slot.
#[derive(Drop)]
pub enum Message {
    Bid(UpMessage),
    Price(PriceUpdate),
}
