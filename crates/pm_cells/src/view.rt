//! What an end of a link knows. Contracts alone speak of these types: no value of them is made.

use crate::message::Message;
use std::collections::LinkedList;

/// Whose view it is.
pub enum Role {
    /// That of a link that is not yet cut into two ends.
    Whole,
    /// That of the end that puts bids and takes prices.
    Child,
    /// That of the end that takes bids and puts prices.
    Parent,
    /// That of the child's end once the parent's end came back, with the lists of both.
    Joined,
    /// That of the parent's end once it came back.
    Spent,
}

/// What an end knows of one cell.
pub struct CellView {
    /// The numbers that it put.
    pub puts: LinkedList<u32>,
    /// The numbers that it took.
    pub takes: LinkedList<u32>,
    /// The messages that it put, whole and in order.
    pub sent: LinkedList<Message>,
    /// The messages that it took, whole and in order.
    pub received: LinkedList<Message>,
    /// 1 while it has the slot, else 0.
    pub holds: u64,
    /// The number that it found when it had the slot last, to take.
    pub found: u64,
    /// What it found in the slot that it has, to take.
    pub in_hand: Option<Message>,
    /// How many of its claims found that the other end has the slot.
    pub lost: u64,
    /// How many of its takes found no number above the one taken last.
    pub empty: u64,
}

/// What an end knows of both cells: the bids' on the way up and the prices' on the way down.
pub struct EndView {
    pub role: Role,
    pub up: CellView,
    pub down: CellView,
}
