//! What a relay comes back with after a restart.

use pm_base::Limits;

/// What a relay gave before it restarted, and comes back with. The last number, the children's numbers and the limits belong
/// together and are stored before the bid of that number is sent. The number answered and the index belong together, are of any price that
/// the relay took, and are stored behind what it sent down; both are 0 where there is none.
#[derive(Clone, Copy)]
pub struct Resume<'a> {
    /// The number of the relay's newest bid, 0 where it sent none.
    pub last: u32,
    /// For each child the number that went into that bid, by the children's places.
    pub numbers: &'a [u32],
    /// The limits that this bid was made under; of a relay that sent none, any.
    pub limits: Limits,
    /// The number that the price names.
    pub answered: u32,
    /// The index of the price.
    pub index: u32,
}
