//! A price on its way down, and the price that a device holds.

/// A price on its way down to a child: one clearing of the market.
#[derive(Clone, Copy, Debug, PartialEq, Eq)]
pub struct PriceUpdate {
    /// The step of the market basis, which names the price.
    pub step: u32,
    /// The number of the child's bid that the clearing contains.
    pub number: u32,
    /// The index of the clearing, from 1.
    pub index: u32,
}

/// The price that a device holds.
#[derive(Clone, Copy, Debug, PartialEq, Eq)]
pub struct Held {
    /// The step of the market basis, which names the price.
    pub step: u32,
    /// The number of the device's bid that the clearing contains.
    pub number: u32,
    /// The index of the clearing, from 1.
    pub index: u32,
}
