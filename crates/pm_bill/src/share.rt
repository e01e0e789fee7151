//! What one device pays in a tick, and what one group comes to.

/// What a device pays in a tick.
#[derive(Clone, Copy, Debug, PartialEq, Eq)]
pub struct Share {
    /// The device's node.
    pub node: u32,
    /// The price of its group's step, in price units.
    pub price: i64,
    /// Its power in watts, positive if it takes power.
    pub power: i64,
}

/// What a group of devices comes to in a tick: those below one limited concentrator, or those below no limited one.
#[derive(Clone, Copy, Debug, PartialEq, Eq)]
pub struct GroupSum {
    /// The price of the group's step, in price units.
    pub price: i64,
    /// The sum of its bids at that step, in watts.
    pub power: i64,
}
