//! What a device's agent comes back with after a restart.

use pm_bid::ArrayBid;

/// What an agent gives, and comes back with. The number and the newest offer belong together, and are stored before the bid of
/// that number is sent. The index is that of any price that it took, or 0, and is stored behind its setpoint.
#[derive(Clone, Copy)]
pub struct AgentResume<'a> {
    /// The number given last, 0 where there is none.
    pub number: u32,
    /// The demand of the offer under this number. None where the device left, or offered nothing.
    pub newest: Option<&'a ArrayBid>,
    /// The index of the price.
    pub index: u32,
}
