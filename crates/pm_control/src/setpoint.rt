//! What a device's control is told.

/// The control is to take this power.
#[derive(Clone, Copy, Debug, PartialEq, Eq)]
pub struct Setpoint {
    /// The number of the offer that names the power.
    pub number: u32,
    /// The index of the clearing.
    pub index: u32,
    /// The step of the market basis, which names the price.
    pub step: u32,
    /// What the offer asks for at the step, in watts.
    pub power: i64,
}
