//! The state of a device, and what its next change makes of it.

/// The state of a device. It is a temperature in the units of the cluster file (freezer, heat pump, cogeneration
/// unit) or a charge in watt-hours (battery). It is a power in watts: the output of a solar panel, what a load
/// takes, the target of an objective. Of a manual device it is the number of an array bid, from 0.
#[derive(Clone, Copy, Debug, PartialEq, Eq)]
pub struct DeviceState(pub i64);

/// What a device's next change makes of it.
#[derive(Clone, Copy, Debug, PartialEq, Eq)]
pub struct Next {
    /// The number of the device's node in the tree.
    pub device: u32,
    /// The number of the change among the device's changes, from 1.
    pub number: u32,
    /// Whether the device is a member of the cluster afterwards.
    pub member: bool,
    /// The device's state afterwards.
    pub state: DeviceState,
}
