//! One change that a plan asks of a device, and the phase that it belongs to.

use pm_device::DeviceState;

/// One change of a device that a plan asks for.
#[derive(Clone, Copy, Debug, PartialEq, Eq)]
pub enum Planned {
    /// The device becomes a member of the cluster, with the state that it has.
    Join,
    /// The device's membership ends; it keeps its state.
    Leave,
    /// The device has this state.
    Set { state: DeviceState },
    /// So many minutes go by, in which the device had its power at the end of the phase before.
    Tick { minutes: i64 },
}

/// A change with the phase that it belongs to, counted from 1.
#[derive(Clone, Copy, PartialEq, Eq)]
pub(crate) struct Change {
    pub(crate) phase: u32,
    pub(crate) what: Planned,
}
