//! The parts of a cluster file, from which a plan is made: states, nodes, events and phases.

use pm_device::Kind;

/// A state as a cluster file writes it.
#[derive(Debug, Drop)]
pub enum StateSpec {
    /// A number: a temperature, a charge in watt-hours, or a power in watts, by the device's kind.
    Number(i64),
    /// A manual device's demand in watts at each step of the basis.
    Array(Vec<i64>),
    /// A manual device's demand as points: pairs of a price and the demand in watts at that price.
    Points(Vec<(i64, i64)>),
}

/// A node of a cluster file, without its name and its parent, which are the tree's.
#[derive(Debug, Drop)]
pub enum NodeSpec {
    /// A concentrator.
    Concentrator,
    /// A concentrator that bounds what its part of the cluster announces, in watts.
    Limited { floor: i64, ceiling: i64 },
    /// A device with its kind and the state that it has before its first change.
    Device { kind: Kind, start: StateSpec },
}

/// An event of a phase: one change of the device with this name.
#[derive(Debug, Drop)]
pub enum EventSpec {
    /// The device becomes a member of the cluster, with the state that it has.
    Join { device: String },
    /// The state of a member is set.
    State { device: String, value: StateSpec },
    /// The device's membership ends; it keeps its state.
    Leave { device: String },
}

/// A phase of a cluster file.
#[derive(Debug, Drop)]
pub enum PhaseSpec {
    /// A list of events.
    Events(Vec<EventSpec>),
    /// A tick of so many minutes: one change of each member whose state changes by itself.
    Tick { minutes: i64 },
}
