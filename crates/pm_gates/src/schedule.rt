//! Schedules, each of which makes a gate for a tree.

use crate::drawing::DrawingGate;
use crate::held::{HeldNodes, holding_gate};
use crate::meeting::{MeetingGate, Moment};
use crate::scheduled::ScheduledGate;
use pm_tree::{NodeId, Tree};
use std::alloc::{AllocError, Global};
use std::fmt;

/// How often a device looks for the other at most. If they are in no phase together, both give up.
const LOOKS: u32 = 5_000;

/// A drawn turn yields the processor less often than this.
const MOST_YIELDS: u64 = 50;

/// How the threads of a run are held back.
#[derive(Clone, Copy)]
pub enum Schedule {
    /// None is.
    Open,
    /// The first device and the last one wait for each other.
    Meeting(Moment),
    /// Some nodes wait before each turn.
    Held(HeldNodes),
    /// Turns wait that are drawn from a seed.
    Drawn { seed: u64 },
}

/// Schedules of every kind.
pub const SCHEDULES: &[Schedule] = &[
    Schedule::Open,
    Schedule::Meeting(Moment::Line),
    Schedule::Meeting(Moment::Turn),
    Schedule::Held(HeldNodes::First),
    Schedule::Held(HeldNodes::Last),
    Schedule::Held(HeldNodes::Auctioneer),
    Schedule::Held(HeldNodes::Subtree),
    Schedule::Held(HeldNodes::Depth),
    Schedule::Drawn { seed: 1 },
    Schedule::Drawn { seed: 2 },
    Schedule::Drawn { seed: 3 },
];

impl Schedule {
    /// A new gate that holds the threads of this tree's nodes back, or an error if an allocation fails.
    pub fn gate(self, alloc: Global, tree: &Tree) -> Result<ScheduledGate, AllocError> {
        let gate = match self {
            Schedule::Open => ScheduledGate::Open,
            Schedule::Meeting(moment) => {
                ScheduledGate::Meeting(MeetingGate::new(outer_devices(tree), moment, LOOKS))
            }
            Schedule::Held(held) => ScheduledGate::Holding(holding_gate(alloc, tree, held)?),
            Schedule::Drawn { seed } => ScheduledGate::Drawing(DrawingGate::new(seed, MOST_YIELDS)),
        };
        Ok(gate)
    }
}

/// The first device of a tree and the last one.
fn outer_devices(tree: &Tree) -> (u32, u32) {
    let devices = tree.leaves_below(NodeId(0));
    let first = devices.first().map_or(0, |device| device.0);
    let last = devices.last().map_or(0, |device| device.0);
    (first, last)
}

impl fmt::Display for Schedule {
    fn fmt<W: fmt::Write>(&self, f: &mut fmt::Formatter<W>) -> fmt::Result {
        match self {
            Schedule::Open => write!(f, "an open gate"),
            Schedule::Meeting(Moment::Line) => write!(f, "a gate at whose lines two devices meet"),
            Schedule::Meeting(Moment::Turn) => write!(f, "a gate at whose turns two devices meet"),
            Schedule::Held(held) => write!(f, "a gate that holds {held}"),
            Schedule::Drawn { seed } => write!(f, "a gate that holds turns drawn from seed {seed}"),
        }
    }
}
