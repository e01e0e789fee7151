//! The gate of any schedule, as one type.

use crate::drawing::DrawingGate;
use crate::holding::HoldingGate;
use crate::meeting::MeetingGate;
use pm_market::Line;
use pm_nodes::Gate;

/// A gate of any schedule.
#[derive(Drop)]
pub enum ScheduledGate {
    /// Holds nobody back.
    Open,
    /// Two devices wait for each other.
    Meeting(MeetingGate),
    /// Some nodes wait before each turn.
    Holding(HoldingGate),
    /// Drawn turns wait.
    Drawing(DrawingGate),
}

impl Gate for ScheduledGate {
    fn before(&self, node: u32) {
        match self {
            ScheduledGate::Open => {}
            ScheduledGate::Meeting(gate) => gate.before(node),
            ScheduledGate::Holding(gate) => gate.before(node),
            ScheduledGate::Drawing(gate) => gate.before(node),
        }
    }

    fn after(&self, node: u32, line: Option<Line>) {
        match self {
            ScheduledGate::Open => {}
            ScheduledGate::Meeting(gate) => gate.after(node, line),
            ScheduledGate::Holding(gate) => gate.after(node, line),
            ScheduledGate::Drawing(gate) => gate.after(node, line),
        }
    }
}
