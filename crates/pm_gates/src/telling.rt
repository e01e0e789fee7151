//! A gate that keeps the lines that it is told, over another gate.

use pm_market::Line;
use pm_nodes::Gate;
use std::alloc::Global;
use std::sync::{Mutex, Wait};

/// Another gate, and the lines that were told to it.
#[derive(Drop)]
pub struct TellingGate<'r, R: Wait, G: Gate + Drop> {
    rt: &'r R,
    gate: G,
    lines: Mutex<Vec<Line>>,
}

impl<'r, R: Wait, G: Gate + Drop> TellingGate<'r, R, G> {
    /// Nothing was told yet.
    pub fn new(rt: &'r R, alloc: Global, gate: G) -> TellingGate<'r, R, G> {
        TellingGate {
            rt,
            gate,
            lines: Mutex::new(Vec::new(alloc)),
        }
    }

    /// The other gate.
    pub fn gate(&self) -> &G {
        &self.gate
    }

    /// The lines that were told, in the order in which they came. A line for which memory is wanting is not kept.
    pub fn into_lines(self) -> Vec<Line> {
        self.lines.into_inner()
    }
}

impl<'r, R: Wait + Sync, G: Gate + Drop> Gate for TellingGate<'r, R, G> {
    fn before(&self, node: u32) {
        self.gate.before(node);
    }

    fn after(&self, node: u32, line: Option<Line>) {
        if let Some(line) = line {
            let _ = self.lines.lock(self.rt).push(line);
        }
        self.gate.after(node, line);
    }
}
