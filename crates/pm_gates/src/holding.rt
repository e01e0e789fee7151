//! A gate that delays each turn of chosen nodes.

use pm_market::Line;
use pm_nodes::Gate;
use std::thread;

/// Some nodes wait before each of their turns.
#[derive(Drop)]
pub struct HoldingGate {
    yields: Vec<u32>,
}

impl HoldingGate {
    /// Each node yields the processor so often before a turn, by its number; a node behind the last number never does.
    pub fn new(yields: Vec<u32>) -> HoldingGate {
        HoldingGate { yields }
    }
}

impl Gate for HoldingGate {
    fn before(&self, node: u32) {
        let yields = self.yields.get(node as usize).copied().unwrap_or(0);
        for _ in 0..yields {
            thread::yield_now();
        }
    }

    fn after(&self, _node: u32, _line: Option<Line>) {}
}
