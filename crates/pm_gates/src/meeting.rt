//! A gate at which two nodes wait for each other, which shows that two threads run.

use pm_market::Line;
use pm_nodes::Gate;
use std::sync::atomic::{AtomicU64, Ordering};
use std::thread;

/// When two nodes meet.
#[derive(Clone, Copy, Debug, PartialEq, Eq)]
pub enum Moment {
    /// Behind the first line of each.
    Line,
    /// Before the first turn of each.
    Turn,
}

/// One node waits until the other has begun, and the other way round, each for so many looks at most.
#[derive(Drop)]
pub struct MeetingGate {
    moment: Moment,
    nodes: (u32, u32),
    looks: u32,
    first: AtomicU64,
    second: AtomicU64,
    met: AtomicU64,
}

impl MeetingGate {
    /// These two nodes meet.
    pub fn new(nodes: (u32, u32), moment: Moment, looks: u32) -> MeetingGate {
        MeetingGate {
            moment,
            nodes,
            looks,
            first: AtomicU64::new(0),
            second: AtomicU64::new(0),
            met: AtomicU64::new(0),
        }
    }

    /// How many of the two found that the other has begun.
    pub fn met(&self) -> u64 {
        self.met.load(Ordering::SeqCst)
    }

    fn come(&self, node: u32) {
        if node == self.nodes.0 {
            self.meet(&self.first, &self.second);
        } else if node == self.nodes.1 {
            self.meet(&self.second, &self.first);
        }
    }

    fn meet(&self, own: &AtomicU64, other: &AtomicU64) {
        if own.swap(1, Ordering::SeqCst) != 0 {
            return;
        }
        for _ in 0..self.looks {
            if other.load(Ordering::SeqCst) != 0 {
                self.met.fetch_add(1, Ordering::SeqCst);
                return;
            }
            thread::yield_now();
        }
    }
}

impl Gate for MeetingGate {
    fn before(&self, node: u32) {
        if self.moment == Moment::Turn {
            self.come(node);
        }
    }

    fn after(&self, node: u32, line: Option<Line>) {
        if self.moment == Moment::Line && line.is_some() {
            self.come(node);
        }
    }
}
