//! A gate that delays each turn by a drawn time.

use pm_market::Line;
use pm_nodes::Gate;
use std::sync::atomic::{AtomicU64, Ordering};
use std::thread;

/// Each turn waits before and behind it for a drawn time; half of these times are 0.
#[derive(Drop)]
pub struct DrawingGate {
    most: u64,
    word: AtomicU64,
}

impl DrawingGate {
    /// A turn yields the processor less often than `most` before it, and again behind it. The times follow from the seed and
    /// from the order of the turns.
    pub fn new(seed: u64, most: u64) -> DrawingGate {
        DrawingGate {
            most: most.max(1),
            word: AtomicU64::new(seed),
        }
    }

    /// The finisher of splitmix64, over a word that each draw moves on.
    fn draw(&self) {
        let drawn = self.word.fetch_add(0x9e37_79b9_7f4a_7c15, Ordering::SeqCst);
        let mixed = (drawn ^ (drawn >> 29)).wrapping_mul(0xbf58_476d_1ce4_e5b9);
        if mixed >> 63 == 0 {
            return;
        }
        for _ in 0..(mixed >> 32) % self.most.max(1) {
            thread::yield_now();
        }
    }
}

impl Gate for DrawingGate {
    fn before(&self, _node: u32) {
        self.draw();
    }

    fn after(&self, _node: u32, _line: Option<Line>) {
        self.draw();
    }
}
