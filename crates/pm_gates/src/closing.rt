//! A gate that counts the closings that it is told of.

use pm_market::{Line, Move};
use pm_nodes::Gate;
use std::sync::atomic::{AtomicU64, Ordering};

/// Counts the closings that it is told of. It serves one thread, whose turns it is told in their order.
#[derive(Drop)]
pub struct ClosingGate {
    coming: AtomicU64,
    closings: AtomicU64,
    for_auctioneer: AtomicU64,
}

impl ClosingGate {
    /// No closing was told yet.
    pub fn new() -> ClosingGate {
        ClosingGate {
            coming: AtomicU64::new(0),
            closings: AtomicU64::new(0),
            for_auctioneer: AtomicU64::new(0),
        }
    }

    /// How many closings were told.
    pub fn closings(&self) -> u64 {
        self.closings.load(Ordering::SeqCst)
    }

    /// How many of them were told for node 0, each as the turn of node 0 that had come last.
    pub fn for_auctioneer(&self) -> u64 {
        self.for_auctioneer.load(Ordering::SeqCst)
    }
}

impl Gate for ClosingGate {
    fn before(&self, node: u32) {
        self.coming.swap(node as u64, Ordering::SeqCst);
    }

    fn after(&self, node: u32, line: Option<Line>) {
        let Some(
            Line {
                what: Move::Close { .. },
                ..
            },
        ) = line
        else {
            return;
        };
        self.closings.fetch_add(1, Ordering::SeqCst);
        if node == 0 && self.coming.load(Ordering::SeqCst) == 0 {
            self.for_auctioneer.fetch_add(1, Ordering::SeqCst);
        }
    }
}
