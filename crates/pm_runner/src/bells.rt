//! The numbers of the bells at which the threads of a run sleep.

use std::alloc::{AllocError, Global};
use std::sync::Condvar;

/// The numbers of the bells at which threads sleep, where there are so many nodes with the auctioneer.
///
/// Each node has its own bell. The devices of one parent share a second one, at which they await a price; and all devices
/// share a third, at which they await a phase. The caller's thread has the last. At which bell a node sleeps is noted under
/// the lock and decides nothing but how many bells a move rings.
#[derive(Clone, Copy)]
pub(crate) struct Bells {
    nodes: u32,
}

impl Bells {
    pub(crate) fn of(nodes: u32) -> Bells {
        Bells { nodes }
    }

    /// Where a node alone sleeps.
    pub(crate) fn own(self, node: u32) -> u32 {
        node
    }

    /// Where the devices of a parent sleep until they are passed a price.
    pub(crate) fn prices(self, parent: u32) -> u32 {
        self.nodes.saturating_add(parent)
    }

    /// Where devices sleep until a phase opens.
    pub(crate) fn opening(self) -> u32 {
        self.nodes.saturating_mul(2)
    }

    /// Where the caller's thread sleeps.
    pub(crate) fn caller(self) -> u32 {
        self.opening().saturating_add(1)
    }

    /// How many bells there are.
    pub(crate) fn count(self) -> u32 {
        self.opening().saturating_add(2)
    }
}

/// So many bells.
pub(crate) fn make_bells(alloc: Global, count: u32) -> Result<Vec<Condvar>, AllocError> {
    let mut bells = Vec::with_capacity(alloc, count as usize)?;
    for _ in 0..count {
        bells.push(Condvar::new())?;
    }
    Ok(bells)
}
