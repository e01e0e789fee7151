//! The bells that are to be rung.

ghost use Rattle.std.specs.Prelude.{◌≡◌, true};
ghost use Rattle.pm_waking.specs.Sleeping.{IsRung, KeepsRings};

use std::alloc::{AllocError, Global};

/// The bells that are to be rung once the lock is free. If there is no memory to list one, all are to be rung.
#[derive(Drop)]
pub struct Rings {
    /// The numbers of bells, each once.
    pub bells: Vec<u32>,
    /// Whether all bells are to be rung.
    pub all: bool,
}

impl Rings {
    /// No bell, with room for so many.
    pub fn with_capacity(alloc: Global, bells: u32) -> Result<Rings, AllocError> {
        Ok(Rings {
            bells: Vec::with_capacity(alloc, bells as usize)?,
            all: false,
        })
    }

    /// A bell is to be rung as well.
    pub(crate) fn add(&mut self, bell: u32)
        ensures added { IsRung self.new bell }
        ensures kept { KeepsRings self.old self.new }
    {
        if !self.bells.contains(&bell) && self.bells.push(bell).is_err() {
            self.all = true;
        }
    }

    /// All were rung.
    pub fn clear(&mut self) {
        self.bells.clear();
        self.all = false;
    }
}
