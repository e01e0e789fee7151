//! Memory as an object that counts what it refused.

ghost use Rattle.std.specs.Prelude.{◌≡◌, ◌+◌, ◌≤◌, ℕ, [], vec_len, vec_capacity, IfOk, OnOk};
ghost use Rattle.pm_io.specs.Causes.{HasCause};

use std::alloc::{AllocError, Global};
use std::marker::Model;

/// Where memory comes from, as a thing that counts its refusals.
///
/// An `AllocError` shows nothing, since anyone may make one. A count that only its owner can raise does: code over any memory that
/// says that it was refused some has asked for it, and was refused.
pub trait Memory {
    // How often it refused some. It never falls.
    ghost refusals: { Self → ℕ };

    /// An empty list with room for so many elements.
    fn list<T>(&mut self, room: usize) -> Result<Vec<T>, AllocError>
        ensures empty { IfOk result (λ list. list.items ≡ []) }
        ensures len { IfOk result (λ list. vec_len list ≡ 0) }
        ensures room { IfOk result (λ list. room ≤ vec_capacity list) }
        ensures cause { HasCause (refusals self.old) (refusals self.new) result };

    /// Makes room in a list for so many more elements. They can be appended then without any memory.
    fn reserve<T>(&mut self, list: &mut Vec<T>, more: usize) -> Result<(), AllocError>
        ensures items { list.new.items ≡ list.old.items }
        ensures len { vec_len list.new ≡ vec_len list.old }
        ensures room { OnOk result (vec_len list.old + more ≤ vec_capacity list.new) }
        ensures capacity { vec_capacity list.old ≤ vec_capacity list.new }
        ensures cause { HasCause (refusals self.old) (refusals self.new) result };
}

/// The memory of the system, which refuses what the allocator refuses. Contracts see how often it did, up to the last value of a
/// `u64`. Only tests show that the allocator has what it can give.
#[derive(Drop)]
pub struct SystemMemory {
    alloc: Global,
    refusals: u64,
}

impl Model for SystemMemory {
    ghost use Rattle.std.specs.Prelude.{ℕ};

    ghost Value = { ℕ };

    ghost view = { λ memory. memory.refusals };
}

impl SystemMemory {
    /// The memory of the system, of which none was refused.
    pub fn new(alloc: Global) -> SystemMemory
        ensures { result ≡ 0 }
    {
        SystemMemory { alloc, refusals: 0 }
    }
}

impl Memory for SystemMemory {
    ghost refusals = { λ memory. memory };

    fn list<T>(&mut self, room: usize) -> Result<Vec<T>, AllocError> {
        match Vec::with_capacity(self.alloc, room) {
            Ok(list) => Ok(list),
            Err(refused) => {
                self.refusals = self.refusals.saturating_add(1);
                Err(refused)
            }
        }
    }

    fn reserve<T>(&mut self, list: &mut Vec<T>, more: usize) -> Result<(), AllocError> {
        match list.reserve(more) {
            Ok(()) => Ok(()),
            Err(refused) => {
                self.refusals = self.refusals.saturating_add(1);
                Err(refused)
            }
        }
    }
}
