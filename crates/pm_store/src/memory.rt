//! A store in memory, for tests. Each call is done at once, so a crash leaves what is there. It keeps each value that it had.

ghost use Rattle.std.specs.Prelude.{◌≡◌, ◌⊎◌, [], ◌∷◌, ◌++◌, OnOk, OnErr};
ghost use Rattle.std.proofs.Common.{inl};
ghost use Rattle.pm_store.specs.Past.{HadBeen};

use crate::store::Store;
use pm_io::Failed;
use std::alloc::{AllocError, Global};

/// A value in memory, with those before it.
#[derive(Drop)]
pub struct MemoryStore {
    alloc: Global,
    value: Vec<u8>,
    past: Vec<Vec<u8>>,
    faults: u64,
}

impl MemoryStore {
    ghost use Rattle.pm_store.specs.Memory.{memory_value};

    /// A store with this value.
    pub fn new(alloc: Global, value: Vec<u8>) -> Self
        ensures { memory_value result ≡ value.items }
    {
        MemoryStore {
            alloc,
            value,
            past: Vec::new(alloc),
            faults: 0,
        }
    }
}

// Puts another value in the place of the one that is there, which it keeps.
fn replaced(
    alloc: Global,
    value: &mut Vec<u8>,
    past: &mut Vec<Vec<u8>>,
    next: &[u8],
) -> Result<(), AllocError>
    ensures ok { OnOk result (value.new.items ≡ next.now) }
    ensures err { OnErr result (value.new.items ≡ value.old.items) }
    ensures past { OnOk result ((v : _) × (v.items ≡ value.old.items)
        × (past.new.items ≡ past.old.items ++ v ∷ [])) }
    ensures past_err { OnErr result (past.new.items ≡ past.old.items) }
{
    let after = next.to_vec(alloc)?;
    past.push(value.to_vec(alloc)?)?;
    *value = after;
    Ok(())
}

impl Store for MemoryStore {
    ghost seen = { λ m. m.value.items };

    ghost may_leave = { λ m c. c ≡ m.value.items };

    ghost has_left = { λ m c. (c ≡ m.value.items) ⊎ HadBeen m.past.items c };

    ghost faults = { λ m. m.faults };

    ghost counts_now = { λ m c now. inl now };

    fn value(&self) -> &[u8] {
        self.value.as_slice()
    }

    fn replace(&mut self, value: &[u8]) -> Result<(), Failed> {
        match replaced(self.alloc, &mut self.value, &mut self.past, value) {
            Ok(()) => Ok(()),
            Err(_) => {
                self.faults = self.faults.saturating_add(1);
                Err(Failed)
            }
        }
    }
}
