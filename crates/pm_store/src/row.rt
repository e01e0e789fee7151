//! A store over a row that several machines share: it is put only if it is as this machine read it or put it last.

ghost use Rattle.std.specs.Prelude.{◌≡◌, ℕ, List, Ok, OnOk, OnErr, true, false};
ghost use Rattle.pm_io.specs.Causes.{HasCause};
ghost use Rattle.pm_store.specs.Stores.{Only, LeavesOldOr, LeavesInTime};

use crate::memory::MemoryStore;
use crate::store::Store;
use pm_io::Failed;
use std::alloc::Global;

/// A row of a database, as one machine uses it. Another machine may take over: it reads the row and puts its own start there. From then on
/// each put of this machine is refused.
pub trait Row {
    // What the next start may find, or found, on this machine or on another.
    ghost may_find: { Self → List ℕ → Type 0 };

    // What it might have found at some moment until now.
    ghost might_find: { Self → List ℕ → Type 0 };

    // How often the row could not be reached.
    ghost faults: { Self → ℕ };

    /// Puts the value if the row is as expected, durably and in one step, as by `UPDATE .. WHERE value = expected`. `Ok(true)`: it was put, and
    /// the next start finds it. `Ok(false)`: the row was another, and it stays so. After an `Err` it may have been put.
    fn put_if(&mut self, expected: &[u8], value: &[u8]) -> Result<bool, Failed>
        ensures tested { result ≡ Ok true → may_find self.old expected.now }
        ensures put { result ≡ Ok true → Only value.now (may_find self.new) }
        ensures refused { result ≡ Ok false →
            (c : List ℕ) → may_find self.new c → may_find self.old c }
        ensures crash { LeavesOldOr value.now (may_find self.old) (may_find self.new) }
        ensures moments { LeavesInTime value.now (may_find self.old) (might_find self.old)
            (might_find self.new) }
        ensures cause { HasCause (faults self.old) (faults self.new) result };

    // This moment is one of those until now.
    ghost counts_now: { (row : Self) (c : List ℕ) → may_find row c → might_find row c };
}

/// A row, and the value that this machine read of it or put there last.
#[derive(Drop)]
pub struct RowStore<R> {
    alloc: Global,
    row: R,
    value: Vec<u8>,
    faults: u64,
}

impl<R: Row + Drop> RowStore<R> {
    ghost use Rattle.pm_store.specs.Rows.{HoldsRow};

    /// A store over a row that was read as this value.
    pub fn new(alloc: Global, row: R, value: Vec<u8>) -> Self
        ensures { HoldsRow row value.items result }
    {
        RowStore {
            alloc,
            row,
            value,
            faults: 0,
        }
    }

    /// The row.
    pub fn into_row(self) -> R
        ensures { result ≡ self.row }
    {
        self.row
    }
}

impl<R: Row> RowStore<R> {
    /// Puts the value, and keeps it as the one that was put last.
    fn put(&mut self, value: &[u8]) -> Result<(), Failed>
        ensures durable { OnOk result (Only value.now (R.may_find self.new.row)) }
        ensures seen { OnOk result (self.new.value.items ≡ value.now) }
        ensures same { OnErr result (self.new.value.items ≡ self.old.value.items) }
        ensures crash { LeavesOldOr value.now (R.may_find self.old.row)
            (R.may_find self.new.row) }
        ensures moments { LeavesInTime value.now (R.may_find self.old.row)
            (R.might_find self.old.row) (R.might_find self.new.row) }
        ensures faults { self.new.faults ≡ self.old.faults }
    {
        let copy = match value.to_vec(self.alloc) {
            Ok(copy) => copy,
            Err(_) => return Err(Failed),
        };
        match self.row.put_if(&self.value, value) {
            Ok(true) => {
                self.value = copy;
                Ok(())
            }
            Ok(false) => Err(Failed),
            Err(_) => Err(Failed),
        }
    }
}

impl<R: Row> Store for RowStore<R> {
    ghost seen = { λ store. store.value.items };

    ghost may_leave = { λ store c. R.may_find store.row c };

    ghost has_left = { λ store c. R.might_find store.row c };

    ghost faults = { λ store. store.faults };

    ghost counts_now = { λ store c found. R.counts_now store.row c found };

    fn value(&self) -> &[u8] {
        self.value.as_slice()
    }

    fn replace(&mut self, value: &[u8]) -> Result<(), Failed> {
        match self.put(value) {
            Ok(()) => Ok(()),
            Err(_) => {
                self.faults = self.faults.saturating_add(1);
                Err(Failed)
            }
        }
    }
}

/// A row in memory, for tests.
#[derive(Drop)]
pub struct MemoryRow {
    store: MemoryStore,
}

impl MemoryRow {
    ghost use Rattle.pm_store.specs.Memory.{memory_value, row_value};

    /// A row with what this store holds.
    pub fn new(store: MemoryStore) -> Self
        ensures { row_value result ≡ memory_value store }
    {
        MemoryRow { store }
    }

    /// What the row holds.
    pub fn value(&self) -> &[u8]
        ensures { result.now ≡ row_value self.now }
    {
        self.store.value()
    }
}

impl Row for MemoryRow {
    ghost use Rattle.std.specs.Prelude.{◌≡◌, ◌⊎◌};
    ghost use Rattle.std.proofs.Common.{inl};
    ghost use Rattle.pm_store.specs.Past.{HadBeen};

    ghost may_find = { λ row c. c ≡ row.store.value.items };

    ghost might_find = { λ row c. (c ≡ row.store.value.items) ⊎ HadBeen row.store.past.items c };

    ghost faults = { λ row. row.store.faults };

    ghost counts_now = { λ row c now. inl now };

    fn put_if(&mut self, expected: &[u8], value: &[u8]) -> Result<bool, Failed> {
        if self.store.value() != expected {
            return Ok(false);
        }
        self.store.replace(value)?;
        Ok(true)
    }
}
