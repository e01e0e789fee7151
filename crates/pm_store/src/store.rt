//! The trait of a store, with what a crash at any moment leaves.

ghost use Rattle.std.specs.Prelude.{◌≡◌, ◌⊎◌, ℕ, List, OnOk, OnErr};
ghost use Rattle.pm_io.specs.Causes.{HasCause};
ghost use Rattle.pm_store.specs.Stores.{Only, LeavesOldOr, LeavesInTime};

use pm_io::Failed;

/// A place for one value of bytes, which is replaced whole.
///
/// A crash at any moment leaves a value that was there whole: never a part of one, and never a mix. The next start finds it.
pub trait Store {
    // The value that a read gives.
    ghost seen: { Self → List ℕ };

    // What a crash at this moment may leave.
    ghost may_leave: { Self → List ℕ → Type 0 };

    // What a crash at some moment until now might have left, within a call or between two.
    ghost has_left: { Self → List ℕ → Type 0 };

    // How often the store has failed.
    ghost faults: { Self → ℕ };

    /// The value.
    fn value(&self) -> &[u8]
        ensures { result.now ≡ seen self.now };

    /// Puts another value in the place of the one that is there. Once it has returned `Ok`, each crash leaves the new one. Until then,
    /// and after an `Err`, a crash leaves the new one or what it might have left before.
    fn replace(&mut self, value: &[u8]) -> Result<(), Failed>
        ensures durable { OnOk result (Only value.now (may_leave self.new)) }
        ensures seen { OnOk result (seen self.new ≡ value.now) }
        ensures same { OnErr result (seen self.new ≡ seen self.old) }
        ensures crash { LeavesOldOr value.now (may_leave self.old) (may_leave self.new) }
        ensures moments { LeavesInTime value.now (may_leave self.old) (has_left self.old)
            (has_left self.new) }
        ensures cause { HasCause (faults self.old) (faults self.new) result };

    // This moment is one of those until now.
    ghost counts_now: { (store : Self) (c : List ℕ) → may_leave store c → has_left store c };
}
