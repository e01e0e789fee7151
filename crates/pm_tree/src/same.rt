//! Compares two lists of entries.

ghost use Rattle.std.specs.Prelude.{◌≡◌, ◌↔◌, IsTrue};
ghost use Rattle.pm_tree.specs.Entries.{entry_of, entries_of};

use crate::entry::TreeEntry;

/// Whether two lists have the same entries in the same order.
pub(crate) fn same_entries(entries: &[TreeEntry], others: &[TreeEntry]) -> bool
    ensures { IsTrue result ↔ (entries_of entries.now ≡ entries_of others.now) }
{
    if entries.len() != others.len() {
        return false;
    }
    for place in 0..entries.len() {
        if !same_entry(&entries[place], &others[place]) {
            return false;
        }
    }
    true
}

/// Whether two entries have the same names and are both leaves or neither.
fn same_entry(entry: &TreeEntry, other: &TreeEntry) -> bool
    ensures { IsTrue result ↔ (entry_of entry.now ≡ entry_of other.now) }
{
    entry.name == other.name && entry.parent == other.parent && entry.leaf == other.leaf
}
