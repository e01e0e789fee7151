//! The tree of a demo cluster: its concentrators, and the devices below them.

ghost use Rattle.std.specs.Prelude.{◌≡◌, ◌<◌, ◌≤◌, ◌++◌, IfOk, IfErr, OnOk};
ghost use Rattle.pm_tree.specs.Entries.{entry_of, entries_of};
ghost use Rattle.pm_gen.specs.Nodes.{concentrator_entry, device_entry, concentrator_entries, device_entries, demo_entries, concentrator_count};

use crate::fault::GenFault;
use crate::names::{concentrator_name, device_name, parent_name};
use pm_tree::{Tree, TreeEntry, TreeFault};
use std::alloc::{AllocError, Global};

/// How many concentrators a cluster of so many devices has.
pub(crate) fn count_concentrators(size: u32) -> u32
    requires { size ≤ 200 }
    ensures { result ≡ concentrator_count size }
{
    (size + 19) / 20
}

/// The entry of a concentrator, counted from 1.
fn concentrator(alloc: Global, number: u32) -> Result<TreeEntry, AllocError>
    ensures { IfOk result (λ entry. entry_of entry ≡ concentrator_entry number) }
{
    Ok(TreeEntry {
        name: concentrator_name(alloc, number)?,
        parent: parent_name(alloc, number)?,
        leaf: false,
    })
}

/// The entry of a device, counted from 1, below one of so many concentrators.
fn device(alloc: Global, concentrators: u32, number: u32) -> Result<TreeEntry, AllocError>
    requires some { 0 < concentrators }
    requires few { concentrators ≤ 10 }
    requires first { 0 < number }
    ensures { IfOk result (λ entry. entry_of entry ≡ device_entry concentrators number) }
{
    Ok(TreeEntry {
        name: device_name(alloc, number)?,
        parent: concentrator_name(alloc, 1 + (number - 1) % concentrators)?,
        leaf: true,
    })
}

/// Adds the entries of so many concentrators.
fn push_concentrators(
    alloc: Global,
    count: u32,
    entries: &mut Vec<TreeEntry>,
) -> Result<(), AllocError>
    ensures { OnOk result (entries_of entries.new.items ≡ entries_of entries.old.items
        ++ concentrator_entries count) }
{
    for place in 0..count {
        entries.push(concentrator(alloc, place + 1)?)?;
    }
    Ok(())
}

/// Adds the entries of so many devices below so many concentrators.
fn push_devices(
    alloc: Global,
    count: u32,
    size: u32,
    entries: &mut Vec<TreeEntry>,
) -> Result<(), AllocError>
    requires some { 0 < count }
    requires few { count ≤ 10 }
    ensures { OnOk result (entries_of entries.new.items ≡ entries_of entries.old.items
        ++ device_entries count size) }
{
    for place in 0..size {
        entries.push(device(alloc, count, place + 1)?)?;
    }
    Ok(())
}

/// The entries of a cluster of so many devices.
#[tactic(auto, unfolding(crate::specs::Nodes::demo_entries))]
fn entries(alloc: Global, size: u32) -> Result<Vec<TreeEntry>, AllocError>
    requires some { 0 < size }
    requires few { size ≤ 200 }
    ensures { IfOk result (λ entries. entries_of entries.items ≡ demo_entries size) }
{
    let count = count_concentrators(size);
    let mut entries = Vec::new(alloc);
    push_concentrators(alloc, count, &mut entries)?;
    push_devices(alloc, count, size, &mut entries)?;
    Ok(entries)
}

/// The tree of a cluster of so many devices.
pub(crate) fn make_tree(alloc: Global, size: u32) -> Result<Tree, GenFault>
    requires some { 0 < size }
    requires few { size ≤ 200 }
    ensures tree { IfOk result (λ tree. tree ≡ demo_entries size) }
    ensures memory { IfErr result (λ fault. fault ≡ GenFault.NoMemory) }
{
    match Tree::new(alloc, entries(alloc, size)?) {
        Ok(tree) => Ok(tree),
        Err(fault) => Err(allocation_failure(fault)),
    }
}

/// The only fault that the entries of a demo cluster can have: that an allocation failed.
fn allocation_failure(fault: TreeFault) -> GenFault
    requires { fault ≡ TreeFault.NoMemory }
    ensures { result ≡ GenFault.NoMemory }
{
    let is_memory = fault == TreeFault::NoMemory;
    prove!(is_memory);
    GenFault::NoMemory
}
