//! Lists and tables that count from 0 or from 1, in which a missing item has a default.

ghost use Rattle.std.specs.Prelude.{◌≡◌, ◌==◌, ◌<◌, ◌||◌, ◌∷◌, ◌++◌, ℕ, false, [], length, replicate, slice_index_or};
ghost use Rattle.std.specs.Prelude.{slice_set, IfOk, OnErr, OnOk};
ghost use Rattle.pm_base.specs.Rows.{rows_of};
ghost use Rattle.pm_market.specs.Due.{AreParents};
ghost use Rattle.pm_market.specs.Legality.{is_one_of};

use std::alloc::{AllocError, Global};

/// The item at a place of a list that is counted from 1, otherwise `none`.
pub(crate) fn item_from_one<T: Copy>(list: &[T], place: usize, none: T) -> T
    ensures { result ≡ slice_index_or (none ∷ list.now) place none }
{
    match place.checked_sub(1) {
        Some(at) => item_at(list, at, none),
        None => none,
    }
}

/// The item at a place that is counted from 0, otherwise `none`.
pub(crate) fn item_at<T: Copy>(list: &[T], place: usize, none: T) -> T
    ensures { result ≡ slice_index_or list.now place none }
{
    if place < list.len() {
        list[place]
    } else {
        none
    }
}

/// The row at a place of a table that is counted from 1; a row that is missing is empty.
pub(crate) fn row_from_one<T>(table: &[Vec<T>], place: usize) -> &[T]
    ensures { result.now ≡ slice_index_or ([] ∷ rows_of table.now) place [] }
{
    match place.checked_sub(1) {
        Some(at) => row_at(table, at),
        None => &[],
    }
}

/// The row at a place that is counted from 0; a row that is missing is empty.
pub(crate) fn row_at<T>(table: &[Vec<T>], place: usize) -> &[T]
    ensures { result.now ≡ slice_index_or (rows_of table.now) place [] }
{
    match table.get(place) {
        Some(row) => row,
        None => &[],
    }
}

/// Adds an item at the end of a row. On an error the table is as before.
pub(crate) fn push_at<T: Drop>(
    table: &mut [Vec<T>],
    place: usize,
    item: T,
) -> Result<(), AllocError>
    requires { place < length table.old }
    ensures ok { OnOk result (rows_of table.new ≡ slice_set (rows_of table.old) place
        (slice_index_or (rows_of table.old) place [] ++ item ∷ [])) }
    ensures err { OnErr result (rows_of table.new ≡ rows_of table.old) }
{
    let row = &mut table[place];
    row.push(item)?;
    Ok(())
}

/// So many empty rows.
pub(crate) fn empty_rows<T: Drop>(alloc: Global, rows: usize) -> Result<Vec<Vec<T>>, AllocError>
    ensures { IfOk result (λ table. rows_of table.items ≡ replicate rows []) }
{
    let mut table = Vec::with_capacity(alloc, rows)?;
    for _row in 0..rows {
        table.push(Vec::new(alloc))?;
    }
    Ok(table)
}

/// For each node whether it is the parent of another, the auctioneer's place first.
pub(crate) fn marked_parents(
    alloc: Global,
    parents: &[u32],
    places: usize,
) -> Result<Vec<bool>, AllocError>
    ensures { IfOk result (λ marks. AreParents parents.now marks.items) }
{
    let mut marks = vec![in alloc; false; places]?;
    for at in 0..parents.len() {
        let parent = parents[at] as usize;
        if parent < marks.len() {
            marks[parent] = true;
        }
    }
    Ok(marks)
}

/// Sets the mark at a place, if there is one.
pub(crate) fn mark(marks: &mut [bool], place: usize)
    ensures length { length marks.new ≡ length marks.old }
    ensures marks { (x : ℕ) → x < length marks.old →
        slice_index_or marks.new x false ≡ (slice_index_or marks.old x false || (x == place)) }
{
    if place < marks.len() {
        marks[place] = true;
    }
}

/// Whether an item is in a list, sought from its end.
pub(crate) fn is_among(list: &[usize], item: usize) -> bool
    ensures { result ≡ is_one_of list.now item }
{
    let len = list.len();
    for back in 0..len {
        if list[len - back - 1] == item {
            return true;
        }
    }
    false
}
