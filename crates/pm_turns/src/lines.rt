//! The newest line of a board's journal.

ghost use Rattle.std.specs.Prelude.{◌≡◌, ◌-◌, length, slice_get};

use pm_board::Board;
use pm_market::Line;

/// The line that joined a board's journal last; none of an empty one.
pub fn newest_line(board: &Board) -> Option<Line>
    ensures newest { result ≡ slice_get board.now.lines (length board.now.lines - 1) }
{
    let journal = board.journal();
    let newest = journal.len().checked_sub(1)?;
    journal.get(newest)
}
