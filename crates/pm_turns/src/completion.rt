//! Finishes on the caller's thread what other threads left of a run.

ghost use Rattle.std.specs.Prelude.{◌≡◌, IfOk};
ghost use Rattle.pm_turns.specs.Settled.{IsSettled};
ghost use Rattle.pm_turns.specs.Turns.{Continues};

use crate::one_thread::{drain, finish};
use pm_board::Board;
use pm_nodes::Gate;
use pm_plan::Plan;
use std::alloc::{AllocError, Global};

/// Completes on this thread what others left of a plan's run: further lines join their journal. Where their board runs another
/// plan, all moves are made on a new board.
///
/// The board that it answers runs the plan; all phases are closed, all changes made, and nothing is pending, whatever board
/// is handed in. It is an error only for want of memory.
pub fn complete<'p, G: Gate>(
    alloc: Global,
    board: Board<'p>,
    plan: &'p Plan,
    gate: &G,
) -> Result<Board<'p>, AllocError>
    ensures plan { IfOk result (λ b. b.plan ≡ plan.now) }
    ensures settled { IfOk result IsSettled }
    ensures continues { board.entry.plan ≡ plan.now → IfOk result (Continues board.entry) }
{
    if !board.plan().same(plan) {
        // Before memory is taken for another.
        drop(board);
        return drain(alloc, plan, gate);
    }
    let mut board = board;
    finish(alloc, &mut board, gate)?;
    Ok(board)
}
