//! Reads one line of a trace, the inverse of what `pm_report` writes.

ghost use Rattle.std.specs.Prelude.{◌≡◌, ◌∷◌, ◌++◌, codes, None};
ghost use Rattle.pm_plan.specs.Kept.{IsPlan};
ghost use Rattle.pm_report.specs.Trace.{IsLineOfRun, move_line};
ghost use Rattle.pm_check.specs.MoveReading.{Reads};

use crate::reading::numbers::read_last_number;
use crate::reading::parts::{read_learning, read_node_number, read_passing};
use crate::reading::words::{is_same, split_word};
use pm_basis::Basis;
use pm_market::{Line, Move};
use pm_plan::Plan;

/// The line of a move after which nothing is held.
fn unheld(what: Move) -> Line
    ensures { result ≡ record { what = what; held = None } }
{
    Line { what, held: None }
}

/// The line of a change, of what follows its first word.
fn read_change(plan: &Plan, rest: &[u8]) -> Option<Line>
    requires { IsPlan plan.now }
    ensures { Reads (IsLineOfRun plan.now) (move_line plan.now)
        (codes "change" ++ 32 ∷ rest.now) result }
{
    let (device, number) = read_node_number(plan, rest)?;
    Some(unheld(Move::Change { device, number }))
}

/// The line of a learning, of what follows its first word.
fn read_learn(plan: &Plan, rest: &[u8]) -> Option<Line>
    requires { IsPlan plan.now }
    ensures { Reads (IsLineOfRun plan.now) (move_line plan.now)
        (codes "learn" ++ 32 ∷ rest.now) result }
{
    let (child, number) = read_learning(plan, rest)?;
    Some(unheld(Move::Learn { child, number }))
}

/// The line of a publishing, of what follows its first word.
fn read_publish(plan: &Plan, rest: &[u8]) -> Option<Line>
    requires { IsPlan plan.now }
    ensures { Reads (IsLineOfRun plan.now) (move_line plan.now)
        (codes "publish" ++ 32 ∷ rest.now) result }
{
    let (node, number) = read_node_number(plan, rest)?;
    Some(unheld(Move::Publish { node, number }))
}

/// The line of a clearing, of what follows its first word.
fn read_clear(plan: &Plan, rest: &[u8]) -> Option<Line>
    ensures { Reads (IsLineOfRun plan.now) (move_line plan.now)
        (codes "clear" ++ 32 ∷ rest.now) result }
{
    let index = read_last_number(rest)?;
    Some(unheld(Move::Clear { index }))
}

/// The line of a pass, of what follows its first word.
fn read_pass(plan: &Plan, basis: &Basis, rest: &[u8]) -> Option<Line>
    requires plan { IsPlan plan.now }
    requires basis { basis.now ≡ plan.now.basis }
    ensures { Reads (IsLineOfRun plan.now) (move_line plan.now)
        (codes "pass" ++ 32 ∷ rest.now) result }
{
    let (node, index, held) = read_passing(plan, basis, rest)?;
    Some(Line {
        what: Move::Pass { node, index },
        held,
    })
}

/// The line of a closing, of what follows its first word.
fn read_close(plan: &Plan, rest: &[u8]) -> Option<Line>
    ensures { Reads (IsLineOfRun plan.now) (move_line plan.now)
        (codes "close" ++ 32 ∷ rest.now) result }
{
    let phase = read_last_number(rest)?;
    Some(unheld(Move::Close { phase }))
}

/// The line of a run of the plan that a trace tells by these bytes, the line feed at the end included. The answer is None
/// exactly if no line of a run is told so. Lines that are told by the same bytes are the same (a law of `pm_report`), so
/// there is no other answer.
///
/// A number is decimal, without a sign and without zeros in front, and has at most 32 bits. A price is that of a step of
/// the basis. A name is that of a node of the plan. A child comes behind its parent, and one blank parts two words. Only
/// a pass to a device tells what is then held, and each does. The auctioneer's name is read as node 0 wherever a line may
/// name it, as in a change. So whether the node may make the move is left to the caller. Reading takes no memory.
pub fn read_line(plan: &Plan, line: &[u8]) -> Option<Line>
    ensures { Reads (IsLineOfRun plan.now) (move_line plan.now) line.now result }
{
    let basis = plan.basis();
    let (what, rest) = split_word(line)?;
    if is_same(what, b"change".as_slice()) {
        read_change(plan, rest)
    } else if is_same(what, b"learn".as_slice()) {
        read_learn(plan, rest)
    } else if is_same(what, b"publish".as_slice()) {
        read_publish(plan, rest)
    } else if is_same(what, b"clear".as_slice()) {
        read_clear(plan, rest)
    } else if is_same(what, b"pass".as_slice()) {
        read_pass(plan, basis, rest)
    } else if is_same(what, b"close".as_slice()) {
        read_close(plan, rest)
    } else {
        None
    }
}
