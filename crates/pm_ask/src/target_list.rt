//! Reads a list of targets, one a line.

ghost use Rattle.std.specs.Prelude.{◌≡◌, ℕ, ℤ, List, IfOk, IfErr, IsErr};
ghost use Rattle.pm_ask.specs.TargetLists.{IsListText, IsFirstBadLine, IsFaultOfText};

use crate::target::split_target;
use crate::target_fault::TargetsFault;
use std::alloc::Global;

/// The most targets of a list.
pub const MOST_TARGETS: usize = 100_000;

/// The targets of a text, in watts: a line for each, at most [`MOST_TARGETS`]. A target is a whole number within
/// ±1,000,000,000, in decimal digits without a leading zero, with `-` in front if it is negative. Its line has an end.
/// The text is refused at its first bad line. An allocation failure may be answered at any text.
pub fn read_targets(alloc: Global, text: &[u8]) -> Result<Vec<i64>, TargetsFault>
    ensures read { IfOk result (λ targets. IsListText targets.items text.now) }
    ensures bad { IfErr result (IsFaultOfText text.now) }
    // The text of a list is not refused, and a text with a bad line is.
    ensures accepted { (targets : List ℤ) → IsListText targets text.now →
        IfErr result (λ fault. fault ≡ TargetsFault.NoMemory) }
    ensures refused { (line : ℕ) → IsFirstBadLine line text.now → IsErr result }
{
    let mut targets = Vec::new(alloc);
    let mut rest = text;
    while !rest.is_empty() {
        let line = targets.len() as u32 + 1;
        if targets.len() == MOST_TARGETS {
            return Err(TargetsFault::Bad { line });
        }
        let Some((target, more)) = split_target(rest) else {
            return Err(TargetsFault::Bad { line });
        };
        targets.push(target)?;
        rest = more;
    }
    Ok(targets)
}

/// A law: a text is that of one list of targets at most, has one first bad line at most, and never both.
pub fn texts_have_one_reading()
    ensures list { (targets others : List ℤ) (text : List ℕ) → IsListText targets text →
        IsListText others text → targets ≡ others }
    ensures line { (line other : ℕ) (text : List ℕ) → IsFirstBadLine line text →
        IsFirstBadLine other text → line ≡ other }
    ensures apart { (targets : List ℤ) (line : ℕ) (text : List ℕ) → IsListText targets text →
        ¬ (IsFirstBadLine line text) }
{}
