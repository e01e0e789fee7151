//! Reads one target: a whole number of watts within the limit of a demand.

ghost use Rattle.std.specs.Prelude.{◌≡◌, ◌≢◌, ℤ, pos, ◌<ℤ◌, ◌∷◌, ◌++◌, IfSome, IfNone};
ghost use Rattle.std.specs.Fmt.{signed_decimal};
ghost use Rattle.pm_base.specs.Limits.{IsWithin, demand_limit};
ghost use Rattle.pm_ask.specs.TargetLists.{target_line, BeginsWithTarget};

use pm_base::DEMAND_LIMIT;
use pm_envelope::{number_up_to, split_line};

/// The target whose line begins a text, and what follows it, if the text begins with the line of a target.
pub(crate) fn split_target(text: &[u8]) -> Option<(i64, &[u8])>
    ensures within { IfSome result (λ parts. IsWithin demand_limit parts.0) }
    ensures some { IfSome result (λ parts. text.now ≡ target_line parts.0 ++ parts.1.now) }
    ensures none { IfNone result (¬ (BeginsWithTarget text.now)) }
{
    let (line, rest) = split_line(text)?;
    let target = read_target(line)?;
    Some((target, rest))
}

/// The target that a line writes: a whole number within the limit of a demand. It is in decimal digits without a leading
/// zero, with `-` in front if it is negative.
fn read_target(line: &[u8]) -> Option<i64>
    ensures within { IfSome result (IsWithin demand_limit) }
    ensures text { IfSome result (λ target. line.now ≡ signed_decimal target) }
    ensures none { IfNone result ((target : ℤ) → IsWithin demand_limit target →
        line.now ≢ signed_decimal target) }
{
    match line {
        [b'-', digits @ ..] => negative_of(digits),
        digits => number_up_to(DEMAND_LIMIT as u32, digits).map(i64::from),
    }
}

/// The negative number whose digits these are, down to the limit of a demand. Zero is not negative.
fn negative_of(digits: &[u8]) -> Option<i64>
    ensures within { IfSome result (IsWithin demand_limit) }
    ensures negative { IfSome result (λ target. target <ℤ pos 0) }
    ensures text { IfSome result (λ target. 45 ∷ digits.now ≡ signed_decimal target) }
    ensures none { IfNone result ((target : ℤ) → IsWithin demand_limit target →
        45 ∷ digits.now ≢ signed_decimal target) }
{
    match number_up_to(DEMAND_LIMIT as u32, digits)? {
        0 => None,
        magnitude => Some(-i64::from(magnitude)),
    }
}
