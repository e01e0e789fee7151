//! Reads a price, and finds its step in the basis.

ghost use Rattle.std.specs.Prelude.{pos, neg_ℤ, ◌≤ℤ◌, ◌-ℤ◌, ◌≡◌, ◌<◌, ◌≤◌, ◌^◌, ◌*◌, ◌/◌, ◌%◌};
ghost use Rattle.pm_base.specs.Limits.{most_steps, price_limit};
ghost use Rattle.std.specs.Fmt.{signed_decimal};
ghost use Rattle.pm_basis.specs.Prices.{IsBasis, price_at};
ghost use Rattle.pm_check.specs.MoveReading.{Reads, size_of};

use crate::reading::numbers::read_number;
use pm_basis::Basis;

/// The whole number that a word is, of at most 32 bits and a sign.
fn read_signed(word: &[u8]) -> Option<i64>
    ensures { Reads (λ z. size_of z < 2 ^ 32) signed_decimal word.now result }
{
    if word.is_empty() || word[0] != b'-' {
        let number = read_number(word)?;
        return Some(i64::from(number));
    }
    let size = read_number(&word[1..])?;
    if size == 0 {
        return None;
    }
    Some(-i64::from(size))
}

/// How far a price lies above another, both within ±1,000,000,000.
fn distance(from: i64, to: i64) -> u64
    requires low { neg_ℤ (pos price_limit) ≤ℤ from }
    requires order { from ≤ℤ to }
    requires high { to ≤ℤ pos price_limit }
    ensures { pos result ≡ to -ℤ from }
{
    (to - from) as u64
}

/// The step at which prices rise so far above the least, by the last step and the range of prices.
fn step_at(range: u64, last: u64, rise: u64) -> Option<u32>
    requires last { (1 ≤ last) × (last < most_steps) }
    requires range { 1 ≤ range }
    requires even { range % last ≡ 0 }
    requires within { rise ≤ range }
    ensures { Reads (λ step. step ≤ last) (λ step. step * range / last) rise result }
{
    let spacing = range / last;
    if rise % spacing != 0 {
        return None;
    }
    Some((rise / spacing) as u32)
}

/// The step of a basis that has this price.
fn step_of(basis: &Basis, price: i64) -> Option<u32>
    ensures { Reads (λ step. step < basis.now.steps) (price_at basis.now) price result }
{
    if price < basis.min() || basis.max() < price {
        return None;
    }
    let range = distance(basis.min(), basis.max());
    let rise = distance(basis.min(), price);
    step_at(range, basis.steps() as u64 - 1, rise)
}

/// The step of a basis whose price a word is.
pub(crate) fn read_step(basis: &Basis, word: &[u8]) -> Option<u32>
    requires { IsBasis basis.now }
    ensures { Reads (λ step. step < basis.now.steps)
        (λ step. signed_decimal (price_at basis.now step)) word.now result }
{
    let price = read_signed(word)?;
    step_of(basis, price)
}
