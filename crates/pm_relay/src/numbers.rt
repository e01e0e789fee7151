//! Compares the numbers of a record with the numbers that were heard, and notes them.

ghost use Rattle.std.specs.Prelude.{◌≡◌, ℕ, ◌<◌, ◌↔◌, IsTrue, length};
ghost use Rattle.pm_relay.specs.Numbers.{IsCaughtUp, HearsNothingNewer, child_number, head_number, known_number, parents_number};

use pm_bid::BidHead;

/// Whether each child's head has at least the child's number: the node has heard as much as went into what it made last.
pub(crate) fn is_caught_up(numbers: &[u32], heads: &[BidHead]) -> bool
    requires { length heads.now ≡ length numbers.now }
    ensures { IsTrue result ↔ IsCaughtUp numbers.now heads.now }
{
    for child in 0..numbers.len() {
        if heads[child].number < numbers[child] {
            return false;
        }
    }
    true
}

/// Whether no child's head has more than the child's number.
pub(crate) fn hears_nothing_newer(numbers: &[u32], heads: &[BidHead]) -> bool
    requires { length heads.now ≡ length numbers.now }
    ensures { IsTrue result ↔ HearsNothingNewer numbers.now heads.now }
{
    for child in 0..numbers.len() {
        if numbers[child] < heads[child].number {
            return false;
        }
    }
    true
}

/// Writes each head's number in the child's place.
pub(crate) fn note_numbers(heads: &[BidHead], numbers: &mut Vec<u32>)
    requires { length heads.now ≡ length numbers.old.items }
    ensures same_length { length numbers.new.items ≡ length numbers.old.items }
    ensures noted { (child : ℕ) → child < length heads.now →
        child_number numbers.new.items child ≡ head_number heads.now child }
{
    for child in 0..numbers.len() {
        numbers[child] = heads[child].number;
    }
}

/// The number under which a child, a device, is let go: the odd number that is not below the newest one known of it. The
/// child gives even numbers alone, so this one is its parent's.
pub(crate) fn expiry_number(numbers: &[u32], heads: &[BidHead], child: usize) -> u32
    requires child { child < length numbers.now }
    requires same { length heads.now ≡ length numbers.now }
    ensures { result ≡ parents_number (known_number numbers.now heads.now child) }
{
    let heard = heads[child].number;
    let known = if numbers[child] < heard {
        heard
    } else {
        numbers[child]
    };
    if known % 2 == 0 { known + 1 } else { known }
}
