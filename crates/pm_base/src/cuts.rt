//! A cut as a row of numbers.

ghost use Rattle.std.specs.Prelude.{◌≡◌};
ghost use Rattle.pm_base.specs.Cuts.{cut_of};

/// The number that a cut has at a place, 0 if the cut ends before it.
pub fn number_in_cut(cut: &[u32], at: usize) -> u32
    ensures { result ≡ cut_of cut.now at }
{
    match cut.get(at) {
        Some(number) => *number,
        None => 0,
    }
}
