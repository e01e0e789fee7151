//! Searches for the first step at which a total rises.

ghost use Rattle.std.specs.Prelude.{◌≡◌, length};
ghost use Rattle.pm_bid.specs.Checks.{first_rising};

use pm_bid::{ArrayBid, uncounted};

/// The first step at which the total is above the one at the step before, else the number of steps.
pub(crate) fn find_rise(total: &ArrayBid) -> usize
    ensures { result ≡ first_rising total.now }
{
    let mut counter = uncounted();
    for step in 1..total.steps() {
        if total.at(step - 1, &mut counter) < total.at(step, &mut counter) {
            return step;
        }
    }
    total.steps()
}
