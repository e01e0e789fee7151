//! The demand on the straight line between two points, rounded down.

ghost use Rattle.std.specs.Prelude.{◌≡◌, ◌≤ℤ◌, ◌<ℤ◌, ◌*ℤ◌, pos, negsuc};
ghost use Rattle.std.specs.Int.{int_div_euclid};
ghost use Rattle.pm_points.specs.Points.{demand_between, IsBetween};

/// The demand at a price on the straight line from one point to the next, rounded down.
pub(crate) fn demand_between(from: (i64, i64), to: (i64, i64), price: i64) -> i64
    requires { IsBetween from to price }
    ensures demand { result ≡ demand_between from to price }
    ensures least { to.1 ≤ℤ result }
    ensures greatest { result ≤ℤ from.1 }
{
    from.1 + change_along(to.1 - from.1, price - from.0, to.0 - from.0)
}

/// How much of the change falls to the first `run` of `width`, rounded down.
fn change_along(change: i64, run: i64, width: i64) -> i64
    requires least_change { negsuc 1999999999 ≤ℤ change }
    requires falls { change ≤ℤ pos 0 }
    requires run_from { pos 0 ≤ℤ run }
    requires run_to { run <ℤ width }
    requires greatest_width { width ≤ℤ pos 2000000000 }
    ensures change { result ≡ int_div_euclid (change *ℤ run) width }
    ensures falls { result ≤ℤ pos 0 }
    ensures stays { change ≤ℤ result }
{
    (change * run).div_euclid(width)
}
