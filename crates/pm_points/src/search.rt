//! Searches for the first bad point, and for the points around a price.

ghost use Rattle.std.specs.Prelude.{◌≡◌, ◌≤◌, ◌<ℤ◌, length, All, IfSome, IfNone};
ghost use Rattle.pm_basis.specs.Prices.{IsBasis};
ghost use Rattle.pm_points.specs.Points.{last_at_most, IsLastAtMost, price_of_point};
ghost use Rattle.pm_points.specs.Checks.{first_price_fall, first_rise, first_outside, first_large_demand};

use pm_base::DEMAND_LIMIT;
use pm_basis::Basis;

/// The first point whose price is below the one before, else the number of points.
pub(crate) fn find_price_fall(points: &[(i64, i64)]) -> usize
    requires { 1 ≤ length points.now }
    ensures { result ≡ first_price_fall points.now }
{
    for at in 1..points.len() {
        if points[at].0 < points[at - 1].0 {
            return at;
        }
    }
    points.len()
}

/// The first point whose demand is above the one before, else the number of points.
pub(crate) fn find_rise(points: &[(i64, i64)]) -> usize
    requires { 1 ≤ length points.now }
    ensures { result ≡ first_rise points.now }
{
    for at in 1..points.len() {
        if points[at - 1].1 < points[at].1 {
            return at;
        }
    }
    points.len()
}

/// The first point whose demand is too large, else the number of points.
pub(crate) fn find_too_large(points: &[(i64, i64)]) -> usize
    ensures { result ≡ first_large_demand points.now }
{
    for (at, point) in points.iter().enumerate() {
        if point.1 < -DEMAND_LIMIT || DEMAND_LIMIT < point.1 {
            return at;
        }
    }
    points.len()
}

/// The first point whose price is no price of the range of the basis, else the number of points.
pub(crate) fn find_outside(points: &[(i64, i64)], basis: &Basis) -> usize
    ensures position { result ≡ first_outside basis.now points.now }
    ensures sound { IsBasis basis.now }
{
    let min = basis.min();
    let max = basis.max();
    for (at, point) in points.iter().enumerate() {
        if point.0 < min || max < point.0 {
            return at;
        }
    }
    points.len()
}

/// The place of the last point whose price is at most this price, if there is one.
pub(crate) fn find_last_at_most(points: &[(i64, i64)], price: i64) -> Option<usize>
    ensures place { result ≡ last_at_most points.now price }
    ensures last { IfSome result (IsLastAtMost points.now price) }
    ensures none { IfNone result (All (λ point. price <ℤ price_of_point point) points.now) }
{
    for at in (0..points.len()).rev() {
        if points[at].0 <= price {
            return Some(at);
        }
    }
    None
}
