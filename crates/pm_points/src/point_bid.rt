//! A bid of up to 64 points, and the array bid that it gives over a basis.

ghost use Rattle.std.specs.Prelude.{◌≡◌, ◌<◌, length, IfOk};
ghost use Rattle.pm_bid.specs.Bids.{AllWithinLimit, NeverRises};
ghost use Rattle.pm_base.specs.Limits.{demand_limit, IsWithin, price_limit};
ghost use Rattle.pm_points.specs.Points.{array_of_points, demand_at_price};
ghost use Rattle.pm_points.specs.Checks.{checked_points};

use crate::fault::PointFault;
use crate::line::demand_between;
use crate::search::{find_last_at_most, find_outside, find_price_fall, find_rise, find_too_large};
use pm_basis::Basis;
use pm_bid::{ArrayBid, uncounted};
use std::alloc::AllocError;
use std::marker::Model;

/// The largest number of points of a bid.
const MAX_POINTS: usize = 64;

/// A bid given by 1 to 64 points, each a price in price units and the demand in watts at that price.
///
/// Contracts see it as the list of its points. Prices never fall along it, demands never rise, and
/// both lie within ±1,000,000,000.
#[derive(Drop)]
pub struct PointBid {
    points: Vec<(i64, i64)>,
}

impl Model for PointBid {
    ghost use Rattle.std.specs.Prelude.{List};
    ghost use Rattle.pm_points.specs.Points.{Point, IsPointBid};

    ghost Value = { List Point };

    ghost view = { λ b. b.points.items };

    ghost invariant = { λ b. IsPointBid b.points.items };
}

impl PointBid {
    /// The bid of these points, pairs of a price and a demand. There are 1 to 64 of them, no price is
    /// below the one before, and no demand is above the one before. Each demand lies within
    /// ±1,000,000,000 watts and each price within those of the basis. Otherwise the answer is the
    /// first fault, in the order of [`PointFault`].
    pub fn new(points: Vec<(i64, i64)>, basis: &Basis) -> Result<PointBid, PointFault>
        ensures { result ≡ checked_points basis.now points.items }
    {
        if points.is_empty() {
            return Err(PointFault::NoPoints);
        }
        if MAX_POINTS < points.len() {
            return Err(PointFault::TooMany { have: points.len() });
        }
        let at = find_price_fall(&points);
        if at < points.len() {
            return Err(PointFault::PriceFalls { at });
        }
        let at = find_rise(&points);
        if at < points.len() {
            return Err(PointFault::Rising { at });
        }
        let at = find_too_large(&points);
        if at < points.len() {
            return Err(PointFault::TooLarge { at });
        }
        let at = find_outside(&points, basis);
        if at < points.len() {
            return Err(PointFault::PriceOutside { at });
        }
        Ok(PointBid { points })
    }

    /// The array bid with the demand at the price of each step of the basis. Its demands never rise
    /// and lie within ±1,000,000,000 watts.
    pub fn to_array(&self, basis: &Basis) -> Result<ArrayBid, AllocError>
        ensures array { IfOk result (λ array. array ≡ array_of_points self.now basis.now) }
        ensures steps { IfOk result (λ array. length array ≡ basis.now.steps) }
        ensures falls { IfOk result (λ array. NeverRises array) }
        ensures within { IfOk result (λ array. AllWithinLimit demand_limit array) }
    {
        let mut counter = uncounted();
        let steps = basis.steps();
        let mut array = ArrayBid::zero(*self.points.allocator(), steps, &mut counter)?;
        for step in 0..steps {
            let demand = self.demand_at(basis.price(step));
            array.set(step, demand, &mut counter);
        }
        Ok(array)
    }

    /// The demand at a price, in watts. It is on the straight line between the two points around the
    /// price, rounded down. Before all points it is the first demand, and after them the last one.
    pub fn demand_at(&self, price: i64) -> i64
        requires { IsWithin price_limit price }
        ensures demand { result ≡ demand_at_price self.now price }
        ensures within { IsWithin demand_limit result }
    {
        let Some(last) = find_last_at_most(&self.points, price) else {
            return self.points[0].1;
        };
        let from = self.points[last];
        if last + 1 == self.points.len() {
            return from.1;
        }
        demand_between(from, self.points[last + 1], price)
    }
}
