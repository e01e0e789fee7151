//! The prices of a market: equal steps from the least price to the greatest.

ghost use Rattle.std.specs.Prelude.{◌≡◌, ◌<◌, ◌≤ℤ◌, ◌<ℤ◌, ◌*ℤ◌, pos, int_div, int_rem, not};
ghost use Rattle.std.specs.Ordering.{int_eq};
ghost use Rattle.pm_base.specs.Limits.{most_steps};
ghost use Rattle.pm_basis.specs.Prices.{IsBasis, checked_basis, price_at};

use crate::fault::BasisFault;
use pm_base::{LEAST_STEPS, MOST_STEPS, PRICE_LIMIT};
use std::marker::Model;

/// The prices of a market: `steps` whole prices at equal distances, the first `min`, the last
/// `max`, in price units.
#[derive(Clone, Copy, Debug, PartialEq, Eq)]
pub struct Basis {
    min: i64,
    max: i64,
    steps: usize,
}

impl Model for Basis {
    ghost use Rattle.pm_basis.specs.Prices.{BasisValue, IsBasis};

    ghost Value = { BasisValue };

    ghost view = { λ b. record {
      min = b.min;
      max = b.max;
      steps = b.steps;
    } };

    ghost invariant = { λ b. IsBasis (record { min = b.min; max = b.max; steps = b.steps }) };

    ghost inverse = { λ v. record {
      min = v.min;
      max = v.max;
      steps = v.steps;
    } };
}

impl Basis {
    /// The basis of these numbers. There are 2 to 1000 steps, `min` is below `max`, both are
    /// within ±1,000,000,000 price units, and the distance of steps is whole. Otherwise the
    /// answer is the first fault, in the order of [`BasisFault`].
    pub fn new(min: i64, max: i64, steps: i64) -> Result<Basis, BasisFault>
        ensures { result ≡ checked_basis min max steps }
    {
        if steps < LEAST_STEPS as i64 || (MOST_STEPS as i64) < steps {
            return Err(BasisFault::BadSteps);
        }
        if max <= min || min < -PRICE_LIMIT || PRICE_LIMIT < max {
            return Err(BasisFault::BadRange);
        }
        if leaves_rest(max - min, steps - 1) {
            return Err(BasisFault::Uneven);
        }
        Ok(Basis {
            min,
            max,
            steps: steps as usize,
        })
    }

    /// The least price: that of step 0.
    pub fn min(&self) -> i64
        ensures min { result ≡ self.now.min }
        ensures sound { IsBasis self.now }
    {
        self.min
    }

    /// The greatest price: that of the last step.
    pub fn max(&self) -> i64
        ensures max { result ≡ self.now.max }
        ensures sound { IsBasis self.now }
    {
        self.max
    }

    /// The number of steps, from 2 to 1000.
    pub fn steps(&self) -> usize
        ensures steps { result ≡ self.now.steps }
        ensures sound { IsBasis self.now }
    {
        self.steps
    }

    /// The price of a step, in price units.
    pub fn price(&self, step: usize) -> i64
        requires { step < self.now.steps }
        ensures price { result ≡ price_at self.now step }
        ensures from_min { self.now.min ≤ℤ result }
        ensures to_max { result ≤ℤ self.now.max }
        ensures sound { IsBasis self.now }
    {
        self.min + rise(step as i64, self.steps as i64 - 1, self.max - self.min)
    }
}

/// Whether so many parts of the range of prices are not whole.
fn leaves_rest(range: i64, parts: i64) -> bool
    requires { pos 0 <ℤ parts }
    ensures { result ≡ not (int_eq (int_rem range parts) (pos 0)) }
{
    range % parts != 0
}

/// How far the price of a step lies above the least one, by the last step and the range of prices.
fn rise(step: i64, last: i64, range: i64) -> i64
    requires positive { pos 0 <ℤ last }
    requires small { last <ℤ pos most_steps }
    requires step_from { pos 0 ≤ℤ step }
    requires step_to { step ≤ℤ last }
    requires range_from { pos 0 ≤ℤ range }
    requires range_to { range ≤ℤ pos 2000000000 }
    ensures { result ≡ int_div (step *ℤ range) last }
{
    step * range / last
}
