//! Why three numbers are no basis, in the order of the tests.

use thiserror::Error;

/// Why there is no basis of these numbers. The causes are tested in this order.
#[derive(Clone, Copy, Debug, PartialEq, Eq, Error)]
pub enum BasisFault {
    /// The number of steps lies outside 2..=1000.
    #[error("the number of steps is not from 2 to 1000")]
    BadSteps,
    /// The least price is not below the greatest, or one of them lies outside ±1,000,000,000.
    #[error("the prices are not a range within the limits")]
    BadRange,
    /// The range of prices is not divided by the steps into whole prices.
    #[error("the steps do not divide the range of prices evenly")]
    Uneven,
}
