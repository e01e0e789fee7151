//! Why a list of points is no bid, in the order of the tests.

use thiserror::Error;

/// Why a list of points is no bid. The causes are tested in this order. Positions begin at 0.
#[derive(Clone, Copy, Debug, PartialEq, Eq, Error)]
pub enum PointFault {
    /// The list has no point.
    #[error("no points")]
    NoPoints,
    /// The list has `have` points, which are more than 64.
    #[error("{have} points, more than 64")]
    TooMany { have: usize },
    /// The price of point `at` is below the one before: the first such point.
    #[error("the price falls at point {at}")]
    PriceFalls { at: usize },
    /// The demand of point `at` is above the one before: the first such point.
    #[error("the demand rises at point {at}")]
    Rising { at: usize },
    /// The demand of point `at` lies outside ±1,000,000,000 watts: the first such point.
    #[error("the demand is too large at point {at}")]
    TooLarge { at: usize },
    /// The price of point `at` lies outside the prices of the basis: the first such point.
    #[error("the price is outside the basis at point {at}")]
    PriceOutside { at: usize },
}
