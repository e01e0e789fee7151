//! Point bids of the market: a demand function of the price, drawn through a few points.
//!
//! A point bid is a list of pairs of a price and the demand in watts at that price. Before the first
//! point the first demand holds, after the last one the last demand. Between two points of different
//! prices the demand lies on the straight line through them. At a price that several points share,
//! the last of them holds. Along the points prices never fall and demands never rise, so the demand
//! never rises with the price (Kok, "The PowerMatcher", 2013).
//!
//! PowerMatcher 2 calls the form a point bid. Whole watts, rounding down, and the limits are this
//! project's own profile. The market itself adds array bids: [`PointBid::to_array`] gives the demand
//! at the price of each step of a market basis.
#![tactic(auto)]

mod fault;
mod line;
mod point_bid;
mod search;

pub use fault::PointFault;
pub use point_bid::PointBid;
