//! How a control says an offer.

use pm_device::DeviceState;
use pm_points::PointBid;

/// How a control says an offer.
#[derive(Drop)]
pub enum OfferForm {
    /// As the power in watts at each step.
    Array,
    /// As points, each a price and the power in watts at that price.
    Points(PointBid),
    /// As the state of a device of the kind that was named last.
    State(DeviceState),
}
