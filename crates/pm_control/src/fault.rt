//! Why an offer is not taken, in the order of the tests.

use thiserror::Error;

/// Why an offer is not taken. The causes are tested in this order.
#[derive(Clone, Copy, Debug, PartialEq, Eq, Error)]
pub enum OfferFault {
    /// Eight offers are unanswered.
    #[error("eight offers are unanswered")]
    WindowFull,
    /// No two numbers of the device are left with one for the parent after each. The last is left for leaving.
    #[error("no number is left")]
    OutOfNumbers,
}
