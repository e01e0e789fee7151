//! Why an end puts or takes nothing, such as a cell that the other end holds.

use crate::message::UpMessage;
use pm_session::PriceUpdate;
use thiserror::Error;

/// Why nothing was taken: the other end has the slot.
#[derive(Clone, Copy, Debug, PartialEq, Eq, Error)]
#[error("the other end has the slot")]
pub struct Busy;

/// Why a bid was not put.
#[derive(Debug, Drop, Error)]
pub enum PutBidFault {
    /// The other end has the slot. The message is handed back.
    #[error("the other end has the slot of the bids")]
    Busy { message: UpMessage },
}

/// Why a price was not put.
#[derive(Clone, Copy, Debug, PartialEq, Eq, Error)]
pub enum PutPriceFault {
    /// The other end has the slot. The price is handed back.
    #[error("the other end has the slot of the prices")]
    Busy { price: PriceUpdate },
}
