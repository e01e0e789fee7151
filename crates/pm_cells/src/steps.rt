//! The rule of a link's table, how it is cut into two ends and joined again, and the eight kinds of step.

ghost use Rattle.pm_cells.specs.Cells.{KeepsCells, whole_view};
ghost use Rattle.pm_cells.specs.Steps.{child_view, parent_view, joined_view, spent_view, claims_to_put_bid, releases_put_bid, claims_to_take_bid};
ghost use Rattle.pm_cells.specs.Steps.{releases_taken_bid, claims_to_put_price, releases_put_price, claims_to_take_price, releases_taken_price};

use crate::message::Message;
use crate::view::EndView;
use atomic_table::{Join, Play, Split, TableRule};

/// The rule of the two cells.
pub(crate) struct Cells;

impl TableRule<Option<Message>, EndView, ()> for Cells {
    ghost holds = { λ _. KeepsCells };

    ghost first = { λ _. whole_view };
}

/// A link is cut into the child's and the parent's end, and they are joined at the close.
pub(crate) struct Ends;

impl Split<EndView> for Ends {
    ghost left = { λ _. child_view };

    ghost right = { λ _. parent_view };
}

impl Join<EndView> for Ends {
    ghost both = { joined_view };

    ghost spent = { spent_view };
}

/// The child's end claims the slot of the bids.
pub(crate) struct ClaimToPutBid;

impl Play<Option<Message>, EndView> for ClaimToPutBid {
    ghost then = { claims_to_put_bid };
}

/// The child's end gives the slot back with a bid.
pub(crate) struct ReleasePutBid;

impl Play<Option<Message>, EndView> for ReleasePutBid {
    ghost then = { releases_put_bid };
}

/// The parent's end claims the slot of the bids.
pub(crate) struct ClaimToTakeBid;

impl Play<Option<Message>, EndView> for ClaimToTakeBid {
    ghost then = { claims_to_take_bid };
}

/// The parent's end gives the slot of the bids back without what was there.
pub(crate) struct ReleaseTakenBid;

impl Play<Option<Message>, EndView> for ReleaseTakenBid {
    ghost then = { releases_taken_bid };
}

/// The parent's end claims the slot of the prices.
pub(crate) struct ClaimToPutPrice;

impl Play<Option<Message>, EndView> for ClaimToPutPrice {
    ghost then = { claims_to_put_price };
}

/// The parent's end gives the slot back with a price.
pub(crate) struct ReleasePutPrice;

impl Play<Option<Message>, EndView> for ReleasePutPrice {
    ghost then = { releases_put_price };
}

/// The child's end claims the slot of the prices.
pub(crate) struct ClaimToTakePrice;

impl Play<Option<Message>, EndView> for ClaimToTakePrice {
    ghost then = { claims_to_take_price };
}

/// The child's end gives the slot of the prices back without what was there.
pub(crate) struct ReleaseTakenPrice;

impl Play<Option<Message>, EndView> for ReleaseTakenPrice {
    ghost then = { releases_taken_price };
}
