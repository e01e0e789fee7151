//! Starts of one node on several machines, over one row that they share.
#![tactic(auto)]

ghost use Rattle.pm_takeover.specs.Takeovers.{TakeoversNameOneBid, TakeoversAreFenced};
ghost use Rattle.pm_takeover.specs.Blind.{BlindStoresNameTwo};

/// A law: if the row that the machines share is put only by a test of what was there, each number names one bid, however machines start,
/// stop, are cut off and come back.
pub fn takeovers_name_one_bid()
    ensures { TakeoversNameOneBid }
{}

/// A law: over such a row a start finds what was stored last, and from then on nothing that an older process stores.
pub fn takeovers_are_fenced()
    ensures { TakeoversAreFenced }
{}

/// A law: worked runs over a row that takes what comes, in which one number, or one count and number, names two bids.
pub fn blind_stores_name_two()
    ensures { BlindStoresNameTwo }
{}
