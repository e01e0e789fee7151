//! What a stored value gives back.

ghost use Rattle.pm_store.specs.Values.{ValuesGiveBack};

/// A law: a value gives back the start, the Resume and the Bid that it was made of; an empty one has none.
pub fn values_give_back()
    ensures { ValuesGiveBack }
{}
