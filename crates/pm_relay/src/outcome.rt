//! What a relay does with a price from its parent.

/// What a relay did with a price. The causes are tested in the order `Dropped`, `PassedOn`, `Waits`, `Alone`.
#[derive(Clone, Copy, Debug, PartialEq, Eq)]
pub enum PriceOutcome {
    /// The price was taken, and goes on to the children by the record of the number that it names.
    PassedOn,
    /// The price was taken, and nothing goes on: the record of its number was lost in a restart.
    Alone,
    /// Nothing happened: the price names the newest number, whose record was lost and can yet be had again.
    Waits,
    /// Nothing happened: the index is not above the last one, or the number is none from the one answered to the newest.
    Dropped,
}
