//! What a child is told: a band of powers.

ghost use Rattle.std.specs.Prelude.{◌≡◌};

/// The index of what a child may take at any time, whatever it promised: its fallback.
pub const ALWAYS: u64 = u64::MAX;

/// The powers from `low` to `high`, in watts, between which a child was told to stay, under the index of its price. For a device both
/// are the power that it was told. For a relay they are the limits that it was told.
#[derive(Clone, Copy, Debug, PartialEq, Eq)]
pub struct Band {
    pub index: u64,
    pub low: i64,
    pub high: i64,
}

impl Band {
    /// What a device is told: one power, in watts.
    pub fn power(index: u64, power: i64) -> Band
        ensures index { result.index ≡ index }
        ensures low { result.low ≡ power }
        ensures high { result.high ≡ power }
    {
        Band {
            index,
            low: power,
            high: power,
        }
    }
}
