//! What a control says to its parent, and the parent says back.

ghost use Rattle.std.specs.Prelude.{◌≡◌, if◌then◌else◌, nat_le};
ghost use Rattle.pm_silence.specs.Placing.{echo_of};

/// A word of a control, and the answer to it.
///
/// - number: that of the control's newest bid; no two starts of the control share one
/// - said: what the control's own clock showed when it said the word
#[derive(Clone, Copy, Debug, PartialEq, Eq)]
pub struct Word {
    pub number: u64,
    pub said: u64,
}

impl Word {
    /// The answer of a parent whose own hold is used up by so much. None if the control's clock has not yet run as long.
    pub fn answered(self, used: u64) -> Option<Word>
        ensures { result ≡ (if nat_le used self.said then Some (echo_of self used) else None) }
    {
        if used <= self.said {
            Some(Word {
                number: self.number,
                said: self.said - used,
            })
        } else {
            None
        }
    }
}
