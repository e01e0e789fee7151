//! What a device's node, or its control, goes by: answers to its words, and heartbeats.

ghost use Rattle.std.specs.Prelude.{◌≡◌};
ghost use Rattle.pm_silence.specs.Beating.{heard_beat, is_new};
ghost use Rattle.pm_silence.specs.Holding.{hold_told};
ghost use Rattle.pm_silence.specs.Silencing.{told_at};

use crate::beating::{Beat, Listener};
use crate::holding::Hold;
use crate::words::Word;

/// What is told now.
#[derive(Clone, Copy, Debug, PartialEq, Eq)]
pub enum ControlOrder {
    /// The setpoint holds for so much longer: a timer of the device's own, set to this, may take the fallback.
    Holds { left: u64 },
    /// The control has to have its fallback.
    FallBack,
}

/// A device holds while its parent answers and heartbeats come. What is heard by either rule ends no later than by the answers alone.
#[derive(Clone, Copy, Debug, PartialEq, Eq)]
pub struct Silence {
    pub hold: Hold,
    pub beats: Listener,
}

impl Silence {
    /// Takes an answer to a word.
    pub fn take(&mut self, answer: Word)
        ensures hold { self.new.hold ≡ hold_told self.old.hold answer }
        ensures beats { self.new.beats ≡ self.old.beats }
    {
        self.hold.take(answer);
    }

    /// Takes a heartbeat, and says whether it is new.
    pub fn hear(&mut self, beat: Beat, now: u64) -> bool
        ensures beats { self.new.beats ≡ heard_beat self.old.beats beat now }
        ensures hold { self.new.hold ≡ self.old.hold }
        ensures new { result ≡ is_new self.old.beats.newest beat }
    {
        self.beats.hear(beat, now)
    }

    /// What the control is told when its clock shows this.
    pub fn tick(&self, validity: u64, now: u64) -> ControlOrder
        ensures { result ≡ told_at self.now validity now }
    {
        if self.hold.holds(validity, now) && !self.beats.is_silent(validity, now) {
            let by_beats = validity.saturating_sub(now.saturating_sub(self.beats.heard()));
            let by_answers = validity.saturating_sub(self.hold.used(now));
            ControlOrder::Holds {
                left: if by_beats < by_answers {
                    by_beats
                } else {
                    by_answers
                },
            }
        } else {
            ControlOrder::FallBack
        }
    }
}
