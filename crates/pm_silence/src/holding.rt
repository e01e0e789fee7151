//! By what a control holds its setpoint.

ghost use Rattle.std.specs.Prelude.{◌≡◌, ◌+◌, ◌^◌, ◌<◌, Option, Some, None};
ghost use Rattle.pm_silence.specs.Holding.{hold_begun, with_next_bid, word_of, hold_told, fallen, hold_left, used_of, holds_at};

use crate::words::Word;

/// What a control knows of its hold.
///
/// - number: that of its newest bid
/// - floor: the number under which it left last, or with which it started: no answer up to it counts
/// - since: what its clock showed when it said the newest word that was answered; `None` once it has taken its fallback
#[derive(Clone, Copy, Debug, PartialEq, Eq)]
pub struct Hold {
    number: u64,
    floor: u64,
    since: Option<u64>,
}

impl Hold {
    /// A control that starts with its stored number. It has its fallback, and nothing that was said before counts.
    pub fn start(number: u64) -> Hold
        ensures { result ≡ hold_begun number }
    {
        Hold {
            number,
            floor: number,
            since: None,
        }
    }

    /// Bids under the next number.
    pub fn bid(&mut self)
        requires { self.old.number + 1 < 2 ^ 64 }
        ensures { self.new ≡ with_next_bid self.old }
    {
        self.number += 1;
    }

    /// What it says now, if it takes part.
    pub fn word(&self, now: u64) -> Option<Word>
        ensures { result ≡ word_of self.now now }
    {
        if self.floor < self.number {
            Some(Word {
                number: self.number,
                said: now,
            })
        } else {
            None
        }
    }

    /// Takes an answer, new or old.
    pub fn take(&mut self, answer: Word)
        ensures { self.new ≡ hold_told self.old answer }
    {
        if self.floor < answer.number {
            let since = match self.since {
                None => answer.said,
                Some(since) => {
                    if since < answer.said {
                        answer.said
                    } else {
                        since
                    }
                }
            };
            self.since = Some(since);
        }
    }

    /// Takes the fallback now, as when it is told silence.
    pub fn fall_back(&mut self)
        ensures { self.new ≡ fallen self.old }
    {
        self.since = None;
    }

    /// Takes the fallback, and then leaves under the next number, which it answers.
    pub fn leave(&mut self) -> u64
        requires { self.old.number + 1 < 2 ^ 64 }
        ensures hold { self.new ≡ hold_left self.old }
        ensures number { result ≡ self.old.number + 1 }
    {
        self.since = None;
        self.number += 1;
        self.floor = self.number;
        self.number
    }

    /// How much of its hold is used up, if it holds at all: a relay, which holds by its own parent's answers, answers as much less.
    pub fn used(&self, now: u64) -> u64
        ensures { result ≡ used_of self.now.since now }
    {
        match self.since {
            None => 0,
            Some(since) => now.saturating_sub(since),
        }
    }

    /// Whether it holds its setpoint now, and has not to take its fallback.
    pub fn holds(&self, validity: u64, now: u64) -> bool
        ensures { result ≡ holds_at self.now validity now }
    {
        match self.since {
            None => false,
            Some(since) => now < since || now - since < validity,
        }
    }
}
