//! What a parent has of one child.

ghost use Rattle.std.specs.Prelude.{◌≡◌, ◌+◌, ◌<◌};
ghost use Rattle.pm_silence.specs.Placing.{empty, is_news, heard_word, heard_leave, is_overdue, place_looked_at, place_restarted};

use crate::words::Word;

/// The place of a child at its parent. All of it but `heard` is stored before a word is answered.
///
/// - counts: whether the child's bid counts
/// - number: the newest number that was heard of it
/// - said: what its clock showed at the newest word of that number
/// - heard: what the parent's clock showed when it heard that
#[derive(Clone, Copy, Debug, PartialEq, Eq)]
pub struct ChildPlace {
    counts: bool,
    number: u64,
    said: u64,
    heard: u64,
}

impl ChildPlace {
    /// A place of which nothing was heard yet.
    pub fn new(now: u64) -> ChildPlace
        ensures { result ≡ empty now }
    {
        ChildPlace {
            counts: false,
            number: 0,
            said: 0,
            heard: now,
        }
    }

    /// Takes a word that had come when the parent's clock showed `now`, and says whether it is news, which is answered. Only news is
    /// a sign of life.
    pub fn hear(&mut self, word: Word, now: u64) -> bool
        ensures place { self.new ≡ heard_word self.old word now }
        ensures answered { result ≡ is_news self.old word }
    {
        let is_news = self.number < word.number
            || (self.counts && self.number == word.number && self.said < word.said);
        if is_news {
            self.counts = true;
            self.number = word.number;
            self.said = word.said;
            if self.heard < now {
                self.heard = now;
            }
        }
        is_news
    }

    /// Takes that the child has left under a number.
    pub fn hear_leave(&mut self, number: u64)
        ensures { self.new ≡ heard_leave self.old number }
    {
        if self.number < number {
            self.counts = false;
            self.number = number;
        }
    }

    /// Lets the child go if it is due, and says whether it was.
    pub fn look(&mut self, grace: u64, now: u64) -> bool
        ensures place { self.new ≡ place_looked_at self.old grace now }
        ensures due { result ≡ is_overdue self.old grace now }
    {
        let is_overdue = self.is_overdue(grace, now);
        if is_overdue {
            self.counts = false;
        }
        is_overdue
    }

    /// Whether the child is due to be let go: it counts, and no news of it was heard for `grace`.
    pub fn is_overdue(&self, grace: u64, now: u64) -> bool
        ensures { result ≡ is_overdue self.now grace now }
    {
        self.counts && self.heard <= now && grace <= now - self.heard
    }

    /// Goes on after a restart with what was stored: who counts is waited for anew.
    pub fn restart(&mut self, now: u64)
        ensures { self.new ≡ place_restarted self.old now }
    {
        self.heard = now;
    }
}
