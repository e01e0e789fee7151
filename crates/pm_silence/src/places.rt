//! What a parent has of all of its children.

ghost use Rattle.std.specs.Prelude.{◌≡◌, ◌<◌, ◌≤◌, ℕ, length, slice_set, slice_index_or};
ghost use Rattle.std.specs.Prelude.{IfOk, OnOk, OnErr};
ghost use Rattle.pm_silence.specs.Placing.{empty, is_news, heard_word, heard_leave, place_looked_at};
ghost use Rattle.pm_silence.specs.ChildPlaces.{due_from};

use crate::placing::ChildPlace;
use crate::words::Word;
use std::alloc::{AllocError, Global};

/// The places of a parent's children, by their numbers from 0.
#[derive(Drop)]
pub struct ChildPlaces {
    places: Vec<ChildPlace>,
}

impl ChildPlaces {
    /// The places of these children.
    pub fn new(places: Vec<ChildPlace>) -> ChildPlaces
        ensures { result.places.items ≡ places.items }
    {
        ChildPlaces { places }
    }

    /// Takes that a child said a word, and says whether it is news, which is answered.
    pub fn hear(&mut self, child: usize, word: Word, now: u64) -> bool
        requires { child < length self.old.places.items }
        ensures places { self.new.places.items ≡ slice_set self.old.places.items child
            (heard_word (slice_index_or self.old.places.items child (empty 0)) word now) }
        ensures answered { result ≡
            is_news (slice_index_or self.old.places.items child (empty 0)) word }
    {
        let mut place = self.places[child];
        let is_news = place.hear(word, now);
        self.places[child] = place;
        is_news
    }

    /// Takes that a child has left under a number.
    pub fn hear_leave(&mut self, child: usize, number: u64)
        requires { child < length self.old.places.items }
        ensures { self.new.places.items ≡ slice_set self.old.places.items child
            (heard_leave (slice_index_or self.old.places.items child (empty 0)) number) }
    {
        let mut place = self.places[child];
        place.hear_leave(number);
        self.places[child] = place;
    }

    /// Which children are due to be let go, in their order: they count, and no news of them was heard for `grace`.
    pub fn due(&self, alloc: Global, grace: u64, now: u64) -> Result<Vec<usize>, AllocError>
        ensures { IfOk result (λ due. due.items ≡ due_from self.now.places.items grace now 0) }
    {
        let mut due = Vec::new(alloc);
        for child in 0..self.places.len() {
            if self.places[child].is_overdue(grace, now) {
                due.push(child)?;
            }
        }
        Ok(due)
    }

    /// Lets all go that are due, and says which: no other one changes. If there is no memory to say it, nobody is let go.
    pub fn tick(&mut self, alloc: Global, grace: u64, now: u64) -> Result<Vec<usize>, AllocError>
        ensures due { IfOk result (λ due. due.items ≡ due_from self.old.places.items grace now 0) }
        ensures places { OnOk result ((child : ℕ) →
            slice_index_or self.new.places.items child (empty 0)
            ≡ place_looked_at (slice_index_or self.old.places.items child (empty 0)) grace now) }
        ensures many { length self.new.places.items ≡ length self.old.places.items }
        ensures err { OnErr result (self.new.places.items ≡ self.old.places.items) }
    {
        let due = self.due(alloc, grace, now)?;
        for child in 0..self.places.len() {
            let mut place = self.places[child];
            place.look(grace, now);
            self.places[child] = place;
        }
        Ok(due)
    }
}
