//! The list of a run's moves, each with what a device then holds, within memory reserved before.

ghost use Rattle.std.specs.Prelude.{◌≡◌, ◌+◌, ◌-◌, ◌<◌, ◌≤◌, ◌++◌, ◌∷◌, ◌↔◌, [], length, OnOk, OnErr, IsOk, IsNone};
ghost use Rattle.std.specs.Prelude.{IsTrue, slice_get};

use crate::moves::Move;
use std::alloc::{AllocError, Global};
use std::marker::Model;

/// A move and, after a pass to a device, the step and the number that the device then holds; None elsewhere.
#[derive(Clone, Copy, Debug, PartialEq, Eq)]
pub struct Line {
    pub what: Move,
    pub held: Option<(u32, u32)>,
}

// A journal of the greatest bound, 5,421,000 moves, takes about 130 MB.
const _: () = prove!(size_of::<Line>() <= 24);

/// The lines of a run in their order, and how many more can join them without taking memory.
#[derive(Drop)]
pub struct Journal {
    lines: Vec<Line>,
    spare: usize,
}

impl Model for Journal {
    ghost use Rattle.std.specs.Prelude.{◌+◌, ◌≤◌, vec_len};
    ghost use Rattle.std.specs.Vec.{vec_capacity};
    ghost use Rattle.pm_market.specs.Journal.{JournalData};

    ghost Value = { JournalData };

    ghost view = { λ j. record { lines = j.lines.items; spare = j.spare } };

    ghost invariant = { λ j. vec_len j.lines + j.spare ≤ vec_capacity j.lines };
}

impl Journal {
    /// An empty journal. It takes no memory.
    pub fn new(alloc: Global) -> Journal
        ensures lines { result.lines ≡ [] }
        ensures spare { result.spare ≡ 0 }
    {
        Journal {
            lines: Vec::new(alloc),
            spare: 0,
        }
    }

    /// Takes the memory of so many more lines. On an error all is as before.
    pub fn reserve(&mut self, lines: usize) -> Result<(), AllocError>
        ensures spare { OnOk result (lines ≤ self.new.spare) }
        ensures lines { self.new.lines ≡ self.old.lines }
        ensures err { OnErr result (self.new ≡ self.old) }
    {
        self.lines.reserve(lines)?;
        self.spare = self.lines.capacity() - self.lines.len();
        Ok(())
    }

    /// Adds a line at the end. If there is spare room, it takes no memory and always succeeds.
    pub fn push(&mut self, line: Line) -> Result<(), AllocError>
        ensures within { 1 ≤ self.old.spare → IsOk result }
        ensures lines { OnOk result (self.new.lines ≡ self.old.lines ++ line ∷ []) }
        ensures spare { self.new.spare ≡ self.old.spare - 1 }
        ensures err { OnErr result (self.new ≡ self.old) }
    {
        self.lines.push(line)?;
        self.spare = self.spare.saturating_sub(1);
        Ok(())
    }

    /// How many lines there are.
    pub fn len(&self) -> usize
        ensures { result ≡ length self.now.lines }
    {
        self.lines.len()
    }

    /// Whether there is no line.
    pub fn is_empty(&self) -> bool
        ensures { IsTrue result ↔ (self.now.lines ≡ []) }
    {
        self.lines.is_empty()
    }

    /// The line at a place, counted from 0; None exactly if there is no such place.
    pub fn get(&self, at: usize) -> Option<Line>
        ensures line { result ≡ slice_get self.now.lines at }
        ensures none { IsNone result ↔ (length self.now.lines ≤ at) }
    {
        self.lines.get(at).copied()
    }
}
