//! Which child may be told its next band of powers now.

ghost use Rattle.std.specs.Prelude.{◌≡◌, ◌<◌, ◌≤◌, ◌+◌, ℕ, ℤ, true, false, List, [], ◌∷◌, ◌++◌};
ghost use Rattle.std.specs.Prelude.{length, IfOk, OnOk, OnErr, Some, None};
ghost use Rattle.pm_base.specs.Limits.{IsWithin, demand_limit, sum_limit, most_nodes};
ghost use Rattle.pm_bid.specs.Bids.{AllWithinLimit, demand_at};
ghost use Rattle.pm_guard.specs.Bands.{IsBidBand, has_room, goes_over, goes_under};
ghost use Rattle.pm_guard.specs.Guards.{may_tell, told_in, with_bands, bands_of, promised_in};
ghost use Rattle.pm_guard.specs.Guards.{under_limits, worst, best, is_inside, may_choose};

use crate::band::Band;
use crate::child::Child;
use pm_base::{Limits, MOST_NODES};
use std::alloc::{AllocError, Global};
use std::marker::Model;

/// The limits of a node, and by what each of its children may be taking power now.
///
/// Contracts see the limits, and of each child the bands that were told to it and that count, oldest first. Beside them the guard
/// keeps what all children may be taking at most and at least, in watts: so whether a child may be told a band takes the same few
/// steps for any number of children, and to choose one of them as many as there are.
pub struct Guard {
    limits: Limits,
    children: Vec<Child>,
    worst: i64,
    best: i64,
}

impl Model for Guard {
    ghost use Rattle.pm_guard.specs.Guards.{GuardData, HasSums};

    ghost Value = { GuardData };

    ghost view = { λ g. record { limits = g.limits; held = g.children.items } };

    ghost invariant = { λ g. HasSums g.children.items g.worst g.best };
}

impl Drop for Guard {
    fn drop(self) {
        let Guard {
            limits: _,
            children: _,
            worst: _,
            best: _,
        } = self;
    }
}

impl Guard {
    /// A guard of no children.
    pub fn new(alloc: Global, limits: Limits) -> Guard
        ensures limits { result.limits ≡ limits }
        ensures none { result.held ≡ [] }
    {
        Guard {
            limits,
            children: Vec::new(alloc),
            worst: 0,
            best: 0,
        }
    }

    /// How many children there are.
    pub fn len(&self) -> usize
        ensures { result ≡ length self.now.held }
    {
        self.children.len()
    }

    /// One more child, which goes by this band; false if there are 256 already.
    pub fn add(&mut self, alloc: Global, first: Band) -> Result<bool, AllocError>
        requires small { IsBidBand first }
        ensures limits { self.new.limits ≡ self.old.limits }
        ensures added { IfOk result (λ yes. yes ≡ true →
            self.new.held ≡ self.old.held ++ (first ∷ []) ∷ []) }
        ensures full { IfOk result (λ yes. yes ≡ false → (self.new ≡ self.old)) }
        ensures room { length self.old.held < most_nodes → IfOk result (λ yes. yes ≡ true) }
        ensures few { most_nodes ≤ length self.old.held → IfOk result (λ yes. yes ≡ false) }
        ensures err { OnErr result (self.new ≡ self.old) }
    {
        if self.children.len() >= MOST_NODES {
            return Ok(false);
        }
        let worst = self.worst();
        let best = self.best();
        let child = Child::new(alloc, first)?;
        let most = child.most();
        let least = child.least();
        self.children.push(child)?;
        self.worst = worst + most;
        self.best = best + least;
        Ok(true)
    }

    /// The most that all children together may be taking now, in watts.
    pub fn worst(&self) -> i64
        ensures worst { result ≡ worst self.now }
        ensures small { IsWithin sum_limit result }
    {
        self.worst
    }

    /// The least that all children together may be taking now, in watts.
    pub fn best(&self) -> i64
        ensures best { result ≡ best self.now }
        ensures small { IsWithin sum_limit result }
    {
        self.best
    }

    /// Whether all that the children may be taking now is within the limits.
    pub fn is_inside(&self) -> bool
        ensures { result ≡ is_inside self.now }
    {
        !(self.limits.ceiling < self.worst()) && !(self.best() < self.limits.floor)
    }

    /// Whether the child may be told the band from `low` to `high`, in watts, now: neither what all may take at most grows above the
    /// ceiling, nor what they may take at least falls below the floor.
    pub fn may_tell(&self, child: usize, low: i64, high: i64) -> bool
        requires low { IsWithin demand_limit low }
        requires high { IsWithin demand_limit high }
        ensures { result ≡ may_tell self.now child low high }
    {
        match self.children.get(child) {
            Some(held) => room_for(
                self.limits,
                self.worst(),
                self.best(),
                held.most(),
                held.least(),
                low,
                high,
            ),
            None => false,
        }
    }

    /// Tells the child this band if it may be told it now, and answers whether it is told.
    pub fn tell(&mut self, child: usize, band: Band) -> Result<bool, AllocError>
        requires small { IsBidBand band }
        ensures told { OnOk result (self.new ≡ told_in self.old child band) }
        ensures answer { IfOk result (λ yes. yes ≡ may_tell self.old child band.low band.high) }
        ensures err { OnErr result (self.new ≡ self.old) }
    {
        if !self.may_tell(child, band.low, band.high) {
            return Ok(false);
        }
        self.put(child, band)?;
        Ok(true)
    }

    /// Tells the child this, whatever the limits are.
    fn put(&mut self, child: usize, band: Band) -> Result<(), AllocError>
        requires small { IsBidBand band }
        ensures told { OnOk result (self.new ≡
            with_bands self.old child (bands_of self.old child ++ band ∷ [])) }
        ensures err { OnErr result (self.new ≡ self.old) }
    {
        let worst = self.worst();
        let best = self.best();
        if let Some(held) = self.children.get_mut(child) {
            let most = held.most();
            let least = held.least();
            held.tell(band)?;
            self.worst = worst - most + held.most();
            self.best = best - least + held.least();
        }
        Ok(())
    }

    /// The child promises that it takes nothing below this index any more.
    pub fn take_promise(&mut self, child: usize, index: u64)
        ensures { self.new ≡ promised_in self.old child index }
    {
        let worst = self.worst();
        let best = self.best();
        if let Some(held) = self.children.get_mut(child) {
            let most = held.most();
            let least = held.least();
            held.take_promise(index);
            self.worst = worst - most + held.most();
            self.best = best - least + held.least();
        }
    }

    /// Other limits, in watts.
    pub fn set_limits(&mut self, limits: Limits)
        ensures { self.new ≡ under_limits self.old limits }
    {
        self.limits = limits;
    }

    /// The first child that was told anything but its target last, and may be told the target now. The targets are one power in watts
    /// for each child. None if there is no such child.
    pub fn choose(&self, targets: &[i64]) -> Option<usize>
        requires few { length targets.now ≡ length self.now.held }
        requires small { AllWithinLimit demand_limit targets.now }
        ensures some { (child : ℕ) → result ≡ Some child →
            may_choose self.now targets.now child ≡ true }
        ensures inside { (child : ℕ) → result ≡ Some child → child < length self.now.held }
        ensures first { (child before : ℕ) → result ≡ Some child → before < child →
            may_choose self.now targets.now before ≡ false }
        ensures none { result ≡ None → (child : ℕ) → child < length self.now.held →
            may_choose self.now targets.now child ≡ false }
    {
        for child in 0..targets.len() {
            if self.may_choose(child, targets[child]) {
                return Some(child);
            }
        }
        None
    }

    /// Whether the child was told anything but this power last, and may be told it now.
    fn may_choose(&self, child: usize, target: i64) -> bool
        requires small { IsWithin demand_limit target }
        ensures { (targets : List ℤ) → demand_at targets child ≡ target →
            result ≡ may_choose self.now targets child }
    {
        let Some(held) = self.children.get(child) else {
            return false;
        };
        held.wants_other(target) && self.may_tell(child, target, target)
    }
}

/// Whether there is room for the band from `low` to `high` of a child that may be taking `most` at most and `least` at least.
fn room_for(
    limits: Limits,
    worst: i64,
    best: i64,
    most: i64,
    least: i64,
    low: i64,
    high: i64,
) -> bool
    requires worst { IsWithin sum_limit worst }
    requires best { IsWithin sum_limit best }
    requires most { IsWithin demand_limit most }
    requires least { IsWithin demand_limit least }
    requires low { IsWithin demand_limit low }
    requires high { IsWithin demand_limit high }
    ensures { result ≡ has_room limits worst best most least low high }
{
    !goes_over(limits.ceiling, worst, most, high) && !goes_under(limits.floor, best, least, low)
}

/// Whether a power adds to the most, and that is above the ceiling then.
fn goes_over(ceiling: i64, worst: i64, most: i64, power: i64) -> bool
    requires worst { IsWithin sum_limit worst }
    requires most { IsWithin demand_limit most }
    requires power { IsWithin demand_limit power }
    ensures { result ≡ goes_over ceiling worst most power }
{
    most < power && ceiling < worst + (power - most)
}

/// Whether a power takes from the least, and that is below the floor then.
fn goes_under(floor: i64, best: i64, least: i64, power: i64) -> bool
    requires best { IsWithin sum_limit best }
    requires least { IsWithin demand_limit least }
    requires power { IsWithin demand_limit power }
    ensures { result ≡ goes_under floor best least power }
{
    power < least && best + (power - least) < floor
}
