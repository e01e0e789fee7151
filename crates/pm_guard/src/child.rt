//! The bands of powers that one child may be taking by.

ghost use Rattle.std.specs.Prelude.{◌≡◌, ◌++◌, ◌∷◌, List, [], IfOk, OnOk, OnErr};
ghost use Rattle.std.specs.List.{filter, list_any};
ghost use Rattle.pm_base.specs.Limits.{IsWithin, demand_limit};
ghost use Rattle.pm_guard.specs.Bands.{AreBidBands, IsBidBand, greatest_power, least_power};
ghost use Rattle.pm_guard.specs.Bands.{kept_after, is_from, wants_other};

use crate::band::Band;
use pm_base::DEMAND_LIMIT;
use std::alloc::{AllocError, Global};
use std::marker::Model;

/// The bands that one child may be taking by: the one that it promised to go by, and each that it was told since, oldest first.
///
/// Contracts see them as a list. Beside them are the greatest and the least power of all, in watts.
#[derive(Drop)]
pub struct Child {
    held: Vec<Band>,
    most: i64,
    least: i64,
}

impl Model for Child {
    ghost use Rattle.std.specs.Prelude.{List};
    ghost use Rattle.pm_guard.specs.declared.band.Band.{Band};
    ghost use Rattle.pm_guard.specs.Bands.{HasBandEnds};

    ghost Value = { List Band };

    ghost view = { λ c. c.held.items };

    ghost invariant = { λ c. HasBandEnds c.held.items c.most c.least };
}

impl Child {
    /// A child that goes by this band.
    pub fn new(alloc: Global, first: Band) -> Result<Child, AllocError>
        requires small { IsBidBand first }
        ensures first { IfOk result (λ child. child ≡ first ∷ []) }
        ensures small { IfOk result (λ child. AreBidBands child) }
    {
        let mut held = Vec::new(alloc);
        held.push(first)?;
        Ok(Child {
            held,
            most: first.high,
            least: first.low,
        })
    }

    /// The greatest power that it may be taking, in watts.
    pub fn most(&self) -> i64
        ensures most { result ≡ greatest_power self.now }
        ensures small { IsWithin demand_limit result }
    {
        self.most
    }

    /// The least power that it may be taking, in watts.
    pub fn least(&self) -> i64
        ensures least { result ≡ least_power self.now }
        ensures small { IsWithin demand_limit result }
    {
        self.least
    }

    /// Whether it was told anything but this one power last.
    pub fn wants_other(&self, target: i64) -> bool
        ensures { result ≡ wants_other self.now target }
    {
        newest_is_other(&self.held, target)
    }

    /// It is told one more band.
    pub fn tell(&mut self, band: Band) -> Result<(), AllocError>
        requires small { IsBidBand band }
        ensures told { OnOk result (self.new ≡ self.old ++ band ∷ []) }
        ensures small { AreBidBands self.new }
        ensures err { OnErr result (self.new ≡ self.old) }
    {
        self.held.push(band)?;
        self.most = self.most.max(band.high);
        self.least = self.least.min(band.low);
        Ok(())
    }

    /// It takes nothing below this index any more. If it was told nothing from this index on, nothing changes.
    pub fn take_promise(&mut self, index: u64)
        ensures kept { self.new ≡ kept_after self.old index }
        ensures small { AreBidBands self.new }
    {
        if has_any_from(&self.held, index) {
            keep_from(&mut self.held, index);
            self.most = greatest(&self.held);
            self.least = smallest(&self.held);
        }
    }
}

/// The greatest power, and none is below the least that a bid may have.
fn greatest(held: &[Band]) -> i64
    ensures { result ≡ greatest_power held.now }
{
    let mut most = -DEMAND_LIMIT;
    for band in held {
        most = most.max(band.high);
    }
    most
}

/// The least power, and none is above the greatest that a bid may have.
fn smallest(held: &[Band]) -> i64
    ensures { result ≡ least_power held.now }
{
    let mut least = DEMAND_LIMIT;
    for band in held {
        least = least.min(band.low);
    }
    least
}

/// Whether the last band is anything but this power.
fn newest_is_other(held: &[Band], target: i64) -> bool
    ensures { result ≡ wants_other held.now target }
{
    match held.last() {
        Some(band) => band.low != target || band.high != target,
        None => true,
    }
}

/// Whether some index is not below this one.
fn has_any_from(held: &[Band], index: u64) -> bool
    ensures { result ≡ list_any (is_from index) held.now }
{
    held.iter().any(|band| index <= band.index)
}

/// Lets go of what has a lower index.
fn keep_from(held: &mut Vec<Band>, index: u64)
    ensures { held.new.items ≡ filter (is_from index) held.old.items }
{
    held.retain(|band| index <= band.index);
}
