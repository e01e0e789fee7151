//! The total of a cluster, asked for targets: the step and the total of each answer.

ghost use Rattle.std.specs.Prelude.{◌≡◌, ℕ, ◌+◌, ◌^◌, ◌<◌, ◌≤◌, ◌↔◌, ℤ, List, length, All, IfOk, IfErr, OnOk};
ghost use Rattle.std.specs.List.{AllPairs, Any};
ghost use Rattle.pm_base.specs.Limits.{IsWithin, demand_limit};
ghost use Rattle.pm_bid.specs.Bids.{NeverRises};
ghost use Rattle.pm_ask.specs.Asked.{asked_step, asked_total};
ghost use Rattle.pm_ask.specs.Breaks.{HasTargets, HasEnds, LiesIn, IsBreakOf, IsTargetOf, AreBreaks};
ghost use Rattle.pm_ask.specs.Curves.{breaks_of};
ghost use Rattle.pm_ask.specs.Causes.{IsFaultOf};
ghost use Rattle.pm_ask.specs.declared.breaks.Break.{Break};

use crate::breaks::{Break, find_breaks};
use crate::fault::CurveFault;
use crate::rise::find_rise;
use crate::search::find_step;
use pm_bid::{ArrayBid, Steps, uncounted};
use std::alloc::Global;
use std::marker::Model;
use std::sync::ledger::Ledger;

/// What becomes of a target.
#[derive(Clone, Copy, Debug, PartialEq, Eq)]
pub struct Answer {
    /// The step at which the market clears once the target is taken off the total.
    pub step: u32,
    /// The total at that step with the target taken off, in watts.
    pub total: i64,
}

/// The total of a cluster, asked for targets. It owns its copy of the total.
///
/// Contracts see it as the total, which never rises.
#[derive(Drop)]
pub struct Curve {
    total: ArrayBid,
    breaks: Vec<Break>,
}

impl Model for Curve {
    ghost use Rattle.std.specs.Prelude.{List, ℤ};
    ghost use Rattle.pm_ask.specs.Curves.{IsCurve};

    ghost Value = { List ℤ };

    ghost view = { λ c. c.total };

    ghost invariant = { λ c. IsCurve c.total c.breaks.items };
}

impl Curve {
    /// The curve of a total that never rises. A total that rises is refused at the first step that is above the one
    /// before. An allocation failure may be answered at any total.
    pub fn new(alloc: Global, total: &ArrayBid) -> Result<Curve, CurveFault>
        ensures total { IfOk result (λ curve. curve ≡ total.now) }
        ensures falls { OnOk result (NeverRises total.now) }
        ensures rising { IfErr result (IsFaultOf total.now) }
    {
        let at = find_rise(total);
        if at < total.steps() {
            return Err(CurveFault::Rising { at });
        }
        let breaks = find_breaks(alloc, total)?;
        let mut counter = uncounted();
        let mut copy = ArrayBid::zero(alloc, total.steps(), &mut counter)?;
        total.copy_into(&mut copy, &mut counter);
        Ok(Curve {
            total: copy,
            breaks,
        })
    }

    /// The steps that have targets, by rising steps, each with the least and the greatest of its targets.
    pub fn breaks(&self) -> &[Break]
        ensures list { result.now ≡ breaks_of self.now }
        ensures inside { All (λ break. break.step < length self.now) result.now }
        // The steps are exactly those that have targets among all whole numbers.
        ensures steps { (step : ℕ) → HasTargets self.now step
            ↔ Any (λ break. break.step ≡ step) result.now }
        ensures rise { AllPairs (λ earlier later. earlier.step < later.step) result.now }
        ensures ends { All (HasEnds self.now) result.now }
        // Each target lies in the break of its step, and in no other.
        ensures each { (target : ℤ) → Any (IsBreakOf self.now target) result.now }
        ensures only { All (λ break. (target : ℤ) → LiesIn target break →
            IsTargetOf self.now break.step target) result.now }
    {
        &self.breaks
    }

    /// What becomes of a target, in watts. It is taken off the total at every step. The answer is the step at which
    /// the market then clears, and the rest there.
    ///
    /// The counter rises by at most n + 1, where n is the least number with 2^n at least the number of steps.
    pub fn answer<L: Ledger>(&self, target: i64, counter: &mut Steps<L>) -> Answer
        requires { IsWithin demand_limit target }
        ensures step { result.step ≡ asked_step target self.now }
        ensures total { result.total ≡ asked_total target self.now }
        ensures inside { result.step < length self.now }
        ensures cost { (n : ℕ) → length self.now ≤ 2 ^ n → counter.new ≤ counter.old + n + 1 }
        ensures least { (n : ℕ) → 2 ^ n ≤ length self.now → counter.old + n + 1 ≤ counter.new }
        ensures rises { counter.old ≤ counter.new }
    {
        let step = find_step(&self.total, target, counter);
        Answer {
            step: step as u32,
            total: self.total.at(step, counter) - target,
        }
    }
}

/// A law: a total has one list of breaks at most, so that the clauses of [`Curve::breaks`] tell which list it is.
pub fn breaks_are_unique()
    ensures { (total : List ℤ) (breaks others : List Break) → AreBreaks total breaks →
        AreBreaks total others → breaks ≡ others }
{}
