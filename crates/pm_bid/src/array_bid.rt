//! A bid with one demand for each step, and its sums, limits and clearing step.

ghost use Rattle.std.specs.Prelude.{◌≡◌, ◌↔◌, IsTrue, ◌+◌, ◌*◌, ◌<◌, ◌≤◌, ◌≤ℤ◌, length, slice_set, pos, IfOk, vec_len};
ghost use Rattle.pm_bid.specs.Bids.{demand_at, pairwise_sum, pairwise_difference, zeros, clamp, AllWithinLimit, NeverRises};
ghost use Rattle.pm_base.specs.Limits.{AreSteps, most_steps, IsWithin, sum_limit, demand_limit};
ghost use Rattle.pm_bid.specs.Checks.{checked_bid};
ghost use Rattle.pm_bid.specs.Limited.{step_within, NeverBind};
ghost use Rattle.pm_bid.specs.Taken.{settled_in, announced_in, HasStepWithin};
ghost use Rattle.pm_bid.specs.Clearing.{clearing_step, first_at_most, last_at_least, Clears, IsFirstAtMost, IsLastAtLeast};

use crate::fault::BidFault;
use crate::pointwise::{
    add_each, announce_each, clamp_each, exchange_each, set_each_zero, take_each,
};
use crate::search::{
    are_all_within, find_at_least, find_at_most, find_rising, find_too_large, is_some_within,
};
use crate::steps::Steps;
use pm_base::Limits;
use std::alloc::{AllocError, Global};
use std::marker::Model;
use std::sync::ledger::Ledger;

/// A bid, or a sum of up to 256 bids: a list of 2 to 1000 whole numbers in watts. There is one
/// for each step of a market basis, each within ±256,000,000,000.
///
/// Contracts see it as the list. The last parameter of each call that touches elements is the
/// counter of touched elements.
#[derive(Drop)]
pub struct ArrayBid {
    demands: Vec<i64>,
}

impl Model for ArrayBid {
    ghost use Rattle.std.specs.Prelude.{List, ℤ};
    ghost use Rattle.pm_bid.specs.Bids.{IsArrayBid};

    ghost Value = { List ℤ };

    ghost view = { λ b. b.demands.items };

    ghost invariant = { λ b. IsArrayBid b.demands.items };
}

impl ArrayBid {
    /// The bid of these demands. They are as many as the steps, no demand is above the one before,
    /// and each lies within ±1,000,000,000 watts. Otherwise the answer is the first fault, in the
    /// order of [`BidFault`]. The counter rises by the length of the list in each case.
    pub fn new<L: Ledger>(
        demands: Vec<i64>,
        steps: usize,
        counter: &mut Steps<L>,
    ) -> Result<ArrayBid, BidFault>
        requires steps { AreSteps steps }
        ensures bid { result ≡ checked_bid steps demands.items }
        ensures length { IfOk result (λ bid. length bid ≡ steps) }
        ensures falls { IfOk result (λ bid. NeverRises bid) }
        ensures small { IfOk result (λ bid. AllWithinLimit demand_limit bid) }
        ensures cost { counter.new ≡ counter.old + vec_len demands }
    {
        counter.count(demands.len());
        if demands.len() != steps {
            return Err(BidFault::WrongLength {
                have: demands.len(),
            });
        }
        let at = find_rising(&demands);
        if at < demands.len() {
            return Err(BidFault::Rising { at });
        }
        let at = find_too_large(&demands);
        if at < demands.len() {
            return Err(BidFault::TooLarge { at });
        }
        Ok(ArrayBid { demands })
    }

    /// No power at any step.
    pub fn zero<L: Ledger>(
        alloc: Global,
        steps: usize,
        counter: &mut Steps<L>,
    ) -> Result<ArrayBid, AllocError>
        requires steps { AreSteps steps }
        ensures bid { IfOk result (λ bid. bid ≡ zeros steps) }
        ensures cost { counter.new ≡ counter.old + steps }
    {
        counter.count(steps);
        let demands = vec![in alloc; 0; steps]?;
        Ok(ArrayBid { demands })
    }

    /// How many steps the bid has. No element is touched.
    pub fn steps(&self) -> usize
        ensures steps { result ≡ length self.now }
        ensures within { AreSteps result }
    {
        self.demands.len()
    }

    /// The demand at a step, in watts.
    pub fn at<L: Ledger>(&self, k: usize, counter: &mut Steps<L>) -> i64
        requires { k < length self.now }
        ensures demand { result ≡ demand_at self.now k }
        ensures within { IsWithin sum_limit result }
        ensures steps { AreSteps (length self.now) }
        ensures cost { counter.new ≡ counter.old + 1 }
    {
        counter.tick();
        self.demands[k]
    }

    /// Sets the demand at a step, in watts.
    pub fn set<L: Ledger>(&mut self, k: usize, demand: i64, counter: &mut Steps<L>)
        requires step { k < length self.old }
        requires within { IsWithin sum_limit demand }
        ensures bid { self.new ≡ slice_set self.old k demand }
        ensures cost { counter.new ≡ counter.old + 1 }
    {
        counter.tick();
        self.demands[k] = demand;
    }

    /// Makes every demand 0.
    pub fn set_zero<L: Ledger>(&mut self, counter: &mut Steps<L>)
        ensures bid { self.new ≡ zeros (length self.old) }
        ensures cost { counter.new ≡ counter.old + length self.old }
    {
        set_each_zero(&mut self.demands, counter);
    }

    /// Adds the other bid at every step. The bids have equal lengths, and each sum stays within
    /// ±256,000,000,000 watts.
    pub fn add_into<L: Ledger>(&mut self, other: &ArrayBid, counter: &mut Steps<L>)
        requires equal_lengths { length self.old ≡ length other.now }
        requires within { AllWithinLimit sum_limit (pairwise_sum self.old other.now) }
        ensures sum { self.new ≡ pairwise_sum self.old other.now }
        ensures cost { counter.new ≡ counter.old + length self.old }
    {
        add_each(&mut self.demands, &other.demands, counter);
    }

    /// Takes the other bid off at every step, under the conditions of [`ArrayBid::add_into`].
    pub fn take_from<L: Ledger>(&mut self, other: &ArrayBid, counter: &mut Steps<L>)
        requires equal_lengths { length self.old ≡ length other.now }
        requires within { AllWithinLimit sum_limit (pairwise_difference self.old other.now) }
        ensures rest { self.new ≡ pairwise_difference self.old other.now }
        ensures cost { counter.new ≡ counter.old + length self.old }
    {
        take_each(&mut self.demands, &other.demands, counter);
    }

    /// Takes the old bid off and adds the new one at every step, in one pass: a running sum
    /// follows a child's newer bid. Only the outcome has to stay within ±256,000,000,000 watts.
    pub fn exchange<L: Ledger>(&mut self, old: &ArrayBid, new: &ArrayBid, counter: &mut Steps<L>)
        requires old_length { length self.old ≡ length old.now }
        requires new_length { length self.old ≡ length new.now }
        requires within { AllWithinLimit sum_limit
            (pairwise_sum (pairwise_difference self.old old.now) new.now) }
        ensures exchanged { self.new ≡ pairwise_sum (pairwise_difference self.old old.now) new.now }
        ensures cost { counter.new ≡ counter.old + 2 * length self.old }
    {
        exchange_each(&mut self.demands, &old.demands, &new.demands, counter);
    }

    /// The step at which a market with this total demand clears: the first step whose demand is
    /// not positive. If all are positive, it is the last step. To balance the total demand is
    /// Kok's rule; to take the first such step of a list is this project's profile.
    pub fn first_not_positive<L: Ledger>(&self, counter: &mut Steps<L>) -> usize
        ensures step { result ≡ clearing_step self.now }
        ensures clears { Clears self.now result }
        ensures small { result < most_steps }
        ensures cost { counter.new ≤ counter.old + length self.now }
        ensures rises { counter.old ≤ counter.new }
        ensures looks { counter.new ≡ counter.old + (result + 1) }
    {
        self.first_at_most(0, counter)
    }

    /// The first step whose demand is at most the limit, or the last step if no demand is.
    #[tactic(auto, using(crate::proofs::FoundStep::first_at_most_is_first))]
    pub fn first_at_most<L: Ledger>(&self, limit: i64, counter: &mut Steps<L>) -> usize
        ensures step { result ≡ first_at_most limit self.now }
        ensures first { IsFirstAtMost limit self.now result }
        ensures inside { result < length self.now }
        ensures small { result < most_steps }
        ensures cost { counter.new ≤ counter.old + length self.now }
        ensures rises { counter.old ≤ counter.new }
        ensures looks { counter.new ≡ counter.old + (result + 1) }
    {
        find_at_most(&self.demands, limit, counter)
    }

    /// The last step whose demand is at least the limit, or step 0 if no demand is.
    #[tactic(auto, using(crate::proofs::FoundStep::last_at_least_is_last))]
    pub fn last_at_least<L: Ledger>(&self, limit: i64, counter: &mut Steps<L>) -> usize
        ensures step { result ≡ last_at_least limit self.now }
        ensures last { IsLastAtLeast limit self.now result }
        ensures inside { result < length self.now }
        ensures small { result < most_steps }
        ensures cost { counter.new ≤ counter.old + length self.now }
        ensures rises { counter.old ≤ counter.new }
        ensures looks { counter.new + result ≡ counter.old + length self.now }
    {
        find_at_least(&self.demands, limit, counter)
    }

    /// The local step of the nodes below a limited concentrator. This bid is the sum of theirs, and the market clears at
    /// `step`. If the sum there lies within the limits, the answer is that step. If the sum is above the ceiling, it is the
    /// first step at which the sum is at most the ceiling. If the sum is below the floor, it is the last step at which the
    /// sum is at least the floor. Bounding a part's power in this way is this project's own profile.
    pub fn step_within<L: Ledger>(
        &self,
        limits: &Limits,
        step: usize,
        counter: &mut Steps<L>,
    ) -> usize
        requires { step < length self.now }
        ensures step { result ≡ step_within limits.now step self.now }
        ensures inside { result < length self.now }
        ensures small { result < most_steps }
        ensures cost { counter.new ≤ counter.old + length self.now + 1 }
        ensures rises { counter.old ≤ counter.new }
        ensures looks { counter.old < counter.new }
    {
        let demand = self.at(step, counter);
        if demand > limits.ceiling {
            self.first_at_most(limits.ceiling, counter)
        } else if demand < limits.floor {
            self.last_at_least(limits.floor, counter)
        } else {
            step
        }
    }

    /// Makes the target, which has as many steps, this bid.
    pub fn copy_into<L: Ledger>(&self, target: &mut ArrayBid, counter: &mut Steps<L>)
        requires { length self.now ≡ length target.old }
        ensures bid { target.new ≡ self.now }
        ensures cost { counter.new ≡ counter.old + length self.now }
    {
        counter.count(self.demands.len());
        target.demands.copy_from_slice(&self.demands);
    }

    /// Makes the target, which has as many steps, what a part of the cluster with limited power
    /// announces. This is the bid with each demand moved to the nearest number between floor and
    /// ceiling, in watts.
    pub fn clamp_into<L: Ledger>(
        &self,
        floor: i64,
        ceiling: i64,
        target: &mut ArrayBid,
        counter: &mut Steps<L>,
    )
        requires equal_lengths { length self.now ≡ length target.old }
        requires floor_not_positive { floor ≤ℤ pos 0 }
        requires ceiling_not_negative { pos 0 ≤ℤ ceiling }
        requires floor_within { IsWithin sum_limit floor }
        requires ceiling_within { IsWithin sum_limit ceiling }
        ensures bid { target.new ≡ clamp floor ceiling self.now }
        ensures cost { counter.new ≡ counter.old + length self.now }
    {
        clamp_each(&self.demands, floor, ceiling, &mut target.demands, counter);
    }

    /// The step that a relay of the market across machines passes down. This bid is the sum of its children's, and the market
    /// above clears at `step`. The least step that it may pass is [`ArrayBid::first_at_most`] the ceiling, the greatest
    /// [`ArrayBid::last_at_least`] the floor. The answer is the step from the least to the greatest that is nearest to `step`.
    /// If the greatest is below the least, it is the least. To settle for a step in this way is this project's own profile.
    pub fn settled_step<L: Ledger>(
        &self,
        limits: &Limits,
        step: usize,
        counter: &mut Steps<L>,
    ) -> usize
        ensures step { result ≡ settled_in limits.now step self.now }
        ensures inside { result < length self.now }
        ensures small { result < most_steps }
        ensures cost { counter.new ≤ counter.old + 2 * length self.now }
        ensures rises { counter.old ≤ counter.new }
    {
        let Limits { floor, ceiling } = *limits;
        let first = self.first_at_most(ceiling, counter);
        let last = self.last_at_least(floor, counter);
        first.max(step.min(last))
    }

    /// Makes the target, which has as many steps, what a relay with these limits announces of this sum. At each step it is the
    /// sum at the step for which the relay settles there, moved to the nearest demand that a bid may have.
    pub fn announce_into<L: Ledger>(
        &self,
        limits: &Limits,
        target: &mut ArrayBid,
        counter: &mut Steps<L>,
    )
        requires equal_lengths { length self.now ≡ length target.old }
        ensures bid { target.new ≡ announced_in limits.now self.now }
        ensures cost { counter.new ≤ counter.old + 3 * length self.now }
        ensures rises { counter.old ≤ counter.new }
    {
        let Limits { floor, ceiling } = *limits;
        let first = self.first_at_most(ceiling, counter);
        let last = self.last_at_least(floor, counter);
        announce_each(&self.demands, first, last, &mut target.demands, counter);
    }

    /// Whether some step of this sum is within the limits. If none is, no step for which a relay may settle keeps them.
    pub fn has_step_within<L: Ledger>(&self, limits: &Limits, counter: &mut Steps<L>) -> bool
        ensures within { IsTrue result ↔ HasStepWithin limits.now self.now }
        ensures cost { counter.new ≤ counter.old + length self.now }
        ensures rises { counter.old ≤ counter.new }
    {
        is_some_within(&self.demands, limits, counter)
    }

    /// Whether every step of this bid is within the limits, as a parent bounds what a child may bid.
    pub fn stays_within<L: Ledger>(&self, limits: &Limits, counter: &mut Steps<L>) -> bool
        ensures within { IsTrue result ↔ NeverBind limits.now self.now }
        ensures cost { counter.new ≤ counter.old + length self.now }
        ensures rises { counter.old ≤ counter.new }
    {
        are_all_within(&self.demands, limits, counter)
    }
}
