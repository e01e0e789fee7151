//! The step of each node at each clearing so far, by the plain auction over the clearing's cut.

ghost use Rattle.std.specs.Prelude.{◌≡◌, ℕ, ◌+◌, ◌-◌, ◌<◌, ◌≤◌, true, [], length, slice_index_or, IfOk, OnOk};
ghost use Rattle.pm_base.specs.Cuts.{cut_of};
ghost use Rattle.pm_plan.specs.Plans.{is_leaf, phases, end_cut, group};
ghost use Rattle.pm_walk.specs.Auctions.{IsAuction, auction_cut};

use pm_plan::Plan;
use pm_tree::NodeId;
use pm_walk::CutAuction;
use std::alloc::{AllocError, Global};

/// The step of each node at each clearing so far: that of the plain auction over the clearing's cut.
#[derive(Drop)]
pub(crate) struct ClearedSteps {
    alloc: Global,
    /// The auction over the cut that was cleared last.
    auction: CutAuction,
    /// For each clearing the step of each group, at the group's place.
    rows: Vec<Vec<u32>>,
    /// How many phases are closed.
    closed: u32,
}

impl ClearedSteps {
    ghost use Rattle.pm_check.specs.Judges.{AreRows, HasRow, step_rows};

    /// Before the first clearing.
    pub(crate) fn start(alloc: Global, plan: &Plan) -> Result<ClearedSteps, AllocError>
        ensures auction { IfOk result (λ steps. IsAuction plan.now 0 steps.auction) }
        ensures none { IfOk result (λ steps. (x : ℕ) → auction_cut steps.auction x ≡ 0) }
        ensures rows { IfOk result (λ steps. steps.rows.items ≡ []) }
        ensures closed { IfOk result (λ steps. steps.closed ≡ 0) }
    {
        let auction = CutAuction::start(alloc, plan)?;
        Ok(ClearedSteps {
            alloc,
            auction,
            rows: Vec::new(alloc),
            closed: 0,
        })
    }

    /// Keeps the steps of one clearing more, of this cut.
    pub(crate) fn clear(&mut self, plan: &Plan, cut: &[u32]) -> Result<(), AllocError>
        requires open { self.old.closed < phases plan.now }
        requires auction { IsAuction plan.now self.old.closed self.old.auction }
        requires rises { (d : ℕ) → is_leaf plan.now d ≡ true →
            auction_cut self.old.auction d ≤ cut_of cut.now d }
        requires planned { (d : ℕ) → is_leaf plan.now d ≡ true →
            cut_of cut.now d ≤ end_cut plan.now (self.old.closed + 1) d }
        ensures closed { self.new.closed ≡ self.old.closed }
        ensures auction { IsAuction plan.now self.new.closed self.new.auction }
        ensures cut { (d : ℕ) → is_leaf plan.now d ≡ true →
            auction_cut self.new.auction d ≡ cut_of cut.now d }
        ensures row { OnOk result (HasRow plan.now self.old self.new) }
    {
        self.auction.raise(plan, self.closed + 1, cut);
        let row = Vec::from_slice(self.alloc, self.auction.group_steps())?;
        self.rows.push(row)?;
        Ok(())
    }

    /// Closes the open phase, at whose end the last clearing is.
    pub(crate) fn close(&mut self, plan: &Plan)
        requires open { self.old.closed < phases plan.now }
        requires auction { IsAuction plan.now self.old.closed self.old.auction }
        requires ended { (d : ℕ) → is_leaf plan.now d ≡ true →
            auction_cut self.old.auction d ≡ end_cut plan.now (self.old.closed + 1) d }
        ensures closed { self.new.closed ≡ self.old.closed + 1 }
        ensures auction { IsAuction plan.now self.new.closed self.new.auction }
        ensures cut { auction_cut self.new.auction ≡ auction_cut self.old.auction }
        ensures rows { self.new.rows ≡ self.old.rows }
    {
        self.closed += 1;
        self.auction.close(plan, self.closed);
    }

    /// The step of a node at a clearing.
    pub(crate) fn step(&self, plan: &Plan, index: usize, node: NodeId) -> u32
        requires first { 1 ≤ index }
        requires last { index ≤ length (step_rows self.now) }
        requires node { node.0 ≤ length plan.now.nodes }
        requires rows { AreRows plan.now (step_rows self.now) }
        ensures { result ≡ slice_index_or (slice_index_or (step_rows self.now) (index - 1) [])
            (group plan.now node.0) 0 }
    {
        self.rows[index - 1][group_place(plan, node)]
    }
}

/// The place of the steps of a node's group: that of the limited concentrator above it, and 0 if there is no such one.
fn group_place(plan: &Plan, node: NodeId) -> usize
    requires { node.0 ≤ length plan.now.nodes }
    ensures group { result ≡ group plan.now node.0 }
    ensures inside { result ≤ length plan.now.nodes }
{
    match plan.group(node) {
        Some(above) => above.0 as usize,
        None => 0,
    }
}
