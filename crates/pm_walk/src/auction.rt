//! The plain auction over rising cuts, by which `check` finds the step of each node at a clearing.

ghost use Rattle.std.specs.Prelude.{◌≡◌, ℕ, ◌-◌, ◌≤◌, true, IfOk};
ghost use Rattle.pm_base.specs.Cuts.{cut_of};
ghost use Rattle.pm_plan.specs.Plans.{PlanData, is_leaf, phases, end_cut};
ghost use Rattle.pm_walk.specs.Clearing.{AreGroupSteps};
ghost use Rattle.pm_walk.specs.Cuts.{device_cut};

use crate::run::Run;
use pm_plan::Plan;
use std::alloc::{AllocError, Global};

/// The plain auction over one cut after another, each nowhere lower than the one before it, through the phases of a plan.
///
/// A device makes its changes of a phase with the power that it had at the end of the phase before. So the cuts of a phase
/// lie between the end of the phase before and its own. From cut to cut the demand of a device that made changes is taken
/// off its group's sum, and the new one is added. So all cuts together cost the changes times the steps. Each cut also
/// costs the nodes, and the steps once and once more for each limited concentrator.
#[derive(Drop)]
pub struct CutAuction {
    run: Run,
    /// The power of each node at the end of the last phase that was closed.
    powers: Vec<i64>,
}

impl CutAuction {
    ghost use Rattle.pm_walk.specs.Auctions.{IsAuction, auction_cut};

    /// Before the first phase: the cut that contains no change.
    pub fn start(alloc: Global, plan: &Plan) -> Result<CutAuction, AllocError>
        ensures auction { IfOk result (IsAuction plan.now 0) }
        ensures none { IfOk result (λ auction. (x : ℕ) → auction_cut auction x ≡ 0) }
    {
        let run = Run::start(alloc, plan)?;
        let powers = run.clearing.powers.clone()?;
        Ok(CutAuction { run, powers })
    }

    /// Goes on to a cut of the open phase. The cut has a number for each node from the auctioneer's on, of which those of
    /// devices count; what is missing is 0. No number is below that of the cut before, nor above that of the phase's end.
    pub fn raise(&mut self, plan: &Plan, phase: u32, cut: &[u32])
        requires first { 1 ≤ phase }
        requires last { phase ≤ phases plan.now }
        requires auction { IsAuction plan.now (phase - 1) self.old }
        requires rises { (d : ℕ) → is_leaf plan.now d ≡ true →
            auction_cut self.old d ≤ cut_of cut.now d }
        requires planned { (d : ℕ) → is_leaf plan.now d ≡ true →
            cut_of cut.now d ≤ end_cut plan.now phase d }
        ensures auction { IsAuction plan.now (phase - 1) self.new }
        ensures cut { auction_cut self.new ≡ device_cut plan.now (cut_of cut.now) }
    {
        let run = &mut self.run;
        run.standing
            .raise_devices(plan, phase, &self.powers, cut, &mut run.spare);
        run.clearing.clear(plan, &run.standing, &mut run.spare);
    }

    /// Closes the open phase, at whose end the auction is: the ticks of the next one are made with the powers here.
    pub fn close(&mut self, plan: &Plan, phase: u32)
        requires first { 1 ≤ phase }
        requires auction { IsAuction plan.now (phase - 1) self.old }
        requires ended { (d : ℕ) → is_leaf plan.now d ≡ true →
            auction_cut self.old d ≡ end_cut plan.now phase d }
        ensures auction { IsAuction plan.now phase self.new }
        ensures cut { auction_cut self.new ≡ auction_cut self.old }
    {
        self.powers.copy_from_slice(&self.run.clearing.powers);
    }

    /// The step of the nodes below each limited concentrator, at the concentrator's place. At every other place, the
    /// auctioneer's 0 among them, it is the step of the plain auction. So the step of a node is at the place of its group.
    pub fn group_steps(&self) -> &[u32]
        ensures { (plan : PlanData) (p : ℕ) → IsAuction plan p self.now →
            AreGroupSteps plan (auction_cut self.now) result.now }
    {
        &self.run.clearing.group_steps
    }
}
