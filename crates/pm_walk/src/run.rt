//! Walks a plan's phases without messages: the ends of all phases, or the end over a cut.

ghost use Rattle.std.specs.Prelude.{◌≡◌, ℕ, ◌-◌, ◌≤◌, length, map, IfOk, OnOk};
ghost use Rattle.pm_plan.specs.Plans.{phases, change_count};
ghost use Rattle.pm_plan.specs.States.{end_of, all_ends};
ghost use Rattle.pm_walk.specs.Cuts.{file_cut, AreStops};
ghost use Rattle.pm_walk.specs.Standing.{IsStanding, cut_made};
ghost use Rattle.pm_walk.specs.Runs.{IsRun, IsAtEnd, AreEnds};

use crate::changes::Progress;
use crate::clearing::Clearing;
use crate::lines::end_of;
use crate::standing::{Standing, starts};
use crate::stops::change_stops;
use pm_bid::{ArrayBid, uncounted};
use pm_plan::{PhaseEnd, Plan};
use std::alloc::{AllocError, Global};

/// A run over the phases: how far it has come, and the plain auction there.
pub(crate) struct Run {
    pub(crate) standing: Standing,
    pub(crate) clearing: Clearing,
    /// A bid to write in.
    pub(crate) spare: ArrayBid,
}

/// Its owner lets go of it in one step; a derived drop would be one for each part.
impl Drop for Run {
    fn drop(self) {
        let Run {
            standing: _,
            clearing: _,
            spare: _,
        } = self;
    }
}

impl Run {
    /// A run that has come so far.
    fn over(alloc: Global, plan: &Plan, standing: Standing) -> Result<Run, AllocError>
        requires { IsStanding plan.now standing }
        ensures run { IfOk result (IsRun plan.now) }
        ensures standing { IfOk result (λ run. run.standing ≡ standing) }
    {
        let mut clearing = Clearing::new(alloc, plan)?;
        let mut spare = ArrayBid::zero(alloc, plan.basis().steps(), &mut uncounted())?;
        clearing.clear(plan, &standing, &mut spare);
        Ok(Run {
            standing,
            clearing,
            spare,
        })
    }

    /// A run before the first phase.
    pub(crate) fn start(alloc: Global, plan: &Plan) -> Result<Run, AllocError>
        ensures { IfOk result (IsAtEnd plan.now 0) }
    {
        let standing = Standing::start(alloc, plan)?;
        Run::over(alloc, plan, standing)
    }

    /// Makes the changes of the next phase, and finds the auction over them. If no device has any, the auction of
    /// the phase before holds.
    fn pass(&mut self, plan: &Plan, phase: u32)
        requires first { 1 ≤ phase }
        requires last { phase ≤ phases plan.now }
        requires before { IsAtEnd plan.now (phase - 1) self.old }
        ensures { IsAtEnd plan.now phase self.new }
    {
        let changed = self
            .standing
            .change_devices(plan, phase, &self.clearing.powers, &mut self.spare);
        if changed {
            self.clearing.clear(plan, &self.standing, &mut self.spare);
        }
    }

    /// The end over what the run has come to.
    fn end(&self, alloc: Global, plan: &Plan) -> Result<PhaseEnd, AllocError>
        requires { IsRun plan.now self.now }
        ensures { IfOk result (λ e. e.end ≡ end_of plan.now (cut_made self.now.standing.progress)) }
    {
        end_of(alloc, plan, &self.standing, &self.clearing)
    }

    /// Makes the changes of the next phase, and puts the end over them behind the ends of the phases before.
    fn add_end(
        &mut self,
        alloc: Global,
        plan: &Plan,
        phase: u32,
        ends: &mut Vec<PhaseEnd>,
    ) -> Result<(), AllocError>
        requires first { 1 ≤ phase }
        requires last { phase ≤ phases plan.now }
        requires before { IsAtEnd plan.now (phase - 1) self.old }
        requires ends { AreEnds plan.now (phase - 1) ends.old.items }
        ensures run { IsAtEnd plan.now phase self.new }
        ensures ends { OnOk result (AreEnds plan.now phase ends.new.items) }
    {
        self.pass(plan, phase);
        ends.push(self.end(alloc, plan)?)?;
        Ok(())
    }

    /// Goes through all phases, and makes in each the changes of the devices as far as the cut goes.
    fn stop_at(&mut self, plan: &Plan, cut: &[u32], stops: &mut [Progress])
        requires run { IsAtEnd plan.now 0 self.old }
        requires one_each { length cut.now ≡ length plan.now.nodes }
        requires stops { AreStops plan.now cut.now 0 stops.old }
        ensures { AreStops plan.now cut.now (phases plan.now) stops.new }
    {
        for phase in 1..plan.phases() + 1 {
            change_stops(plan, phase, &self.clearing.powers, cut, stops);
            self.pass(plan, phase);
        }
    }
}

/// The ends of all phases of a plan, from the first to the last. Each is by the plain auction over the changes of
/// the phases up to it. The answer is an error only if an allocation failed.
pub fn all_ends(alloc: Global, plan: &Plan) -> Result<Vec<PhaseEnd>, AllocError>
    ensures { IfOk result (λ v. map (λ e. e.end) v.items ≡ all_ends plan.now) }
{
    let mut run = Run::start(alloc, plan)?;
    let mut ends = Vec::new(alloc);
    for phase in 1..plan.phases() + 1 {
        run.add_end(alloc, plan, phase, &mut ends)?;
    }
    Ok(ends)
}

/// The end over a cut, by the plain auction there. The cut has one number for each node of the file, in file order. It
/// is how many changes the node has made, at most as many as the plan has for it. The answer is an error only if an
/// allocation failed.
///
/// A device that stops early has the state after its changes made. Its ticks use the powers of the whole run.
pub fn end_of_cut(alloc: Global, plan: &Plan, cut: &[u32]) -> Result<PhaseEnd, AllocError>
    requires one_each { length cut.now ≡ length plan.now.nodes }
    requires planned { (x : ℕ) → 1 ≤ x → x ≤ length plan.now.nodes →
        file_cut cut.now x ≤ change_count plan.now x }
    ensures { IfOk result (λ e. e.end ≡ end_of plan.now (file_cut cut.now)) }
{
    let standing = standing_at(alloc, plan, cut)?;
    Run::over(alloc, plan, standing)?.end(alloc, plan)
}

/// The standing in which each node has made as many changes as the cut says.
fn standing_at(alloc: Global, plan: &Plan, cut: &[u32]) -> Result<Standing, AllocError>
    requires one_each { length cut.now ≡ length plan.now.nodes }
    requires planned { (x : ℕ) → 1 ≤ x → x ≤ length plan.now.nodes →
        file_cut cut.now x ≤ change_count plan.now x }
    ensures stands { IfOk result (IsStanding plan.now) }
    ensures cut { IfOk result (λ s. cut_made s.progress ≡ file_cut cut.now) }
{
    let mut run = Run::start(alloc, plan)?;
    let mut stops = starts(alloc, plan)?;
    run.stop_at(plan, cut, &mut stops);
    Standing::over(alloc, plan, &stops)
}
