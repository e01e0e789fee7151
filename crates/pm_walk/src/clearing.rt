//! Clears the plain auction of a standing: total, step, group steps and powers.

ghost use Rattle.std.specs.Prelude.{◌≡◌, ◌+◌, ◌<◌, length, IfOk, replicate, pos};
ghost use Rattle.pm_plan.specs.Auction.{plain_step};
ghost use Rattle.pm_plan.specs.States.{state};
ghost use Rattle.pm_walk.specs.Standing.{IsStanding, cut_made};
ghost use Rattle.pm_walk.specs.Clearing.{HasRoom, IsClearing, AreGroupSteps, ArePowers};

use crate::standing::Standing;
use crate::totals::{fill_total, group_step, power_of};
use pm_bid::{ArrayBid, uncounted};
use pm_plan::Plan;
use pm_tree::NodeId;
use std::alloc::{AllocError, Global};

/// The plain auction of a standing. Place 0 of each list is the auctioneer's.
pub(crate) struct Clearing {
    /// The total of all demands.
    pub(crate) total: ArrayBid,
    /// The step at which the total balances.
    pub(crate) step: u32,
    /// The step of the nodes below each limited concentrator; of any other node the step of the whole.
    pub(crate) group_steps: Vec<u32>,
    /// The power of each node in watts, 0 if it is no member.
    pub(crate) powers: Vec<i64>,
}

/// Its owner lets go of it in one step; a derived drop would be one for each part.
impl Drop for Clearing {
    fn drop(self) {
        let Clearing {
            total: _,
            step: _,
            group_steps: _,
            powers: _,
        } = self;
    }
}

impl Clearing {
    /// Room for the auction of a plan.
    pub(crate) fn new(alloc: Global, plan: &Plan) -> Result<Clearing, AllocError>
        ensures { IfOk result (HasRoom plan.now) }
    {
        let many = plan.tree().len() as usize + 1;
        Ok(Clearing {
            total: ArrayBid::zero(alloc, plan.basis().steps(), &mut uncounted())?,
            step: 0,
            group_steps: no_steps(alloc, many)?,
            powers: no_powers(alloc, many)?,
        })
    }

    /// Finds the total, its step, the steps of the groups and the powers of a standing.
    pub(crate) fn clear(&mut self, plan: &Plan, standing: &Standing, spare: &mut ArrayBid)
        requires stands { IsStanding plan.now standing.now }
        requires room { HasRoom plan.now self.old }
        requires spare { length spare.old ≡ plan.now.basis.steps }
        ensures clearing { IsClearing plan.now (cut_made standing.now.progress) self.new }
        ensures spare { length spare.new ≡ plan.now.basis.steps }
    {
        fill_total(plan, standing, spare, &mut self.total);
        let step = self.total.first_not_positive(&mut uncounted());
        self.step = step as u32;
        fill_group_steps(plan, standing, step, &mut self.group_steps);
        fill_powers(plan, standing, &self.group_steps, &mut self.powers);
    }
}

fn no_steps(alloc: Global, many: usize) -> Result<Vec<u32>, AllocError>
    ensures { IfOk result (λ v. v.items ≡ replicate many 0) }
{
    vec![in alloc; 0; many]
}

fn no_powers(alloc: Global, many: usize) -> Result<Vec<i64>, AllocError>
    ensures { IfOk result (λ v. v.items ≡ replicate many (pos 0)) }
{
    vec![in alloc; 0; many]
}

/// Finds the step of each group, by `step`, the step of the whole.
fn fill_group_steps(plan: &Plan, standing: &Standing, step: usize, group_steps: &mut [u32])
    requires stands { IsStanding plan.now standing.now }
    requires step { step ≡ plain_step plan.now (state plan.now) (cut_made standing.now.progress) }
    requires inside { step < plan.now.basis.steps }
    requires one_each { length group_steps.old ≡ length plan.now.nodes + 1 }
    ensures { AreGroupSteps plan.now (cut_made standing.now.progress) group_steps.new }
{
    for group in 0..plan.tree().len() + 1 {
        group_steps[group as usize] = group_step(plan, standing, step, NodeId(group)) as u32;
    }
}

/// Finds the power of each node.
fn fill_powers(plan: &Plan, standing: &Standing, group_steps: &[u32], powers: &mut [i64])
    requires stands { IsStanding plan.now standing.now }
    requires steps { AreGroupSteps plan.now (cut_made standing.now.progress) group_steps.now }
    requires one_each { length powers.old ≡ length plan.now.nodes + 1 }
    ensures { ArePowers plan.now (cut_made standing.now.progress) powers.new }
{
    for number in 0..plan.tree().len() + 1 {
        powers[number as usize] = power_of(plan, standing, group_steps, NodeId(number));
    }
}
