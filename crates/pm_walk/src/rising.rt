//! Advances a standing to a cut that is nowhere lower.

ghost use Rattle.std.specs.Prelude.{◌≡◌, ◌≢◌, ℕ, ◌-◌, ◌≤◌, true, length, IfOk};
ghost use Rattle.pm_base.specs.Cuts.{cut_of};
ghost use Rattle.pm_plan.specs.Plans.{is_leaf, phases, end_cut};
ghost use Rattle.pm_plan.specs.Auction.{power};
ghost use Rattle.pm_plan.specs.States.{state};
ghost use Rattle.pm_walk.specs.Clearing.{ArePowers};
ghost use Rattle.pm_walk.specs.Cuts.{device_cut};
ghost use Rattle.pm_walk.specs.Standing.{IsStanding, cut_made};

use crate::changes::make_changes;
use crate::standing::Standing;
use pm_base::number_in_cut;
use pm_bid::ArrayBid;
use pm_plan::Plan;
use pm_tree::NodeId;

/// Going on to a cut that is nowhere lower.
impl Standing {
    /// Makes the changes of a device up to a number, all of this phase. `used` is its power at the end of the phase
    /// before.
    fn raise_device(
        &mut self,
        plan: &Plan,
        device: NodeId,
        phase: u32,
        used: i64,
        number: u32,
        spare: &mut ArrayBid,
    )
        requires leaf { is_leaf plan.now device.0 ≡ true }
        requires inside { device.0 ≤ length plan.now.nodes }
        requires first { 1 ≤ phase }
        requires stands { IsStanding plan.now self.old }
        requires begun { end_cut plan.now (phase - 1) device.0
            ≤ cut_made self.old.progress device.0 }
        requires rises { cut_made self.old.progress device.0 ≤ number }
        requires planned { number ≤ end_cut plan.now phase device.0 }
        requires used { used ≡ power plan.now (state plan.now)
            (end_cut plan.now (phase - 1)) device.0 }
        requires spare { length spare.old ≡ plan.now.basis.steps }
        ensures stands { IsStanding plan.now self.new }
        ensures done { cut_made self.new.progress device.0 ≡ number }
        ensures others { (x : ℕ) → x ≢ device.0 →
            cut_made self.new.progress x ≡ cut_made self.old.progress x }
        ensures spare { length spare.new ≡ plan.now.basis.steps }
    {
        let before = self.progress(plan, device);
        if number == before.count {
            return;
        }
        let here = make_changes(plan, device, phase, used, number - before.count, before);
        self.reach(plan, device, here, spare);
    }

    /// Makes the changes of all devices up to those of a cut, which lies in this phase and is nowhere lower. `powers` are
    /// those at the end of the phase before. The cut has a number for each node from the auctioneer's on, of which those of
    /// devices count; what is missing is 0.
    pub(crate) fn raise_devices(
        &mut self,
        plan: &Plan,
        phase: u32,
        powers: &[i64],
        cut: &[u32],
        spare: &mut ArrayBid,
    )
        requires first { 1 ≤ phase }
        requires last { phase ≤ phases plan.now }
        requires stands { IsStanding plan.now self.old }
        requires begun { (d : ℕ) → is_leaf plan.now d ≡ true →
            end_cut plan.now (phase - 1) d ≤ cut_made self.old.progress d }
        requires rises { (d : ℕ) → is_leaf plan.now d ≡ true →
            cut_made self.old.progress d ≤ cut_of cut.now d }
        requires planned { (d : ℕ) → is_leaf plan.now d ≡ true →
            cut_of cut.now d ≤ end_cut plan.now phase d }
        requires powers { ArePowers plan.now (end_cut plan.now (phase - 1)) powers.now }
        requires spare { length spare.old ≡ plan.now.basis.steps }
        ensures stands { IsStanding plan.now self.new }
        ensures done { cut_made self.new.progress ≡ device_cut plan.now (cut_of cut.now) }
        ensures spare { length spare.new ≡ plan.now.basis.steps }
    {
        let tree = plan.tree();
        for number in 1..tree.len() + 1 {
            let device = NodeId(number);
            let at = number as usize;
            if tree.is_leaf(device) {
                self.raise_device(
                    plan,
                    device,
                    phase,
                    powers[at],
                    number_in_cut(cut, at),
                    spare,
                );
            }
        }
    }
}
