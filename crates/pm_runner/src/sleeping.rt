//! Where nodes without work go to sleep.

use crate::pending::Pending;
use pm_plan::{Plan, is_device};
use pm_tree::NodeId;

/// Where a node sleeps.
#[derive(Clone, Copy)]
pub(crate) struct Berth {
    /// The bell at which it is woken.
    pub(crate) bell: u32,
    /// Whether what wakes the node is near, so that its thread yields for a while before it sleeps.
    pub(crate) near: bool,
}

impl Pending {
    /// Where a node without work goes to sleep. Devices that wait for the same thing share a bell.
    ///
    /// A device is near its next work if many devices change in the open phase, and it awaits the price of a phase in which it
    /// changes itself, or the opening of such a phase. If all of these devices slept, their sleeps would cost more than all the
    /// moves; a yield lets the nodes go on that still move. If few devices change, a yield serves nobody, and on a machine that is
    /// busy with other work it waits for all of that.
    ///
    /// A device that only awaits the price of the changes of others has a whole phase to wait. Its yields would keep the processors
    /// from those that move, so it sleeps at once, and so does a parent, which waits for all its children. Before the first phase
    /// is closed nobody is near: the caller's thread still starts the others.
    pub(crate) fn berth_of(&self, plan: &Plan, closed: usize, node: u32) -> Berth {
        let bell = self.bells.own(node);
        let near = false;
        let Some(pending) = self.at(node) else {
            return Berth { bell, near };
        };
        let Some(device) = pending.device() else {
            return Berth { bell, near };
        };
        let prices = self.bells.prices(pending.parent);
        let crowded = self.crowded && closed > 0;
        if device.member && self.active && !device.passed {
            let near = crowded && device.active;
            return Berth { bell: prices, near };
        }
        if changes_after(plan, closed, node) {
            let bell = self.bells.opening();
            return Berth {
                bell,
                near: crowded,
            };
        }
        let bell = if device.member { prices } else { bell };
        Berth { bell, near }
    }

    /// The bell of the caller's thread.
    pub(crate) fn caller_bell(&self) -> u32 {
        self.bells.caller()
    }
}

/// Whether a device changes in the phase after the open one, where so many are closed.
#[tactic(auto, using(pm_plan::proofs::MarketLists::leaf_of_plan))]
fn changes_after(plan: &Plan, closed: usize, node: u32) -> bool {
    let device = NodeId(node);
    if !is_device(plan, device) {
        return false;
    }
    let phases = plan.phases() as usize;
    if closed >= phases || closed + 1 >= phases {
        return false;
    }
    plan.changes_of(closed as u32 + 2, device) > 0
}
