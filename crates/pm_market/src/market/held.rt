//! Which price a device holds, and whether every phase is closed.

use super::Market;
use crate::rows::item_at;

/// What a device holds, and whether a run is over.
impl Market {
    ghost use Rattle.std.specs.Prelude.{◌≡◌, ◌↔◌, ◌-◌, ◌≤◌, ◌&&◌, not, IsTrue};
    ghost use Rattle.pm_market.specs.Lists.{phases, is_member};
    ghost use Rattle.pm_market.specs.State.{cleared_cut, last_index};
    ghost use Rattle.pm_market.specs.Held.{last_join, holds_price};
    ghost use Rattle.pm_market.specs.Market.{market_lists, market_state};
    ghost use Rattle.pm_base.specs.Cuts.{cut_of};

    /// Whether every phase is closed.
    pub fn is_complete(&self) -> bool
        ensures { IsTrue result
            ↔ ((market_state self.now).closed ≡ phases (market_lists self.now)) }
    {
        self.closed as usize == self.ends.len()
    }

    /// The index of the clearing passed to a node last, 0 if there was no clearing.
    pub fn last_passed(&self, node: usize) -> usize
        ensures { result ≡ last_index (market_state self.now) node }
    {
        self.last(node)
    }

    /// The cut of a clearing, a number for each node from the auctioneer's on. What is missing is 0.
    pub fn cleared(&self, index: usize) -> &[u32]
        ensures { cut_of result.now ≡ cleared_cut (market_state self.now) index }
    {
        self.cut_row(0, index)
    }

    /// Whether a change of a device is a join: it is a member after the change, and was not before it.
    fn is_join(&self, device: usize, number: usize) -> bool
        requires { 1 ≤ number }
        ensures { result ≡ (is_member (market_lists self.now) device number && not
            (is_member (market_lists self.now) device (number - 1))) }
    {
        self.is_member(device, number) && !self.is_member(device, number - 1)
    }

    /// The number of the last join of a device among so many changes, 0 if there is no join.
    #[tactic(auto, using(crate::proofs::Loops::join_turns), unfolding(crate::specs::Held::last_join))]
    fn last_join(&self, device: usize, changes: usize) -> usize
        ensures { result ≡ last_join (market_lists self.now) device changes }
    {
        for back in 0..changes {
            let number = changes - back;
            if self.is_join(device, number) {
                return number;
            }
        }
        0
    }

    /// Whether a device holds a price: that of the clearing passed to it last, unless it is of a former membership.
    #[tactic(auto, unfolding(crate::specs::Held::holds_price))]
    pub fn holds_price(&self, device: usize) -> bool
        ensures { result ≡ holds_price (market_lists self.now) (market_state self.now) device }
    {
        let last = self.last(device);
        let changes = item_at(&self.counts, device, 0) as usize;
        0 < last
            && self.is_member(device, changes)
            && self.last_join(device, changes) <= item_at(self.cut_row(0, last), device, 0) as usize
    }
}
