//! Which clearings are due to a node, as lists that each move extends.

use super::Market;
use crate::rows::{item_at, mark, row_at};
use std::alloc::AllocError;

/// Which clearings are due to a node: those that reached its parent and address it.
impl Market {
    ghost use Rattle.std.specs.Prelude.{◌≡◌, ◌==◌, ◌+◌, ◌<◌, ◌≤◌, ◌||◌, ℕ, not, true, false, if◌then◌else◌, length};
    ghost use Rattle.std.specs.Prelude.{vec_len, slice_index_or, IfOk};
    ghost use Rattle.pm_market.specs.Lists.{nodes, is_below, is_leaf_of};
    ghost use Rattle.pm_market.specs.State.{is_same_on, no_changes, clearings};
    ghost use Rattle.pm_market.specs.Due.{due_after};
    ghost use Rattle.pm_market.specs.Market.{market_lists, market_state, market_due};
    ghost use Rattle.pm_base.specs.Cuts.{cut_of};

    /// The greatest index of a clearing that is due to a node, 0 if there is no such clearing.
    pub(super) fn due(&self, node: usize) -> usize
        ensures { result ≡ market_due self.now node }
    {
        item_at(&self.due, node, 0)
    }

    /// The index of the next clearing.
    pub(super) fn next_index(&self) -> usize
        ensures { result ≡ clearings (market_state self.now) + 1 }
    {
        row_at(&self.published, 0).len() + 1
    }

    /// Marks each node that a node is or is below.
    fn mark_above(&self, marks: &mut [bool], below: usize)
        ensures length { length marks.new ≡ length marks.old }
        ensures marks { (x : ℕ) → x < length marks.old →
            slice_index_or marks.new x false
            ≡ (slice_index_or marks.old x false || is_below (market_lists self.now) x below) }
    {
        let mut at = below;
        for _step in 0..below {
            mark(marks, at);
            if at == 0 {
                return;
            }
            at = self.parent(at);
        }
        mark(marks, at);
    }

    /// Marks each node that a device is or is below, if a cut has a number above 0 of the device.
    fn mark_leaf(&self, marks: &mut [bool], cut: &[u32], device: usize)
        ensures length { length marks.new ≡ length marks.old }
        ensures marks { (x : ℕ) → x < length marks.old →
            slice_index_or marks.new x false ≡ (slice_index_or marks.old x false
            || not (if is_leaf_of (market_lists self.now) x device then cut_of cut.now device == 0
            else true)) }
    {
        if self.is_leaf(device) && item_at(cut, device, 0) > 0 {
            self.mark_above(marks, device);
        }
    }

    /// For each node, the auctioneer first, whether a cut has a number above 0 of one of its leaves.
    fn cut_marks(&self, cut: &[u32]) -> Result<Vec<bool>, AllocError>
        ensures { IfOk result (λ marks. (x : ℕ) → x ≤ nodes (market_lists self.now) →
            slice_index_or marks.items x false ≡ not
            (is_same_on (market_lists self.now) x (cut_of cut.now) no_changes)) }
    {
        let mut marks = vec![in self.alloc; false; self.due.len()]?;
        for before in 0..self.parents.len() {
            self.mark_leaf(&mut marks, cut, before + 1);
        }
        Ok(marks)
    }

    /// The greatest index of a clearing that is due to a node once a clearing of this cut reached another. `marks` are
    /// those of the cut.
    #[tactic(auto, unfolding(crate::specs::State::addresses_of))]
    fn due_once(
        &self,
        reached: usize,
        index: usize,
        cut: &[u32],
        marks: &[bool],
        node: usize,
    ) -> usize
        requires { slice_index_or marks.now node false
            ≡ not (is_same_on (market_lists self.now) node (cut_of cut.now) no_changes) }
        ensures { result ≡ due_after (market_lists self.now) (market_due self.now) reached index
            (cut_of cut.now) node }
    {
        let is_addressed = if self.is_leaf(node) {
            self.is_member(node, item_at(cut, node, 0) as usize)
        } else {
            item_at(marks, node, false)
        };
        let due = self.due(node);
        if due < index && self.parent(node) == reached && is_addressed {
            index
        } else {
            due
        }
    }

    /// The greatest index of a clearing that is due to each node, the auctioneer's first, once a clearing of this cut
    /// reached a node.
    pub(super) fn due_row(
        &self,
        reached: usize,
        index: usize,
        cut: &[u32],
    ) -> Result<Vec<usize>, AllocError>
        ensures length { IfOk result (λ row. vec_len row ≡ nodes (market_lists self.now) + 1) }
        ensures due { IfOk result (λ row. (x : ℕ) → x ≤ nodes (market_lists self.now) →
            slice_index_or row.items x 0 ≡ due_after (market_lists self.now)
            (market_due self.now) reached index (cut_of cut.now) x) }
    {
        let marks = self.cut_marks(cut)?;
        let mut row = Vec::with_capacity(self.alloc, self.due.len())?;
        for node in 0..self.due.len() {
            row.push(self.due_once(reached, index, cut, &marks, node))?;
        }
        Ok(row)
    }
}
