//! The market of cuts as a plain program, which keeps every cut whole; `check` judges traces by it.

ghost use Rattle.std.specs.Prelude.{◌≡◌, ◌+◌, [], map, vec_len, slice_index, slice_index_or};
ghost use Rattle.pm_base.specs.Cuts.{cut_of};
ghost use Rattle.pm_base.specs.Rows.{rows_of};
ghost use Rattle.pm_market.specs.Due.{KnowsDue, AreParents};

mod due;
mod held;
mod legality;
mod moving;

use crate::rows::{is_among, item_at, item_from_one, row_at, row_from_one};
use std::alloc::Global;

/// A market: the lists that it is made of and its state, with every cut kept whole. It computes the tests of
/// `specs/Legality.antt`, and what a legal move changes. For lawful lists and a sound state the tests agree with the legal
/// moves of `specs/Moves.antt` (a law of `pm_laws`). It keeps neither sums nor records nor a window.
///
/// With `n` nodes, `is_legal` takes a few look-ups for a change, a learning or a pass to a device. A pass also seeks the
/// index among those passed to the parent, from the newest on. A publishing takes a walk up the tree, 7 levels at most,
/// for each node. In a legal run it also takes at most 9 comparisons of two cuts, which are `n` numbers each. A clearing
/// takes one such walk for each node, and a pass to a concentrator one comparison. A closing tests once whether each node
/// may learn, publish or be passed a clearing. The last is one comparison of two indices, however many clearings there
/// were. `apply` writes the `n` numbers of a cut for a publishing or a clearing, and one number otherwise. A clearing and
/// a pass to a node with children also take a walk for each device. They write for each node the greatest index due to it.
pub struct Market {
    alloc: Global,
    parents: Vec<u32>,
    leaves: Vec<bool>,
    members: Vec<Vec<bool>>,
    ends: Vec<Vec<u32>>,
    counts: Vec<u32>,
    closed: u32,
    published: Vec<Vec<Vec<u32>>>,
    learnt: Vec<u32>,
    passed: Vec<Vec<usize>>,
    due: Vec<usize>,
    has_child: Vec<bool>,
    // each table has a place for the auctioneer and one for each node, and nothing is learnt of the auctioneer
    ghost leaf_of_each: { vec_len leaves ≡ vec_len parents },
    ghost count_of_each: { vec_len counts ≡ vec_len parents + 1 },
    ghost cuts_of_each: { vec_len published ≡ vec_len parents + 1 },
    ghost number_of_each: { vec_len learnt ≡ vec_len parents + 1 },
    ghost indices_of_each: { vec_len passed ≡ vec_len parents + 1 },
    ghost due_of_each: { vec_len due ≡ vec_len parents + 1 },
    ghost none_above: { slice_index learnt.items 0 ≡ 0 },
    // which nodes have children, and of each node the greatest index of a clearing that is due to it
    ghost parents_marked: { AreParents parents.items has_child.items },
    ghost greatest_due: { KnowsDue
        (record { parents = parents.items; leaves = leaves.items; members = rows_of members.items; ends = rows_of ends.items })
        (record {
          counts = cut_of counts.items;
          closed = closed;
          published = λ c. map cut_of (rows_of (slice_index_or (map (λ rows. rows.items) published.items) c []));
          learnt = λ x. slice_index_or learnt.items x 0;
          passed = λ x. slice_index_or (rows_of passed.items) x [];
        })
        (λ x. slice_index_or due.items x 0) },
}

/// Its owner lets go of it in one step; a derived drop would be one for each part.
impl Drop for Market {
    fn drop(self) {
        let Market {
            alloc: _,
            parents: _,
            leaves: _,
            members: _,
            ends: _,
            counts: _,
            closed: _,
            published: _,
            learnt: _,
            passed: _,
            due: _,
            has_child: _,
        } = self;
    }
}

/// The tree and the plan of a market.
impl Market {
    ghost use Rattle.std.specs.Prelude.{◌≡◌, ◌==◌, ◌+◌, ◌≤◌, true, if◌then◌else◌, length};
    ghost use Rattle.pm_market.specs.Lists.{parent, is_leaf, is_member, is_below, is_leaf_of, child_at_or_above, end_count};
    ghost use Rattle.pm_market.specs.State.{is_same_on};
    ghost use Rattle.pm_market.specs.Market.{market_lists, market_state};
    ghost use Rattle.pm_base.specs.Cuts.{cut_of};

    /// The parent of a node.
    #[tactic(auto, unfolding(crate::specs::Lists::parent))]
    fn parent(&self, node: usize) -> usize
        ensures { result ≡ parent (market_lists self.now) node }
    {
        item_from_one(&self.parents, node, 0) as usize
    }

    /// Whether a node is a device.
    #[tactic(auto, unfolding(crate::specs::Lists::is_leaf))]
    fn is_leaf(&self, node: usize) -> bool
        ensures { result ≡ is_leaf (market_lists self.now) node }
    {
        item_from_one(&self.leaves, node, false)
    }

    /// Whether a device is a member after so many changes.
    #[tactic(auto, unfolding(crate::specs::Lists::is_member))]
    fn is_member(&self, device: usize, changes: usize) -> bool
        ensures { result ≡ is_member (market_lists self.now) device changes }
    {
        item_from_one(row_from_one(&self.members, device), changes, false)
    }

    /// How many changes of a device are made at the end of a phase.
    #[tactic(auto, unfolding(crate::specs::Lists::end_count))]
    fn end(&self, phase: usize, device: usize) -> u32
        ensures { result ≡ end_count (market_lists self.now) phase device }
    {
        item_from_one(row_from_one(&self.ends, phase), device, 0)
    }

    /// Whether a node is this one or is below it.
    #[tactic(auto, using(crate::proofs::Loops::below_turns), unfolding(crate::specs::Lists::is_below))]
    fn is_below(&self, node: usize, below: usize) -> bool
        ensures { result ≡ is_below (market_lists self.now) node below }
    {
        let mut at = below;
        for _step in 0..below {
            if at == node {
                return true;
            }
            if at == 0 {
                return false;
            }
            at = self.parent(at);
        }
        node == at
    }

    /// Whether a device is one of the leaves of a node.
    #[tactic(auto, unfolding(crate::specs::Lists::is_leaf_of))]
    fn is_leaf_of(&self, node: usize, device: usize) -> bool
        ensures { result ≡ is_leaf_of (market_lists self.now) node device }
    {
        self.is_leaf(device) && self.is_below(node, device)
    }

    /// The child of a node at or above another: of the nodes from that one up the first whose parent is the node. If
    /// there is no such one, it is 0.
    #[tactic(auto, using(crate::proofs::Loops::toward_turns))]
    fn child_at_or_above(&self, node: usize, below: usize) -> usize
        ensures { result ≡ child_at_or_above (market_lists self.now) node below }
    {
        let mut at = below;
        for _step in 0..below {
            let above = self.parent(at);
            if above == node {
                return at;
            }
            if at == 0 {
                return 0;
            }
            at = above;
        }
        0
    }

    /// Whether two cuts have one number of a device, or the device is no leaf of the node.
    fn is_same_at(&self, node: usize, one: &[u32], other: &[u32], device: usize) -> bool
        ensures { result ≡ (if is_leaf_of (market_lists self.now) node device
            then cut_of one.now device == cut_of other.now device else true) }
    {
        item_at(one, device, 0) == item_at(other, device, 0) || !self.is_leaf_of(node, device)
    }

    /// Whether two cuts are the same on the leaves of a node.
    #[tactic(auto, using(crate::proofs::Loops::all_to_turns), unfolding(crate::specs::State::all_to, crate::specs::State::is_same_on))]
    fn is_same_on(&self, node: usize, one: &[u32], other: &[u32]) -> bool
        ensures { result ≡ is_same_on (market_lists self.now) node (cut_of one.now)
            (cut_of other.now) }
    {
        for before in 0..self.parents.len() {
            if !self.is_same_at(node, one, other, before + 1) {
                return false;
            }
        }
        true
    }
}

/// The state of a market.
impl Market {
    ghost use Rattle.std.specs.Prelude.{◌≡◌, ◌==◌, ◌+◌, ◌-◌, ◌≤◌, true, if◌then◌else◌, length};
    ghost use Rattle.pm_market.specs.Lists.{is_leaf_of};
    ghost use Rattle.pm_market.specs.State.{cut_at, is_same_on, part, newest_number_of, knowledge};
    ghost use Rattle.pm_market.specs.State.{number, greatest_number, last_index, clearings, cleared_cut, addresses};
    ghost use Rattle.pm_market.specs.Legality.{has_reached, is_node, is_one_of};
    ghost use Rattle.pm_market.specs.Market.{market_lists, market_state};
    ghost use Rattle.pm_base.specs.Cuts.{cut_of};

    /// How many cuts a node published, or the auctioneer cleared.
    fn published_by(&self, node: usize) -> usize
        ensures { result ≡ length ((market_state self.now).published node) }
    {
        row_at(&self.published, node).len()
    }

    /// The cut of a number of a node, counted from 1. If there is no such number, it is empty, which is all zeros.
    fn cut_row(&self, node: usize, number: usize) -> &[u32]
        ensures { cut_of result.now ≡ cut_at ((market_state self.now).published node) number }
    {
        row_from_one(row_at(&self.published, node), number)
    }

    /// The newest number of a node.
    #[tactic(auto, unfolding(crate::specs::State::newest_of))]
    fn newest(&self, node: usize) -> usize
        ensures { result ≡ newest_number_of (market_lists self.now) (market_state self.now) node }
    {
        if self.is_leaf(node) {
            item_at(&self.counts, node, 0) as usize
        } else {
            self.published_by(node)
        }
    }

    /// The number of a node that its parent learnt last.
    fn learnt(&self, node: usize) -> u32
        ensures { result ≡ (market_state self.now).learnt node }
    {
        item_at(&self.learnt, node, 0)
    }

    /// The index of the clearing passed to a node last, 0 if there was no clearing.
    #[tactic(auto, unfolding(crate::specs::State::last_of))]
    fn last(&self, node: usize) -> usize
        ensures { result ≡ last_index (market_state self.now) node }
    {
        let indices = row_at(&self.passed, node);
        item_from_one(indices, indices.len(), 0)
    }

    /// What a number of a node stands for at a device.
    #[tactic(auto, unfolding(crate::specs::State::part_of))]
    fn part_at(&self, node: usize, number: u32, device: usize) -> u32
        ensures { result ≡ part (market_lists self.now) (market_state self.now) node number device }
    {
        if self.is_leaf(node) {
            number
        } else {
            item_at(self.cut_row(node, number as usize), device, 0)
        }
    }

    /// What a node knows of a device below it. It walks up the tree, seven levels at most.
    #[tactic(auto, unfolding(crate::specs::State::knowledge_of))]
    fn known_number(&self, node: usize, device: usize) -> u32
        ensures { result ≡ knowledge (market_lists self.now) (market_state self.now) node device }
    {
        let child = self.child_at_or_above(node, device);
        self.part_at(child, self.learnt(child), device)
    }

    /// Whether a node knows of a device what it published or cleared last, or the device is no leaf of it.
    fn knows_same_at(&self, node: usize, device: usize) -> bool
        ensures { result ≡ (if is_leaf_of (market_lists self.now) node device
            then knowledge (market_lists self.now)
            (market_state self.now) node device == cut_at ((market_state self.now).published node)
            (length ((market_state self.now).published node)) device else true) }
    {
        let newest = self.cut_row(node, self.published_by(node));
        self.known_number(node, device) == item_at(newest, device, 0)
            || !self.is_leaf_of(node, device)
    }

    /// Whether a node knows just what it published or cleared last.
    #[tactic(auto, using(crate::proofs::Loops::all_to_turns), unfolding(crate::specs::State::all_to, crate::specs::State::is_same_on))]
    fn knows_same(&self, node: usize) -> bool
        ensures { result ≡ is_same_on (market_lists self.now) node
            (knowledge (market_lists self.now) (market_state self.now) node)
            (cut_at ((market_state self.now).published node)
            (length ((market_state self.now).published node))) }
    {
        for before in 0..self.parents.len() {
            if !self.knows_same_at(node, before + 1) {
                return false;
            }
        }
        true
    }

    /// Whether a node published this cut under a number.
    fn is_published_as(&self, node: usize, number: usize, cut: &[u32]) -> bool
        ensures { result ≡ is_same_on (market_lists self.now) node
            (cut_at ((market_state self.now).published node) number) (cut_of cut.now) }
    {
        self.is_same_on(node, self.cut_row(node, number), cut)
    }

    /// The greatest number under which a node published a cut, 0 if there is no such number.
    #[tactic(auto, using(crate::proofs::Loops::greatest_turns), unfolding(crate::specs::State::greatest_number))]
    fn greatest_number(&self, node: usize, cut: &[u32]) -> usize
        ensures { result ≡ greatest_number (market_lists self.now)
            ((market_state self.now).published node) node (cut_of cut.now)
            (length ((market_state self.now).published node)) }
    {
        let newest = self.published_by(node);
        for back in 0..newest {
            let number = newest - back;
            if self.is_published_as(node, number, cut) {
                return number;
            }
        }
        0
    }

    /// The number that a cut contains of a node.
    #[tactic(auto, unfolding(crate::specs::State::number_of))]
    fn number(&self, node: usize, cut: &[u32]) -> usize
        ensures { result ≡ number (market_lists self.now) (market_state self.now) node
            (cut_of cut.now) }
    {
        if self.is_leaf(node) {
            item_at(cut, node, 0) as usize
        } else {
            self.greatest_number(node, cut)
        }
    }

    /// How many numbers of a node lie above the one that the last price passed to it names.
    fn unanswered(&self, node: usize) -> usize
        ensures { result ≡ newest_number_of (market_lists self.now)
            (market_state self.now) node - number (market_lists self.now)
            (market_state self.now) node
            (cleared_cut (market_state self.now) (last_index (market_state self.now) node)) }
    {
        let cut = self.cut_row(0, self.last(node));
        self.newest(node).saturating_sub(self.number(node, cut))
    }

    /// Whether a clearing was passed to a node.
    fn was_passed(&self, node: usize, index: usize) -> bool
        ensures { result ≡ is_one_of ((market_state self.now).passed node) index }
    {
        is_among(row_at(&self.passed, node), index)
    }

    /// Whether a clearing reached a node: the auctioneer made it, or it was passed to the node.
    fn has_reached(&self, node: usize, index: usize) -> bool
        ensures { result ≡ has_reached (market_state self.now) node index }
    {
        (node == 0 && 1 <= index && index <= self.published_by(0)) || self.was_passed(node, index)
    }

    /// Whether a clearing addresses a node.
    #[tactic(auto, unfolding(crate::specs::State::addresses_of))]
    fn is_addressed(&self, node: usize, index: usize) -> bool
        ensures { result ≡ addresses (market_lists self.now) (market_state self.now) index node }
    {
        let cut = self.cut_row(0, index);
        if self.is_leaf(node) {
            self.is_member(node, item_at(cut, node, 0) as usize)
        } else {
            !self.is_same_on(node, cut, &[])
        }
    }

    /// Whether it is a device or a concentrator.
    fn is_node(&self, node: usize) -> bool
        ensures { result ≡ is_node (market_lists self.now) node }
    {
        1 <= node && node <= self.parents.len()
    }
}
