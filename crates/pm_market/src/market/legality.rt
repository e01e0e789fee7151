//! The tests of which moves are legal in the market of cuts.

use super::Market;
use crate::moves::Move;
use crate::rows::item_at;
use pm_base::WINDOW_SIZE;

/// Which moves are legal.
impl Market {
    ghost use Rattle.std.specs.Prelude.{◌≡◌, ◌==◌, ◌+◌, ◌-◌, ◌≤◌, true, if◌then◌else◌, length, not};
    ghost use Rattle.pm_market.specs.Lists.{is_leaf, nodes, end_count};
    ghost use Rattle.pm_market.specs.State.{all_to, newest_number_of, clearings};
    ghost use Rattle.pm_market.specs.Legality.{learn_is_legal, publish_is_legal, clear_is_legal, pass_is_legal, change_is_legal, close_is_legal, is_idle};
    ghost use Rattle.pm_market.specs.Legality.{is_idle_at, is_legal, are_made};
    ghost use Rattle.pm_market.specs.Market.{market_lists, market_state};

    /// Whether the parent of a node may learn a number of it.
    #[tactic(auto, unfolding(crate::specs::Legality::learn_is_legal))]
    fn may_learn(&self, child: usize, number: usize) -> bool
        ensures { result ≡ learn_is_legal (market_lists self.now)
            (market_state self.now) child number }
    {
        self.is_node(child)
            && (self.learnt(child) as usize) < number
            && number <= self.newest(child)
    }

    /// Whether a concentrator may publish, under its next number.
    fn may_publish(&self, node: usize) -> bool
        ensures { result ≡ publish_is_legal (market_lists self.now) (market_state self.now) node
            (newest_number_of (market_lists self.now) (market_state self.now) node + 1) }
    {
        self.is_node(node)
            && !self.is_leaf(node)
            && !self.knows_same(node)
            && self.unanswered(node) < WINDOW_SIZE as usize
    }

    /// Whether a concentrator may publish under a number.
    #[tactic(auto, unfolding(crate::specs::Legality::publish_is_legal))]
    fn may_publish_as(&self, node: usize, number: usize) -> bool
        ensures { result ≡ publish_is_legal (market_lists self.now)
            (market_state self.now) node number }
    {
        number > 0 && number - 1 == self.newest(node) && self.may_publish(node)
    }

    /// Whether the auctioneer may clear, under its next index.
    #[tactic(auto, unfolding(crate::specs::Legality::clear_is_legal))]
    fn may_clear(&self) -> bool
        ensures { result ≡ clear_is_legal (market_lists self.now) (market_state self.now)
            (clearings (market_state self.now) + 1) }
    {
        !self.knows_same(0)
    }

    /// Whether the auctioneer may clear under an index.
    #[tactic(auto, unfolding(crate::specs::Legality::clear_is_legal))]
    fn may_clear_as(&self, index: usize) -> bool
        ensures { result ≡ clear_is_legal (market_lists self.now) (market_state self.now) index }
    {
        index > 0 && index - 1 == self.published_by(0) && self.may_clear()
    }

    /// Whether a clearing may be passed to a node.
    #[tactic(auto, unfolding(crate::specs::Legality::pass_is_legal))]
    fn may_pass(&self, node: usize, index: usize) -> bool
        ensures { result ≡ pass_is_legal (market_lists self.now)
            (market_state self.now) node index }
    {
        self.is_node(node)
            && self.last(node) < index
            && self.is_addressed(node, index)
            && self.has_reached(self.parent(node), index)
    }

    /// Whether no clearing may be passed to a node.
    fn may_pass_none(&self, node: usize) -> bool
        ensures { result ≡ all_to (clearings (market_state self.now))
            (λ j. not (pass_is_legal (market_lists self.now) (market_state self.now) node j)) }
    {
        !self.is_node(node) || self.due(node) <= self.last(node)
    }

    /// Whether no move of this node is legal.
    #[tactic(auto, unfolding(crate::specs::Legality::is_idle_at))]
    fn is_idle_at(&self, node: usize) -> bool
        ensures { result ≡ is_idle_at (market_lists self.now) (market_state self.now) node }
    {
        !self.may_learn(node, self.newest(node))
            && !self.may_publish(node)
            && self.may_pass_none(node)
    }

    /// Whether no node move is legal.
    #[tactic(auto, using(crate::proofs::Loops::all_to_turns), unfolding(crate::specs::State::all_to, crate::specs::Legality::is_idle))]
    fn is_idle(&self) -> bool
        ensures { result ≡ is_idle (market_lists self.now) (market_state self.now) }
    {
        for before in 0..self.parents.len() {
            if !self.is_idle_at(before + 1) {
                return false;
            }
        }
        !self.may_clear()
    }

    /// Whether a device may make a change.
    #[tactic(auto, unfolding(crate::specs::Legality::change_is_legal))]
    fn may_change(&self, device: usize, number: u32) -> bool
        ensures { result ≡ change_is_legal (market_lists self.now)
            (market_state self.now) device number }
    {
        self.is_leaf(device)
            && (self.closed as usize) < self.ends.len()
            && number > 0
            && number - 1 == item_at(&self.counts, device, 0)
            && number <= self.end(self.closed as usize + 1, device)
    }

    /// Whether a node is no device, or its changes of the phases up to this one are made.
    fn is_made_at(&self, phase: usize, node: usize) -> bool
        ensures { result ≡ (if is_leaf (market_lists self.now) node
            then (market_state self.now).counts node == end_count
            (market_lists self.now) phase node else true) }
    {
        !self.is_leaf(node) || item_at(&self.counts, node, 0) == self.end(phase, node)
    }

    /// Whether just the changes of the phases up to this one are made.
    #[tactic(auto, using(crate::proofs::Loops::all_to_turns), unfolding(crate::specs::State::all_to, crate::specs::Legality::are_made))]
    fn are_made(&self, phase: usize) -> bool
        ensures { result ≡ are_made (market_lists self.now) (market_state self.now) phase }
    {
        for before in 0..self.parents.len() {
            if !self.is_made_at(phase, before + 1) {
                return false;
            }
        }
        true
    }

    /// Whether a phase may be closed.
    #[tactic(auto, unfolding(crate::specs::Legality::close_is_legal))]
    fn may_close(&self, phase: usize) -> bool
        ensures { result ≡ close_is_legal (market_lists self.now) (market_state self.now) phase }
    {
        phase > 0
            && phase - 1 == self.closed as usize
            && phase <= self.ends.len()
            && self.are_made(phase)
            && self.is_idle()
    }

    /// Whether a move is legal, by the test that agrees with the definition for lawful lists and a sound state.
    #[tactic(auto, unfolding(crate::specs::Legality::is_legal))]
    pub fn is_legal(&self, what: Move) -> bool
        ensures { result ≡ is_legal (market_lists self.now) (market_state self.now) what }
    {
        match what {
            Move::Change { device, number } => self.may_change(device as usize, number),
            Move::Learn { child, number } => self.may_learn(child as usize, number as usize),
            Move::Publish { node, number } => self.may_publish_as(node as usize, number as usize),
            Move::Clear { index } => self.may_clear_as(index as usize),
            Move::Pass { node, index } => self.may_pass(node as usize, index as usize),
            Move::Close { phase } => self.may_close(phase as usize),
        }
    }
}
