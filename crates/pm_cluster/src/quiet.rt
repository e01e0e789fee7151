//! Which node has a move to make, and what the cluster holds once no node has one.

ghost use Rattle.std.specs.Prelude.{◌≡◌, ℕ, ◌<◌, ◌≤◌, ◌↔◌, length, true, Some, None, IsTrue, IsFalse, IfSome, MatchOption};
ghost use Rattle.pm_basis.specs.Prices.{price_at};
ghost use Rattle.pm_cache.specs.Cache.{aggregate_of};
ghost use Rattle.pm_market.specs.Lists.{nodes, IsLeaf, is_member};
ghost use Rattle.pm_market.specs.State.{State, knowledge, clearings, cleared_cut};
ghost use Rattle.pm_market.specs.Moves.{Idle};
ghost use Rattle.pm_session.specs.Links.{IsTaken};
ghost use Rattle.pm_session.specs.Prices.{session_at};
ghost use Rattle.pm_plan.specs.Auction.{total, plain_step};
ghost use Rattle.pm_plan.specs.States.{state};
ghost use Rattle.pm_plan.specs.Market.{plan_lists};
ghost use Rattle.pm_offer.specs.Offers.{children_sum, local_step_at};
ghost use Rattle.pm_plan.specs.Kept.{IsPlan};
ghost use Rattle.pm_stands.specs.Rows.{CannotPublish};
ghost use Rattle.pm_stands.specs.Quiet.{IsQuiet};
ghost use Rattle.pm_stands.specs.Still.{IsStill};
ghost use Rattle.pm_stands.specs.Stands.{StandsFor};
ghost use Rattle.pm_stands.specs.Actors.{NoMoveOf};
ghost use Rattle.pm_stands.specs.Current.{held_price, IsCurrent};
ghost use Rattle.pm_cluster.specs.Waiting.{NoBids, NothingToSend, NoPrice, NothingBelow, IsAtRest};

use crate::cluster::Cluster;
use crate::tree::{parent_of, place_in_row};
use pm_bid::ArrayBid;
use pm_concentrator::Concentrator;
use pm_plan::is_device;
use pm_session::{Held, Link};
use pm_tree::NodeId;

impl<'p> Cluster<'p> {
    /// Whether nothing is pending: no `Learn`, `Publish`, `Clear` or `Pass` is legal. Then everything is over all current
    /// bids.
    pub fn idle(&self) -> bool
        ensures quiet { IsTrue result ↔ IsQuiet self.now.plan self.now.core }
        ensures idle { (s : State) → StandsFor self.now.plan self.now.core s →
            IsTrue result ↔ Idle (plan_lists self.now.plan) s }
        ensures current { IsTrue result → (s : State) → StandsFor self.now.plan self.now.core s →
            IsCurrent self.now.plan self.now.core s }
    {
        let last = self.plan.tree().len();
        for number in 0..last + 1 {
            if self.is_busy(NodeId(number)) {
                return false;
            }
        }
        true
    }

    /// Whether a message waits on the links of a node to its children, or the node can publish or clear.
    fn is_busy(&self, node: NodeId) -> bool
        requires inside { node.0 ≤ nodes (plan_lists self.now.plan) }
        ensures rests { IsFalse result ↔ IsAtRest self.now.plan self.now.core node.0 }
    {
        self.waits_below(node) || self.can_send(node)
    }

    /// Whether a bid or a price waits on one of the links of a node to its children.
    fn waits_below(&self, node: NodeId) -> bool
        requires inside { node.0 ≤ nodes (plan_lists self.now.plan) }
        ensures nothing { IsFalse result ↔ NothingBelow self.now.plan self.now.core node.0 }
    {
        message_waits(&self.links[node.0 as usize])
    }

    /// The lowest node that [`Cluster::step`] would move; None exactly if the cluster is idle.
    pub fn next_node(&self) -> Option<NodeId>
        ensures sound { IsPlan self.now.plan }
        ensures inside { IfSome result (λ node. node.0 ≤ nodes (plan_lists self.now.plan)) }
        ensures still { MatchOption result
            ((x : ℕ) → x ≤ nodes (plan_lists self.now.plan) → IsStill self.now.plan self.now.core x)
            (λ node. (IsStill self.now.plan self.now.core node.0 → ⊥)
            × ((x : ℕ) → x < node.0 → IsStill self.now.plan self.now.core x)) }
        ensures moved { (s : State) → StandsFor self.now.plan self.now.core s →
            MatchOption result (Idle (plan_lists self.now.plan) s)
            (λ node. (NoMoveOf (plan_lists self.now.plan) s node.0 → ⊥)
            × ((x : ℕ) → x < node.0 → NoMoveOf (plan_lists self.now.plan) s x)) }
    {
        for number in 0..self.plan.tree().len() + 1 {
            let node = NodeId(number);
            if self.has_move(node) {
                return Some(node);
            }
        }
        None
    }

    /// Whether a node has a move to make.
    fn has_move(&self, node: NodeId) -> bool
        requires inside { node.0 ≤ nodes (plan_lists self.now.plan) }
        ensures still { IsFalse result ↔ IsStill self.now.plan self.now.core node.0 }
    {
        self.can_learn(node) || self.can_send(node) || self.can_take(node)
    }

    /// Whether a bid waits on the link of a child.
    fn can_learn(&self, node: NodeId) -> bool
        requires inside { node.0 ≤ nodes (plan_lists self.now.plan) }
        ensures bids { IsFalse result ↔ NoBids self.now.plan self.now.core node.0 }
    {
        bid_waits(&self.links[node.0 as usize])
    }

    /// Whether a concentrator can publish, or the auctioneer clear.
    fn can_send(&self, node: NodeId) -> bool
        requires inside { node.0 ≤ nodes (plan_lists self.now.plan) }
        ensures nothing { IsFalse result ↔ NothingToSend self.now.plan self.now.core node.0 }
    {
        if node.0 == 0 {
            return self.auctioneer.changed();
        }
        if is_device(self.plan, node) {
            return false;
        }
        match &self.concentrators[node.0 as usize] {
            None => unreachable!(),
            Some(concentrator) => can_publish(concentrator),
        }
    }

    /// Whether a price waits on the link to the parent.
    fn can_take(&self, node: NodeId) -> bool
        requires inside { node.0 ≤ nodes (plan_lists self.now.plan) }
        ensures price { IsFalse result ↔ NoPrice self.now.plan self.now.core node.0 }
    {
        if node.0 == 0 {
            return false;
        }
        let parent = parent_of(self.plan, node);
        let place = place_in_row(self.plan, node);
        self.links[parent][place].prices_waiting()
    }

    /// The price that a device holds: that of the clearing passed to it last, unless that is of a former membership.
    ///
    /// Whoever holds a price has its own bid in it. The price names the device's number in the cut of its clearing, at which
    /// the device is a member. Its step is the device's local step over that cut.
    pub fn held(&self, device: NodeId) -> Option<Held>
        requires leaf { IsLeaf (plan_lists self.now.plan) device.0 }
        ensures held { (s : State) → StandsFor self.now.plan self.now.core s →
            result ≡ held_price self.now.plan s device.0 }
        ensures current { (s : State) → StandsFor self.now.plan self.now.core s →
            Idle (plan_lists self.now.plan) s →
            is_member (plan_lists self.now.plan) device.0 (s.counts device.0) ≡ true →
            result ≡ Some
            (record {
              step = local_step_at self.now.plan s.counts device.0;
              number = s.counts device.0;
              index = clearings s;
            }) }
        ensures member { (s : State) → StandsFor self.now.plan self.now.core s →
            IfSome result (λ price. is_member (plan_lists self.now.plan) device.0 price.number
            ≡ true) }
        ensures made { (s : State) → StandsFor self.now.plan self.now.core s →
            IfSome result (λ price. price.number ≤ s.counts device.0) }
        ensures cleared { (s : State) → StandsFor self.now.plan self.now.core s →
            IfSome result (λ price. (1 ≤ price.index) × (price.index ≤ clearings s)) }
        ensures own { (s : State) → StandsFor self.now.plan self.now.core s →
            IfSome result (λ price. price.number ≡ cleared_cut s price.index device.0) }
        ensures step { (s : State) → StandsFor self.now.plan self.now.core s →
            IfSome result
            (λ price. price.step ≡ local_step_at self.now.plan
            (cleared_cut s price.index) device.0) }
    {
        self.ports[device.0 as usize].held()
    }

    /// The price of the auctioneer's step, in price units; that of step 0 before the first clearing.
    pub fn price(&self) -> i64
        ensures price { result ≡ price_at self.now.plan.basis self.now.core.auctioneer.step }
        ensures current { (s : State) → StandsFor self.now.plan self.now.core s →
            Idle (plan_lists self.now.plan) s →
            result ≡ price_at self.now.plan.basis
            (plain_step self.now.plan (state self.now.plan) s.counts) }
    {
        self.plan.basis().price(self.auctioneer.step() as usize)
    }

    /// The auctioneer's sum of the bids that it learnt last, in watts at each step. It is the sum of what its children offer
    /// over the changes that it knows. If the cluster is idle, it is the total over all current bids.
    pub fn aggregate(&self) -> &ArrayBid
        ensures sum { result.now ≡ aggregate_of self.now.core.auctioneer.cache }
        ensures known { (s : State) → StandsFor self.now.plan self.now.core s →
            result.now ≡ children_sum self.now.plan 0 (knowledge (plan_lists self.now.plan) s 0) }
        ensures current { (s : State) → StandsFor self.now.plan self.now.core s →
            Idle (plan_lists self.now.plan) s →
            result.now ≡ total self.now.plan (state self.now.plan) s.counts }
    {
        self.auctioneer.cache().aggregate()
    }
}

/// Whether a concentrator has something to publish and room for it.
fn can_publish(concentrator: &Concentrator) -> bool
    ensures cannot { IsFalse result ↔ CannotPublish concentrator.now }
{
    concentrator.changed() && concentrator.room() > 0
}

/// Whether a bid waits on one of the links.
fn bid_waits(row: &[Link]) -> bool
    ensures none { IsFalse result
        ↔ ((k : ℕ) → k < length row.now → (session_at row.now k).up.offered
        ≡ (session_at row.now k).up.taken) }
{
    for link in row {
        if link.bids_waiting() {
            return true;
        }
    }
    false
}

/// Whether a bid or a price waits on one of the links.
fn message_waits(row: &[Link]) -> bool
    ensures none { IsFalse result
        ↔ ((k : ℕ) → k < length row.now → IsTaken (session_at row.now k)) }
{
    for link in row {
        if link.waits() {
            return true;
        }
    }
    false
}
