//! The moves of each node: learn, publish, pass, take and clear.

ghost use Rattle.std.specs.Prelude.{◌≡◌, ℕ, ◌≤◌, Some, None, IfSome, MatchOption};
ghost use Rattle.pm_market.specs.Lists.{nodes, parent, IsNode, IsLeaf, IsConcentrator};
ghost use Rattle.pm_market.specs.State.{State};
ghost use Rattle.pm_market.specs.Moves.{Legal};
ghost use Rattle.pm_market.specs.declared.moves.Act.{Act};
ghost use Rattle.pm_market.specs.declared.moves.Move.{Move};
ghost use Rattle.pm_plan.specs.Market.{plan_lists};
ghost use Rattle.pm_stands.specs.Stands.{StandsFor, MakesMove};
ghost use Rattle.pm_stands.specs.Actors.{IsMoveOf};
ghost use Rattle.pm_cluster.specs.Acts.{IsMadeBy, IsMadeOf};

use crate::cluster::Cluster;
use crate::links::{take_bid, take_price};
use crate::parts;
use crate::tree::{parent_of, place_in_row};
use pm_market::Move;
use pm_plan::is_device;
use pm_tree::NodeId;

impl<'p> Cluster<'p> {
    /// The parent of a node learns the bid that waits on the node's link.
    pub(crate) fn learn(&mut self, child: NodeId) -> Option<Move>
        requires node { IsNode (plan_lists self.old.plan) child.0 }
        ensures { IsMadeBy (Act.Learn child.0) self.old self.new result }
    {
        let parent = parent_of(self.plan, child);
        let place = place_in_row(self.plan, child);
        let Some(head) = take_bid(&mut self.links, parent, place, &mut self.spare) else {
            return None;
        };
        parts::learn(
            &mut self.auctioneer,
            &mut self.concentrators,
            parent,
            place,
            head,
            &mut self.spare,
        );
        Some(Move::Learn {
            child: child.0,
            number: head.number,
        })
    }

    /// A concentrator publishes what it knows.
    pub(crate) fn publish(&mut self, node: NodeId) -> Option<Move>
        requires concentrator { IsConcentrator (plan_lists self.old.plan) node.0 }
        ensures { IsMadeBy (Act.Publish node.0) self.old self.new result }
    {
        let parent = parent_of(self.plan, node);
        let place = place_in_row(self.plan, node);
        let at = node.0 as usize;
        let Some(number) = parts::publish(
            &mut self.concentrators,
            &mut self.links,
            at,
            parent,
            place,
        ) else {
            return None;
        };
        Some(Move::Publish {
            node: node.0,
            number,
        })
    }

    /// A concentrator takes the price that waits on its link, and passes it on to its children.
    pub(crate) fn pass_on(&mut self, node: NodeId) -> Option<Move>
        requires concentrator { IsConcentrator (plan_lists self.old.plan) node.0 }
        ensures { IsMadeBy (Act.Pass node.0) self.old self.new result }
    {
        let parent = parent_of(self.plan, node);
        let place = place_in_row(self.plan, node);
        let Some(price) = take_price(&mut self.links, parent, place) else {
            return None;
        };
        parts::pass(
            &mut self.concentrators,
            &mut self.links,
            node.0 as usize,
            price,
        );
        Some(Move::Pass {
            node: node.0,
            index: price.index,
        })
    }

    /// A device takes the price that waits on its link.
    pub(crate) fn take(&mut self, device: NodeId) -> Option<Move>
        requires leaf { IsLeaf (plan_lists self.old.plan) device.0 }
        ensures { IsMadeBy (Act.Pass device.0) self.old self.new result }
    {
        let parent = parent_of(self.plan, device);
        let place = place_in_row(self.plan, device);
        let Some(price) = take_price(&mut self.links, parent, place) else {
            return None;
        };
        self.ports[device.0 as usize].price(price);
        Some(Move::Pass {
            node: device.0,
            index: price.index,
        })
    }

    /// The auctioneer clears.
    pub(crate) fn clear(&mut self) -> Option<Move>
        ensures { IsMadeBy Act.Clear self.old self.new result }
    {
        let Some(cleared) = parts::clear(&mut self.auctioneer, &mut self.links) else {
            return None;
        };
        Some(Move::Clear {
            index: cleared.index,
        })
    }

    /// A node learns from the first of its children that has a bid waiting.
    pub(crate) fn learn_any(&mut self, node: NodeId) -> Option<Move>
        requires inside { node.0 ≤ nodes (plan_lists self.old.plan) }
        ensures plan { self.new.plan ≡ self.old.plan }
        ensures mine { IfSome result (λ what. IsMoveOf (plan_lists self.old.plan) node.0 what) }
        ensures none { result ≡ None → self.new ≡ self.old }
        ensures made { (s : State) → StandsFor self.old.plan self.old.core s → MatchOption result
            ((child number : ℕ) → parent (plan_lists self.old.plan) child ≡ node.0 →
            Legal (plan_lists self.old.plan) s (Move.Learn child number) → ⊥)
            (λ what. MakesMove self.old.plan self.new.core s what) }
    {
        let plan = self.plan;
        for child in plan.tree().children(node) {
            let made = self.learn(*child);
            if made.is_some() {
                return made;
            }
        }
        None
    }

    /// A node makes one of its moves, if one is legal.
    pub(crate) fn move_of(&mut self, node: NodeId) -> Option<Move>
        requires inside { node.0 ≤ nodes (plan_lists self.old.plan) }
        ensures { IsMadeOf node.0 self.old self.new result }
    {
        if node.0 == 0 {
            return self.move_of_auctioneer();
        }
        if is_device(self.plan, node) {
            return self.take(node);
        }
        self.move_of_concentrator(node)
    }

    fn move_of_auctioneer(&mut self) -> Option<Move>
        ensures { IsMadeOf 0 self.old self.new result }
    {
        let made = self.learn_any(NodeId(0));
        if made.is_some() {
            return made;
        }
        self.clear()
    }

    fn move_of_concentrator(&mut self, node: NodeId) -> Option<Move>
        requires concentrator { IsConcentrator (plan_lists self.old.plan) node.0 }
        ensures { IsMadeOf node.0 self.old self.new result }
    {
        let made = self.learn_any(node);
        if made.is_some() {
            return made;
        }
        let made = self.publish(node);
        if made.is_some() {
            return made;
        }
        self.pass_on(node)
    }
}
