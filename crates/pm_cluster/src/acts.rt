//! The cluster's calls that make one move of a node, one act, or a list of acts.

ghost use Rattle.std.specs.Prelude.{◌≡◌, ◌+◌, ◌≤◌, if◌then◌else◌, [], length, Ok, Some, None, IfOk, IfErr, IfSome};
ghost use Rattle.std.specs.Prelude.{MatchOption};
ghost use Rattle.pm_market.specs.Lists.{nodes, is_leaf};
ghost use Rattle.pm_market.specs.State.{State, start};
ghost use Rattle.pm_market.specs.Moves.{act_of};
ghost use Rattle.pm_plan.specs.Market.{plan_lists};
ghost use Rattle.pm_plan.specs.Plans.{plan_bound};
ghost use Rattle.pm_market.specs.Held.{holding};
ghost use Rattle.pm_offer.specs.Offers.{local_step_at};
ghost use Rattle.pm_stands.specs.Stands.{StandsFor, MakesMove};
ghost use Rattle.pm_stands.specs.Actors.{IsMoveOf, NoMoveOf, IsMadeLine};
ghost use Rattle.pm_market.specs.declared.moves.Act.{Act};
ghost use Rattle.pm_cluster.specs.declared.fault.ActFault.{ActFault};
ghost use Rattle.pm_cluster.specs.Acts.{IsMadeBy, NotActed, IsRunOf, NeverGoesBack, AreRefused};

use crate::cluster::Cluster;
use crate::fault::{ActFault, ApplyFault};
use crate::tree::{is_concentrator, is_node};
use pm_market::{Act, Journal, Line, Move};
use pm_plan::{Plan, is_device};
use pm_tree::NodeId;
use std::alloc::{AllocError, Global};

impl<'p> Cluster<'p> {
    /// Makes one node move of a node, if one is legal. A node learns from its children, a concentrator publishes and
    /// passes a price on, the auctioneer clears, a device takes a price. None comes exactly if no such move is legal,
    /// and never an error.
    pub fn step(&mut self, node: NodeId) -> Result<Option<Line>, AllocError>
        requires inside { node.0 ≤ nodes (plan_lists self.old.plan) }
        ensures ok { IfErr result (λ e. ⊥) }
        ensures plan { self.new.plan ≡ self.old.plan }
        ensures mine { IfOk result (λ made. IfSome made
            (λ line. IsMoveOf (plan_lists self.old.plan) node.0 line.what)) }
        ensures none { result ≡ Ok None → self.new ≡ self.old }
        ensures made { (s : State) → StandsFor self.old.plan self.old.core s →
            IfOk result (λ made. MatchOption made
            (NoMoveOf (plan_lists self.old.plan) s node.0)
            (IsMadeLine self.old.plan self.new.core s)) }
    {
        match self.move_of(node) {
            None => Ok(None),
            Some(what) => Ok(Some(self.line_of(what))),
        }
    }

    /// The line of a move that was just made. After a price was passed to a device, it has the step and the number
    /// that the device then holds.
    fn line_of(&self, what: Move) -> Line
        ensures line { (s : State) → MakesMove self.now.plan self.now.core s what →
            IsMadeLine self.now.plan self.now.core s result }
        ensures what { result.what ≡ what }
    {
        let held = match what {
            Move::Pass { node, index: _ } => self.held_by(NodeId(node)),
            _ => None,
        };
        Line { what, held }
    }

    /// The step and the number that a device holds; None for any other node.
    fn held_by(&self, node: NodeId) -> Option<(u32, u32)>
        ensures held { (s : State) → StandsFor self.now.plan self.now.core s →
            result ≡ (if is_leaf (plan_lists self.now.plan) node.0
            then holding (plan_lists self.now.plan) (local_step_at self.now.plan) s node.0
            else None) }
    {
        if !is_device(self.plan, node) {
            return None;
        }
        let Some(price) = self.held(node) else {
            return None;
        };
        Some((price.step, price.number))
    }

    /// Makes the legal move of an act's form; for a change it computes the device's bid.
    ///
    /// `Illegal` comes exactly if no move of that form is legal. A node that does not exist or is of the wrong sort has no
    /// legal move. No memory is taken, so `NoMemory` never comes.
    pub fn act(&mut self, act: Act) -> Result<Line, ActFault>
        ensures plan { self.new.plan ≡ self.old.plan }
        ensures form { IfOk result (λ line. act_of line.what ≡ act) }
        ensures made { (s : State) → StandsFor self.old.plan self.old.core s →
            IfOk result (IsMadeLine self.old.plan self.new.core s) }
        ensures refused { (s : State) → StandsFor self.old.plan self.old.core s →
            IfErr result (NotActed self.old.plan s act) }
        ensures illegal { IfErr result (λ fault. fault ≡ ActFault.Illegal) }
        ensures unchanged { IfErr result (λ fault. self.new ≡ self.old) }
    {
        match self.move_by(act) {
            None => Err(ActFault::Illegal),
            Some(what) => Ok(self.line_of(what)),
        }
    }

    /// Makes the legal move of an act's form, if there is one.
    fn move_by(&mut self, act: Act) -> Option<Move>
        ensures { IsMadeBy act self.old self.new result }
    {
        match act {
            Act::Change { device } => self.change_by_plan(NodeId(device)),
            Act::Learn { child } => self.learn_from(NodeId(child)),
            Act::Publish { node } => self.publish_at(NodeId(node)),
            Act::Clear => self.clear(),
            Act::Pass { node } => self.pass_to(NodeId(node)),
            Act::Close => self.close_phase(),
        }
    }

    /// Makes the next change of a device, if it has one.
    fn change_by_plan(&mut self, device: NodeId) -> Option<Move>
        ensures { IsMadeBy (Act.Change device.0) self.old self.new result }
    {
        let plan = self.plan;
        if !is_device(plan, device) {
            return None;
        }
        let Some(next) = self.next(device) else {
            return None;
        };
        Some(self.make(next, plan.kind(device), None))
    }

    /// The parent of a node learns the node's newest bid, if that is legal.
    fn learn_from(&mut self, child: NodeId) -> Option<Move>
        ensures { IsMadeBy (Act.Learn child.0) self.old self.new result }
    {
        if !is_node(self.plan, child) {
            return None;
        }
        self.learn(child)
    }

    /// A concentrator publishes, if that is legal.
    fn publish_at(&mut self, node: NodeId) -> Option<Move>
        ensures { IsMadeBy (Act.Publish node.0) self.old self.new result }
    {
        if !is_concentrator(self.plan, node) {
            return None;
        }
        self.publish(node)
    }

    /// The newest price that waits for a node is passed to it, if there is one.
    fn pass_to(&mut self, node: NodeId) -> Option<Move>
        ensures { IsMadeBy (Act.Pass node.0) self.old self.new result }
    {
        if is_device(self.plan, node) {
            return self.take(node);
        }
        if !is_concentrator(self.plan, node) {
            return None;
        }
        self.pass_on(node)
    }

    /// Closes the open phase, if that is legal.
    fn close_phase(&mut self) -> Option<Move>
        ensures { IsMadeBy Act.Close self.old self.new result }
    {
        let phase = self.closed + 1;
        if !self.close() {
            return None;
        }
        Some(Move::Close { phase })
    }

    /// Opens a cluster and makes acts in their order; the journal has their lines.
    ///
    /// `Illegal` comes exactly at the first act of whose form no move is legal.
    pub fn apply(
        alloc: Global,
        plan: &'p Plan,
        acts: &[Act],
    ) -> Result<(Cluster<'p>, Journal), ApplyFault>
        ensures plan { IfOk result (λ made. made.0.plan ≡ plan.now) }
        ensures made { IfOk result (λ made. IsRunOf plan.now acts.now made.0.core made.1.lines) }
        ensures forward { IfOk result (λ made. NeverGoesBack plan.now made.1.lines) }
        ensures bounded { IfOk result (λ made. length made.1.lines ≤ plan_bound plan.now) }
        ensures illegal { IfErr result (λ fault. AreRefused plan.now acts.now fault) }
    {
        let mut cluster = Cluster::open(alloc, plan)?;
        let mut journal = Journal::new(alloc);
        cluster.act_each(acts, &mut journal)?;
        Ok((cluster, journal))
    }

    /// Makes acts in their order on a cluster that was just opened, and adds their lines to a journal without lines.
    fn act_each(&mut self, acts: &[Act], journal: &mut Journal) -> Result<(), ApplyFault>
        requires opened { StandsFor self.old.plan self.old.core start }
        requires no_lines { journal.old.lines ≡ [] }
        ensures plan { self.new.plan ≡ self.old.plan }
        ensures made { IfOk result (λ _. IsRunOf self.old.plan acts.now self.new.core
            journal.new.lines) }
        ensures illegal { IfErr result (λ fault. AreRefused self.old.plan acts.now fault) }
    {
        for (at, act) in acts.iter().enumerate() {
            match self.act(*act) {
                Ok(line) => journal.push(line)?,
                Err(ActFault::Illegal) => return Err(ApplyFault::Illegal { at }),
                Err(ActFault::NoMemory) => unreachable!(),
            }
        }
        Ok(())
    }
}
