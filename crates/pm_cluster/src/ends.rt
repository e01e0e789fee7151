//! Writes the end of a phase from what the nodes hold, and closes the open phase.

ghost use Rattle.std.specs.Prelude.{◌≡◌, ℕ, ℤ, ◌+◌, ◌<◌, ◌≤◌, ◌++◌, pos, length, slice_index_or, true, false, is_some, Some, None};
ghost use Rattle.std.specs.Prelude.{IfOk, IsTrue, IsFalse, ◌↔◌, if◌then◌else◌};
ghost use Rattle.pm_market.specs.Lists.{nodes, parent, IsLeaf};
ghost use Rattle.pm_market.specs.State.{State};
ghost use Rattle.pm_market.specs.Moves.{Legal};
ghost use Rattle.pm_market.specs.declared.moves.Move.{Move};
ghost use Rattle.pm_plan.specs.Plans.{phases, end_cut, is_limited};
ghost use Rattle.pm_plan.specs.Auction.{power};
ghost use Rattle.pm_plan.specs.States.{end_of};
ghost use Rattle.pm_plan.specs.Market.{plan_lists};
ghost use Rattle.pm_offer.specs.EndLines.{TellsEnd};
ghost use Rattle.pm_stands.specs.Quiet.{IsQuiet};
ghost use Rattle.pm_stands.specs.Stands.{StandsFor, MakesMove};
ghost use Rattle.pm_stands.specs.Current.{kept_power, kept_line};
ghost use Rattle.pm_cluster.specs.Next.{count_of};
ghost use Rattle.pm_cluster.specs.Ends.{member_at, limited_at, AreMade, MayClose, EntryTold, power_by_entry};

use crate::cluster::Cluster;
use crate::tree::{parent_of, place_in_row};
use pm_auctioneer::Auctioneer;
use pm_base::Limits;
use pm_bid::uncounted;
use pm_concentrator::Concentrator;
use pm_plan::{LimitedLine, MemberLine, PhaseEnd, Plan, is_device};
use pm_session::Port;
use pm_tree::NodeId;
use std::alloc::{AllocError, Global};

impl<'p> Cluster<'p> {
    /// The end over all changes made so far, which is that of the plain auction. If these are the changes of the phases up to
    /// one, it is the end of that phase. Its lines tell the clearing step and its price, the power of each member, and the
    /// step and the sum of each limited concentrator. The cluster must be idle. The answer is an error only if an allocation
    /// fails.
    pub fn phase_end(&self, alloc: Global) -> Result<PhaseEnd, AllocError>
        requires quiet { IsQuiet self.now.plan self.now.core }
        ensures end { (s : State) → StandsFor self.now.plan self.now.core s →
            IfOk result (λ e. e.end ≡ end_of self.now.plan s.counts) }
        ensures phase { (s : State) (p : ℕ) → StandsFor self.now.plan self.now.core s →
            AreMade self.now.plan s.counts p →
            IfOk result (λ e. e.end ≡ end_of self.now.plan (end_cut self.now.plan p)) }
        ensures tells { (s : State) → StandsFor self.now.plan self.now.core s →
            IfOk result (λ e. TellsEnd self.now.plan s.counts e.end) }
        ensures tells_phase { (s : State) (p : ℕ) → StandsFor self.now.plan self.now.core s →
            AreMade self.now.plan s.counts p →
            IfOk result (λ e. TellsEnd self.now.plan (end_cut self.now.plan p) e.end) }
    {
        let mut end = PhaseEnd::vacant(alloc, self.plan)?;
        self.phase_end_into(&mut end);
        Ok(end)
    }

    /// Makes `out` the end over all changes made so far, within its room, as `phase_end` gives it. The cluster must be idle.
    #[tactic(auto, using(crate::proofs::Parents::nodes_are, crate::proofs::Parents::leaf_is))]
    pub fn phase_end_into(&self, out: &mut PhaseEnd)
        requires quiet { IsQuiet self.now.plan self.now.core }
        requires members { nodes (plan_lists self.now.plan)
            ≤ out.old.member_room + length out.old.end.members }
        requires limited { nodes (plan_lists self.now.plan)
            ≤ out.old.limited_room + length out.old.end.limited }
        ensures end { (s : State) → StandsFor self.now.plan self.now.core s →
            out.new.end ≡ end_of self.now.plan s.counts }
        ensures phase { (s : State) (p : ℕ) → StandsFor self.now.plan self.now.core s →
            AreMade self.now.plan s.counts p →
            out.new.end ≡ end_of self.now.plan (end_cut self.now.plan p) }
        ensures tells { (s : State) → StandsFor self.now.plan self.now.core s →
            TellsEnd self.now.plan s.counts out.new.end }
        ensures tells_phase { (s : State) (p : ℕ) → StandsFor self.now.plan self.now.core s →
            AreMade self.now.plan s.counts p →
            TellsEnd self.now.plan (end_cut self.now.plan p) out.new.end }
    {
        let step = self.auctioneer.step();
        let sum = self.auctioneer.cache().aggregate();
        let total = sum.at(step as usize, &mut uncounted());
        out.begin(self.plan.basis(), step, total);
        for number in 1..self.plan.tree().len() + 1 {
            self.tell_member(NodeId(number), out);
            self.tell_limited(NodeId(number), out);
        }
    }

    /// Adds the line of a node that is a member.
    fn tell_member(&self, node: NodeId, out: &mut PhaseEnd)
        requires first { 1 ≤ node.0 }
        requires inside { node.0 ≤ nodes (plan_lists self.now.plan) }
        requires quiet { IsQuiet self.now.plan self.now.core }
        requires room { 1 ≤ out.old.member_room }
        ensures end { (s : State) → StandsFor self.now.plan self.now.core s →
            out.new.end ≡ record out.old.end
            { members = out.old.end.members ++ member_at self.now.plan s.counts node.0 } }
        ensures members { out.old.member_room ≤ out.new.member_room + 1 }
        ensures limited { out.new.limited_room ≡ out.old.limited_room }
    {
        let at = node.0 as usize;
        if is_device(self.plan, node) && self.members[at] {
            let power = self.power(node);
            out.add_member(MemberLine {
                node: node.0,
                power,
                number: self.counts[at],
            });
        }
    }

    /// Adds the line of a node that is a limited concentrator.
    fn tell_limited(&self, node: NodeId, out: &mut PhaseEnd)
        requires first { 1 ≤ node.0 }
        requires inside { node.0 ≤ nodes (plan_lists self.now.plan) }
        requires quiet { IsQuiet self.now.plan self.now.core }
        requires room { 1 ≤ out.old.limited_room }
        ensures end { (s : State) → StandsFor self.now.plan self.now.core s →
            out.new.end ≡ record out.old.end
            { limited = out.old.end.limited ++ limited_at self.now.plan s.counts node.0 } }
        ensures members { out.new.member_room ≡ out.old.member_room }
        ensures limited { out.old.limited_room ≤ out.new.limited_room + 1 }
    {
        if self.plan.limits(node).is_some() {
            out.add_limited(self.limited_line(node));
        }
    }

    /// The power of a device in watts, by the price that it holds and the entry that its parent has of it.
    fn power(&self, device: NodeId) -> i64
        requires leaf { IsLeaf (plan_lists self.now.plan) device.0 }
        ensures power { result ≡ kept_power self.now.plan self.now.core device.0 }
    {
        power_of(
            self.plan,
            &self.auctioneer,
            &self.concentrators,
            &self.ports,
            device,
        )
    }

    /// The line of a limited concentrator: the step of the nodes below it, and the sum of its children's bids there.
    fn limited_line(&self, node: NodeId) -> LimitedLine
        requires inside { node.0 ≤ nodes (plan_lists self.now.plan) }
        requires limited { is_limited self.now.plan node.0 ≡ true }
        ensures line { result ≡ kept_line self.now.plan self.now.core node.0 }
    {
        let step = self.auctioneer.step();
        match (&self.concentrators[node.0 as usize], self.plan.limits(node)) {
            (Some(concentrator), Some((floor, ceiling))) => {
                let sum = concentrator.cache().aggregate();
                let mut counter = uncounted();
                let limits = Limits { floor, ceiling };
                let local = sum.step_within(&limits, step as usize, &mut counter);
                LimitedLine {
                    node: node.0,
                    step: local as u32,
                    total: sum.at(local, &mut counter),
                }
            }
            _ => unreachable!(),
        }
    }

    /// Whether the open phase may be closed: all its changes are made, and the cluster is idle.
    fn may_close(&self) -> bool
        ensures may { IsTrue result ↔ MayClose self.now.plan self.now.core }
    {
        self.plan.phases() > self.closed && self.all_made() && self.idle()
    }

    /// Whether each device made all its changes of the open phase.
    #[tactic(auto, using(crate::proofs::Parents::nodes_are, crate::proofs::Parents::leaf_is))]
    fn all_made(&self) -> bool
        requires open_phase { self.now.core.closed < phases self.now.plan }
        ensures made { IsTrue result ↔ AreMade self.now.plan (count_of self.now.core)
            (self.now.core.closed + 1) }
    {
        for number in 1..self.plan.tree().len() + 1 {
            let at = number as usize;
            if is_device(self.plan, NodeId(number)) && self.counts[at] != self.due[at] {
                return false;
            }
        }
        true
    }

    /// Closes the open phase, if that is legal: all its changes are made, and the cluster is idle. Each device's power
    /// then is kept for a tick that follows. The answer is whether the phase was closed.
    #[tactic(auto, using(crate::proofs::Parents::nodes_are, crate::proofs::Parents::leaf_is))]
    pub fn close(&mut self) -> bool
        ensures plan { self.new.plan ≡ self.old.plan }
        ensures made { IsTrue result → (s : State) → StandsFor self.old.plan self.old.core s →
            MakesMove self.old.plan self.new.core s (Move.Close (s.closed + 1)) }
        ensures quiet { IsTrue result → IsQuiet self.new.plan self.new.core }
        ensures refused { IsFalse result → (s : State) → StandsFor self.old.plan self.old.core s →
            (phase : ℕ) → Legal (plan_lists self.old.plan) s (Move.Close phase) → ⊥ }
        ensures none { IsFalse result → self.new ≡ self.old }
    {
        if !self.may_close() {
            return false;
        }
        keep_powers(
            self.plan,
            &self.auctioneer,
            &self.concentrators,
            &self.ports,
            &mut self.powers,
        );
        self.closed += 1;
        add_due(self.plan, self.closed, &mut self.due);
        true
    }
}

/// The power of a device in watts, by the price that it holds and the entry that its parent has of it. If it holds no
/// price, the power is 0.
fn power_of(
    plan: &Plan,
    auctioneer: &Auctioneer,
    concentrators: &Vec<Option<Concentrator>>,
    ports: &Vec<Port>,
    device: NodeId,
) -> i64
    requires told { EntryTold plan.now auctioneer.now concentrators.now.items ports.now.items
        device.0 }
    ensures power { result ≡ power_by_entry plan.now auctioneer.now concentrators.now.items
        ports.now.items device.0 }
{
    let Some(price) = ports[device.0 as usize].held() else {
        return 0;
    };
    let parent = parent_of(plan, device);
    let place = place_in_row(plan, device);
    let step = price.step as usize;
    let mut counter = uncounted();
    if parent == 0 {
        return auctioneer.cache().demand(place, step, &mut counter);
    }
    match &concentrators[parent] {
        None => unreachable!(),
        Some(concentrator) => concentrator.cache().demand(place, step, &mut counter),
    }
}

/// Keeps the power of each device.
#[tactic(auto, using(crate::proofs::Parents::nodes_are, crate::proofs::Parents::leaf_is))]
fn keep_powers(
    plan: &Plan,
    auctioneer: &Auctioneer,
    concentrators: &Vec<Option<Concentrator>>,
    ports: &Vec<Port>,
    powers: &mut Vec<i64>,
)
    requires told { (d : ℕ) → IsLeaf (plan_lists plan.now) d →
        EntryTold plan.now auctioneer.now concentrators.now.items ports.now.items d }
    requires same_length { length powers.old.items ≡ nodes (plan_lists plan.now) + 1 }
    ensures same_length { length powers.new.items ≡ length powers.old.items }
    ensures kept { (d : ℕ) → IsLeaf (plan_lists plan.now) d →
        slice_index_or powers.new.items d (pos 0)
        ≡ power_by_entry plan.now auctioneer.now concentrators.now.items ports.now.items d }
{
    for number in 1..plan.tree().len() + 1 {
        let node = NodeId(number);
        if is_device(plan, node) {
            powers[number as usize] = power_of(plan, auctioneer, concentrators, ports, node);
        }
    }
}

/// Adds to what is due of each device its changes of the phase after the closed ones, if there is one.
#[tactic(auto, using(crate::proofs::Parents::nodes_are, crate::proofs::Parents::leaf_is))]
fn add_due(plan: &Plan, closed: u32, due: &mut Vec<u32>)
    requires closed { closed ≤ phases plan.now }
    requires same_length { length due.old.items ≡ nodes (plan_lists plan.now) + 1 }
    requires before { (d : ℕ) → IsLeaf (plan_lists plan.now) d →
        slice_index_or due.old.items d 0 ≡ end_cut plan.now closed d }
    ensures same_length { length due.new.items ≡ length due.old.items }
    ensures after { closed < phases plan.now → (d : ℕ) → IsLeaf (plan_lists plan.now) d →
        slice_index_or due.new.items d 0 ≡ end_cut plan.now (closed + 1) d }
{
    if closed == plan.phases() {
        return;
    }
    for number in 1..plan.tree().len() + 1 {
        let node = NodeId(number);
        if is_device(plan, node) {
            due[number as usize] += plan.changes_of(closed + 1, node);
        }
    }
}
