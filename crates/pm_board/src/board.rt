//! The value behind the lock of a run: a cluster, its journal, and the ends of its phases.

ghost use Rattle.std.specs.Prelude.{◌≡◌, ◌≤◌, ◌↔◌, [], All, length, true, Some, IfOk, IsTrue, IfSome, MatchOption};
ghost use Rattle.pm_market.specs.Lists.{IsLeaf, is_member};
ghost use Rattle.pm_market.specs.State.{knowledge, clearings, cleared_cut};
ghost use Rattle.pm_market.specs.Moves.{Idle};
ghost use Rattle.pm_plan.specs.Plans.{phases, plan_bound};
ghost use Rattle.pm_plan.specs.Auction.{total};
ghost use Rattle.pm_plan.specs.States.{state};
ghost use Rattle.pm_plan.specs.Market.{plan_lists};
ghost use Rattle.pm_offer.specs.Offers.{children_sum, local_step_at};
ghost use Rattle.pm_stands.specs.Current.{held_price};
ghost use Rattle.pm_cluster.specs.Next.{HasNoNext, IsNext};
ghost use Rattle.pm_cluster.specs.Acts.{NeverGoesBack};
ghost use Rattle.pm_board.specs.Boards.{board_state, kept_ends, ends_to, IsJournal};
ghost use Rattle.pm_board.specs.Kept.{HasRoomForAll};

use pm_bid::ArrayBid;
use pm_cluster::Cluster;
use pm_device::Next;
use pm_market::Journal;
use pm_plan::{PhaseEnd, Plan};
use pm_session::Held;
use pm_tree::NodeId;
use std::alloc::{AllocError, Global};
use std::marker::Model;

/// A cluster that runs a plan, with the journal of its moves and the ends of its closed phases.
///
/// Contracts see it as the plan, the lines and the ends; what they say of the market is over the state after the lines.
pub struct Board<'p> {
    pub(crate) cluster: Cluster<'p>,
    pub(crate) journal: Journal,
    /// An end for each phase: first those of the closed phases, then room for the others.
    pub(crate) ends: Vec<PhaseEnd>,
}

impl<'p> Model for Board<'p> {
    ghost use Rattle.std.specs.Prelude.{take};
    ghost use Rattle.pm_board.specs.Boards.{BoardValue};
    ghost use Rattle.pm_board.specs.Kept.{IsBoard};

    ghost Value = { BoardValue };

    ghost view = { λ b. record {
      plan = b.cluster.plan;
      lines = b.journal.lines;
      ends = take b.cluster.core.closed b.ends.items;
    } };

    ghost invariant = { λ b. IsBoard b.cluster.plan b.cluster.core b.journal b.ends.items };
}

/// Its owner lets go of it in one step; a derived drop would be one for each part.
impl Drop for Board<'_> {
    fn drop(self) {
        let Board {
            cluster: _,
            journal: _,
            ends: _,
        } = self;
    }
}

impl<'p> Board<'p> {
    /// Opens a board on a plan, before the first move. It takes all memory of the run. This is that of the cluster, of as
    /// many lines as a run has at most, and of an end for each phase. The answer is an error only if an allocation fails.
    pub fn open(alloc: Global, plan: &'p Plan) -> Result<Board<'p>, AllocError>
        ensures plan { IfOk result (λ b. b.plan ≡ plan.now) }
        ensures lines { IfOk result (λ b. b.lines ≡ []) }
        ensures ends { IfOk result (λ b. b.ends ≡ []) }
    {
        let cluster = Cluster::open(alloc, plan)?;
        let mut journal = Journal::new(alloc);
        journal.reserve(plan.bound() as usize)?;
        let ends = vacant_ends(alloc, plan)?;
        Ok(Board {
            cluster,
            journal,
            ends,
        })
    }

    /// The plan that it runs.
    pub fn plan(&self) -> &'p Plan
        ensures plan { result.now ≡ self.now.plan }
    {
        self.cluster.plan()
    }

    /// What the next change of a device makes of it. The answer is None exactly if no phase is open, or the device
    /// made all its changes of the open phase.
    pub fn next(&self, device: NodeId) -> Option<Next>
        requires leaf { IsLeaf (plan_lists self.now.plan) device.0 }
        ensures next { let s = board_state self.now in
            MatchOption result (HasNoNext self.now.plan s.closed s.counts device.0)
            (IsNext self.now.plan s.closed s.counts device.0) }
    {
        self.cluster.next(device)
    }

    /// The price that a device holds: that of the clearing passed to it last, unless that is of a former membership. If
    /// nothing is pending, each member holds the step of its part of the cluster over all current bids.
    ///
    /// Whoever holds a price has its own bid in it. The price names the device's number in the cut of its clearing, at which
    /// the device is a member. Its step is the device's local step over that cut.
    pub fn held(&self, device: NodeId) -> Option<Held>
        requires leaf { IsLeaf (plan_lists self.now.plan) device.0 }
        ensures held { result ≡ held_price self.now.plan (board_state self.now) device.0 }
        ensures current { let s = board_state self.now in Idle (plan_lists self.now.plan) s →
            is_member (plan_lists self.now.plan) device.0 (s.counts device.0) ≡ true →
            result ≡ Some
            (record {
              step = local_step_at self.now.plan s.counts device.0;
              number = s.counts device.0;
              index = clearings s;
            }) }
        ensures member { IfSome result
            (λ price. is_member (plan_lists self.now.plan) device.0 price.number ≡ true) }
        ensures made { let s = board_state self.now in
            IfSome result (λ price. price.number ≤ s.counts device.0) }
        ensures cleared { let s = board_state self.now in
            IfSome result (λ price. (1 ≤ price.index) × (price.index ≤ clearings s)) }
        ensures own { let s = board_state self.now in
            IfSome result (λ price. price.number ≡ cleared_cut s price.index device.0) }
        ensures step { let s = board_state self.now in
            IfSome result
            (λ price. price.step ≡ local_step_at self.now.plan
            (cleared_cut s price.index) device.0) }
    {
        self.cluster.held(device)
    }

    /// Whether nothing is pending: no `Learn`, `Publish`, `Clear` or `Pass` is legal.
    pub fn quiet(&self) -> bool
        ensures quiet { IsTrue result ↔ Idle (plan_lists self.now.plan) (board_state self.now) }
    {
        self.cluster.idle()
    }

    /// Whether all phases are closed.
    pub fn done(&self) -> bool
        ensures done { IsTrue result ↔ ((board_state self.now).closed ≡ phases self.now.plan) }
    {
        self.cluster.closed() == self.cluster.plan().phases()
    }

    /// The journal. Its moves are legal, its lines tell what devices held, and no device goes back to older bids of anyone.
    /// It is no longer than the bound of the plan.
    pub fn journal(&self) -> &Journal
        ensures lines { result.now.lines ≡ self.now.lines }
        ensures journal { IsJournal self.now.plan self.now.lines }
        ensures forward { NeverGoesBack self.now.plan self.now.lines }
        ensures bounded { length self.now.lines ≤ plan_bound self.now.plan }
    {
        &self.journal
    }

    /// The ends of the closed phases, each that of the plain auction over the changes of the phases up to it.
    pub fn ends(&self) -> &[PhaseEnd]
        ensures ends { result.now ≡ self.now.ends }
        ensures kept { kept_ends self.now.ends ≡ ends_to self.now.plan
            (board_state self.now).closed }
    {
        &self.ends[..self.cluster.closed() as usize]
    }

    /// The auctioneer's sum of the bids that it learnt last, in watts at each step. If nothing is pending, it is the total
    /// over all current bids.
    pub fn aggregate(&self) -> &ArrayBid
        ensures sum { result.now ≡ children_sum self.now.plan 0
            (knowledge (plan_lists self.now.plan) (board_state self.now) 0) }
        ensures current { let s = board_state self.now in Idle (plan_lists self.now.plan) s →
            result.now ≡ total self.now.plan (state self.now.plan) s.counts }
    {
        self.cluster.aggregate()
    }

    /// The journal and the ends of the closed phases.
    pub fn into_parts(self) -> (Journal, Vec<PhaseEnd>)
        ensures lines { result.0.lines ≡ self.entry.lines }
        ensures ends { result.1.items ≡ self.entry.ends }
    {
        let closed = self.cluster.closed() as usize;
        let Board {
            cluster: _,
            journal,
            mut ends,
        } = self;
        ends.truncate(closed);
        (journal, ends)
    }
}

/// An end for each phase, without lines, with room for the lines of all nodes.
fn vacant_ends(alloc: Global, plan: &Plan) -> Result<Vec<PhaseEnd>, AllocError>
    ensures one_each { IfOk result (λ v. length v.items ≡ phases plan.now) }
    ensures room { IfOk result (λ v. All (HasRoomForAll plan.now) v.items) }
{
    let phases = plan.phases() as usize;
    let mut ends = Vec::with_capacity(alloc, phases)?;
    for _ in 0..phases {
        ends.push(PhaseEnd::vacant(alloc, plan)?)?;
    }
    Ok(ends)
}
