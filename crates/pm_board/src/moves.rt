//! Makes one move on the board, and adds its line to the journal.

ghost use Rattle.std.specs.Prelude.{◌≡◌, ◌≤◌, length, Ok, Some, None, true, false, IfOk, IfErr, IfSome, MatchOption};
ghost use Rattle.pm_market.specs.Lists.{nodes};
ghost use Rattle.pm_market.specs.declared.moves.Move.{Move};
ghost use Rattle.pm_market.specs.declared.moves.Act.{Act};
ghost use Rattle.pm_plan.specs.Market.{plan_lists};
ghost use Rattle.pm_stands.specs.Actors.{IsMoveOf, NoMoveOf};
ghost use Rattle.pm_cluster.specs.Acts.{Follows, NotChanged, NoMoveBy};
ghost use Rattle.pm_board.specs.Boards.{board_state, AddsLine, ClosesPhase};

use crate::board::Board;
use pm_agent::Made;
use pm_bid::ArrayBid;
use pm_cluster::ChangeFault;
use pm_market::{Line, Move};
use pm_tree::NodeId;
use std::alloc::AllocError;

impl<'p> Board<'p> {
    /// Makes the next change of a device, and its line joins the journal.
    ///
    /// `NotNext` comes exactly if what was made is of no device of the plan, not the device's next change, or not of its
    /// kind. It has the next change. For a manual device the bid is the plan's array.
    pub fn post(&mut self, made: &Made) -> Result<Move, ChangeFault>
        requires steps { length made.now.demand ≡ self.old.plan.basis.steps }
        ensures follows { IfOk result (λ what. Follows self.old.plan (board_state self.old).closed
            (board_state self.old).counts made.now) }
        ensures form { IfOk result (λ what. what
            ≡ Move.Change made.now.next.device made.now.next.number) }
        ensures adds { IfOk result (λ what. AddsLine self.old self.new
            (record { what = what; held = None })) }
        ensures ends { self.new.ends ≡ self.old.ends }
        ensures refused { IfErr result
            (NotChanged self.old.plan (board_state self.old).closed
            (board_state self.old).counts made.now) }
        ensures unchanged { IfErr result (λ fault. self.new ≡ self.old) }
    {
        let what = self.cluster.change(made)?;
        let _ = self.journal.push(Line { what, held: None });
        Ok(what)
    }

    /// Makes the next change of a device as [`Board::post`] does, and copies nothing. The demand is the parent's from then on, and
    /// another bid of as many steps comes in its place; what that is at its steps is left open. If the change is refused, it is
    /// the demand itself.
    pub fn post_owned(&mut self, made: Made) -> (Result<Move, ChangeFault>, ArrayBid)
        requires steps { length made.demand ≡ self.old.plan.basis.steps }
        ensures follows { IfOk result.0 (λ what. Follows self.old.plan
            (board_state self.old).closed (board_state self.old).counts made) }
        ensures form { IfOk result.0 (λ what. what
            ≡ Move.Change made.next.device made.next.number) }
        ensures adds { IfOk result.0 (λ what. AddsLine self.old self.new
            (record { what = what; held = None })) }
        ensures ends { self.new.ends ≡ self.old.ends }
        ensures refused { IfErr result.0
            (NotChanged self.old.plan (board_state self.old).closed
            (board_state self.old).counts made) }
        ensures unchanged { IfErr result.0 (λ fault. self.new ≡ self.old) }
        ensures back { IfErr result.0 (λ fault. result.1 ≡ made.demand) }
        ensures same_length { length result.1 ≡ length made.demand }
    {
        let (outcome, other) = self.cluster.change_owned(made);
        match outcome {
            Ok(what) => {
                let _ = self.journal.push(Line { what, held: None });
                (Ok(what), other)
            }
            Err(fault) => (Err(fault), other),
        }
    }

    /// Makes one move of a node, if one is legal, and its line joins the journal. A node learns from its children, a
    /// concentrator publishes and passes a price on, the auctioneer clears, a device takes a price. None comes exactly if no
    /// such move is legal, and never an error.
    pub fn turn(&mut self, node: NodeId) -> Result<Option<Line>, AllocError>
        requires inside { node.0 ≤ nodes (plan_lists self.old.plan) }
        ensures ok { IfErr result (λ e. ⊥) }
        ensures mine { IfOk result (λ made. IfSome made
            (λ line. IsMoveOf (plan_lists self.old.plan) node.0 line.what)) }
        ensures adds { IfOk result (λ made. MatchOption made
            (NoMoveOf (plan_lists self.old.plan) (board_state self.old) node.0)
            (AddsLine self.old self.new)) }
        ensures ends { self.new.ends ≡ self.old.ends }
        ensures none { result ≡ Ok None → self.new ≡ self.old }
    {
        let Some(line) = self.cluster.step(node)? else {
            return Ok(None);
        };
        let _ = self.journal.push(line);
        Ok(Some(line))
    }

    /// Closes the open phase, if that is legal: all its changes are made, and nothing is pending. Its line joins the
    /// journal, and its end the ends. The answer is whether the phase was closed, and never an error.
    pub fn close(&mut self) -> Result<bool, AllocError>
        ensures ok { IfErr result (λ e. ⊥) }
        ensures closed { result ≡ Ok true → ClosesPhase self.old self.new }
        ensures refused { result ≡ Ok false →
            NoMoveBy self.old.plan (board_state self.old) Act.Close }
        ensures unchanged { result ≡ Ok false → self.new ≡ self.old }
    {
        let closed = self.cluster.closed();
        if !self.cluster.close() {
            return Ok(false);
        }
        self.cluster.phase_end_into(&mut self.ends[closed as usize]);
        let what = Move::Close { phase: closed + 1 };
        let _ = self.journal.push(Line { what, held: None });
        Ok(true)
    }
}
