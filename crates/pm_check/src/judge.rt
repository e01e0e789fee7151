//! Judges the moves of a trace one by one, against the market of cuts.

ghost use Rattle.std.specs.Prelude.{◌≡◌, ◌≢◌, ◌↔◌, ◌≤◌, true, false, length, IsTrue, IfOk, OnOk};
ghost use Rattle.pm_market.specs.Lists.{phases};
ghost use Rattle.pm_market.specs.State.{start};
ghost use Rattle.pm_market.specs.Legality.{is_legal};
ghost use Rattle.pm_market.specs.Market.{market_lists, market_state};
ghost use Rattle.pm_market.specs.declared.moves.Move.{Move};
ghost use Rattle.pm_report.specs.Trace.{NamesNodes};

use crate::lists::market_of;
use crate::reading::read_line;
use crate::steps::ClearedSteps;
use pm_base::number_in_cut;
use pm_market::{Market, Move};
use pm_plan::Plan;
use pm_tree::NodeId;
use std::alloc::{AllocError, Global};

/// A judge of traces in the midst of one: the market after the moves that were taken, and the steps of its clearings.
pub(crate) struct Judge {
    market: Market,
    steps: ClearedSteps,
}

/// Its owner lets go of it in one step; a derived drop would be one for each part.
impl Drop for Judge {
    fn drop(self) {
        let Judge {
            market: _,
            steps: _,
        } = self;
    }
}

impl Judge {
    ghost use Rattle.pm_check.specs.Judges.{IsJudge, HasMade, HasTaken, TellsNone, holding_at, held_in};

    /// Before the first move.
    pub(crate) fn start(alloc: Global, plan: &Plan) -> Result<Judge, AllocError>
        ensures judge { IfOk result (IsJudge plan.now) }
        ensures start { IfOk result (λ judge. market_state judge.market ≡ start) }
    {
        let market = market_of(alloc, plan)?;
        let steps = ClearedSteps::start(alloc, plan)?;
        Ok(Judge { market, steps })
    }

    /// Whether every phase is closed.
    pub(crate) fn is_complete(&self) -> bool
        ensures { IsTrue result
            ↔ ((market_state self.now.market).closed ≡ phases (market_lists self.now.market)) }
    {
        self.market.is_complete()
    }

    /// Takes a line of the trace, its line feed included. If it tells a legal move, with what a device then holds, the
    /// move is made and the answer is true. Otherwise the answer is false, and the judge has come to its end.
    pub(crate) fn take(&mut self, plan: &Plan, line: &[u8]) -> Result<bool, AllocError>
        requires { IsJudge plan.now self.old }
        ensures taken { IfOk result (λ taken. taken ≡ true →
            (m : Move) × HasTaken plan.now self.old self.new line.now m) }
        ensures none { IfOk result (λ taken. taken ≡ false → TellsNone plan.now self.old line.now) }
    {
        let Some(told) = read_line(plan, line) else {
            return Ok(false);
        };
        if !self.market.is_legal(told.what) {
            return Ok(false);
        }
        self.make(plan, told.what)?;
        Ok(is_same(told.held, self.held_after(plan, told.what)))
    }

    /// Makes a legal move.
    fn make(&mut self, plan: &Plan, what: Move) -> Result<(), AllocError>
        requires judge { IsJudge plan.now self.old }
        requires legal { is_legal (market_lists self.old.market) (market_state self.old.market) what
            ≡ true }
        ensures { OnOk result (HasMade plan.now self.old self.new what) }
    {
        self.market.apply(what)?;
        match what {
            Move::Clear { index } => self.steps.clear(plan, self.market.cleared(index as usize)),
            Move::Close { .. } => {
                self.steps.close(plan);
                Ok(())
            }
            _ => Ok(()),
        }
    }

    /// What a device holds after a pass to it that was made; nothing after any other move.
    fn held_after(&self, plan: &Plan, what: Move) -> Option<(u32, u32)>
        requires judge { IsJudge plan.now self.now }
        requires nodes { NamesNodes plan.now what }
        ensures { result ≡ held_in plan.now (market_state self.now.market) what }
    {
        match what {
            Move::Pass { node, .. } => self.held(plan, node),
            _ => None,
        }
    }

    /// The step and the number of the price that a device holds, if the node is a device and holds one.
    fn held(&self, plan: &Plan, node: u32) -> Option<(u32, u32)>
        requires judge { IsJudge plan.now self.now }
        requires node { node ≤ length plan.now.nodes }
        ensures { result ≡ holding_at plan.now (market_state self.now.market) node }
    {
        let at = node as usize;
        if !plan.tree().is_leaf(NodeId(node)) {
            return None;
        }
        if !self.market.holds_price(at) {
            return None;
        }
        let index = self.market.last_passed(at);
        let number = number_in_cut(self.market.cleared(index), at);
        let step = self.steps.step(plan, index, NodeId(node));
        Some((step, number))
    }
}

/// Whether the same is held, or nothing.
fn is_same(one: Option<(u32, u32)>, other: Option<(u32, u32)>) -> bool
    ensures same { result ≡ true → one ≡ other }
    ensures differ { result ≡ false → one ≢ other }
{
    match (one, other) {
        (Some(one), Some(other)) => one.0 == other.0 && one.1 == other.1,
        (None, None) => true,
        (Some(_), None) | (None, Some(_)) => false,
    }
}
