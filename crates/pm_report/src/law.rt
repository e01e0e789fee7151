//! Laws: a trace tells its journal, and a line of a trace tells its move.

ghost use Rattle.std.specs.Prelude.{◌≡◌, List, All};
ghost use Rattle.pm_market.specs.declared.journal.Line.{Line};
ghost use Rattle.pm_plan.specs.Plans.{PlanData};
ghost use Rattle.pm_plan.specs.Kept.{IsPlan};
ghost use Rattle.pm_plan.specs.Auction.{EndData};
ghost use Rattle.pm_report.specs.Trace.{IsLineOfRun, move_line, trace_text};

/// A trace tells its journal: of two journals of one plan that give the same trace over the same ends, each line is the
/// same. Names of nodes differ, and so do the prices of different steps.
#[tactic(auto, using(crate::proofs::Traces::same_journal))]
pub fn traces_tell_their_journals()
    ensures { (plan : PlanData) (ends : List EndData) (a b : List Line) → IsPlan plan →
        All (IsLineOfRun plan) a → All (IsLineOfRun plan) b →
        trace_text plan ends a ≡ trace_text plan ends b → a ≡ b }
{}

/// A line of a trace tells what it is of: two lines of one plan that are written by the same bytes are the same.
#[tactic(auto, using(crate::proofs::Traces::same_one))]
pub fn lines_tell_their_moves()
    ensures { (plan : PlanData) (one other : Line) → IsPlan plan → IsLineOfRun plan one →
        IsLineOfRun plan other →
        move_line plan one ≡ move_line plan other → one ≡ other }
{}
