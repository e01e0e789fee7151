//! The law that a trace tells the journal of its run.

ghost use Rattle.std.specs.Prelude.{◌≡◌, List};
ghost use Rattle.pm_market.specs.declared.journal.Line.{Line};
ghost use Rattle.pm_plan.specs.Plans.{PlanData};
ghost use Rattle.pm_plan.specs.Kept.{IsPlan};
ghost use Rattle.pm_plan.specs.States.{all_ends};
ghost use Rattle.pm_report.specs.Trace.{trace_text};
ghost use Rattle.pm_board.specs.Boards.{IsJournal};

/// A law: the trace of a run tells its journal. Of two legal journals of one plan that give the same trace, each line is
/// the same.
#[tactic(auto, using(crate::proofs::JournalLines::traces_tell))]
pub fn traces_tell_their_runs()
    ensures { (plan : PlanData) (a b : List Line) → IsPlan plan → IsJournal plan a →
        IsJournal plan b →
        trace_text plan (all_ends plan) a ≡ trace_text plan (all_ends plan) b → a ≡ b }
{}
