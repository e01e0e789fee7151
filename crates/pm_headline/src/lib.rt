//! The headline as one theorem: what the texts that `market` writes say of the bytes that it reads.
//!
//! The definitions in `specs/` say it in the words of the market, the whole in `Promises` (`TellsTheMarket`). A report tells
//! the plain auction at the end of each phase, line by line. A trace tells one legal and complete run. In it each price that
//! is held is over the holder's own numbered bid, and nobody goes back to older bids. A bill, the answers to targets and the
//! summary of a demo tell what they add up. A trace that is judged tells a run exactly when it is called valid.
//!
//! Nothing in it speaks of time, of memory, or of whether a call returns. It speaks of texts that were written with the
//! status Done, or Invalid. `docs/PROOF.md` has it whole, with the definitions that a reader has to believe.
//!
//! The laws are contracts of functions with empty bodies. `pm_top` makes them a clause of `market` itself.
#![tactic(auto)]

ghost use Rattle.std.specs.Prelude.{◌≡◌, ℕ, ◌≤◌, ℤ, List, Option, length, true};
ghost use Rattle.std.specs.Io.KnownBytes.{Consumes, IsAtEnd};
ghost use Rattle.pm_market.specs.declared.journal.Line.{Line};
ghost use Rattle.pm_plan.specs.Plans.{PlanData, phases, end_cut};
ghost use Rattle.pm_plan.specs.Kept.{IsPlan};
ghost use Rattle.pm_plan.specs.Auction.{total};
ghost use Rattle.pm_plan.specs.States.{all_ends, state};
ghost use Rattle.pm_gen.specs.Demo.{is_size};
ghost use Rattle.pm_report.specs.Report.{report_text};
ghost use Rattle.pm_report.specs.Trace.{trace_text};
ghost use Rattle.pm_answer.specs.Inputs.{input_limit};
ghost use Rattle.pm_answer.specs.Answers.{IsAnswer, IsSummary, IsCompleteJournal};
ghost use Rattle.pm_cluster.specs.Acts.{NeverGoesBack};
ghost use Rattle.pm_board.specs.Boards.{BoardValue, kept_ends};
ghost use Rattle.pm_turns.specs.Settled.{IsSettled};
ghost use Rattle.pm_headline.specs.Reports.{AreAuctionEnds, IsReport};
ghost use Rattle.pm_bill.specs.Runs.{plan_bill};
ghost use Rattle.pm_bill.specs.Text.{bill_text};
ghost use Rattle.pm_ask.specs.Texts.{ask_text};
ghost use Rattle.pm_headline.specs.Bills.{TellsBill};
ghost use Rattle.pm_headline.specs.Targets.{AnswersTargets};
ghost use Rattle.pm_headline.specs.Traces.{NobodyGoesBack, IsMarketRun, TellsRun};
ghost use Rattle.pm_headline.specs.Demos.{TellsDemo};
ghost use Rattle.pm_headline.specs.Promises.{ReadFile, TellsFile, RefutesTrace, RefusesInput};

use pm_answer::{FileCommand, Status};

/// A law about the texts that are due for an input that was read to its end. The text with the status Done tells the market,
/// by what is asked. The text with the status Invalid refutes the trace behind the file. That with the status Refused tells
/// why, and nothing that is asked for is in the input. The summary of a demo tells its run.
pub fn texts_tell_the_market()
    ensures file { (asked : FileCommand) (old new : Option (List ℕ)) (input text : List ℕ) →
        Consumes old new input → IsAtEnd new →
        length input ≤ input_limit asked → IsAnswer asked input Status.Done text →
        TellsFile asked old new text }
    ensures invalid { (asked : FileCommand) (old new : Option (List ℕ)) (input text : List ℕ) →
        Consumes old new input → IsAtEnd new →
        length input ≤ input_limit asked → IsAnswer asked input Status.Invalid text →
        (asked ≡ FileCommand.Check)
        × ((plan : PlanData)
        × ((trace : List ℕ) × (ReadFile asked old new plan trace × RefutesTrace plan trace text))) }
    ensures refused { (asked : FileCommand) (old new : Option (List ℕ)) (input text : List ℕ) →
        Consumes old new input → IsAtEnd new →
        length input ≤ input_limit asked → IsAnswer asked input Status.Refused text →
        RefusesInput asked old new text }
    ensures demo { (size number : ℕ) (text : List ℕ) → is_size size ≡ true →
        IsSummary size number text → TellsDemo size number text }
{}

/// A law: the words leave nothing open. A plan has one report and one bill, and targets have one answer over it. The trace that
/// tells a run is the text of its journal, which is legal and complete.
pub fn nothing_is_left_out()
    ensures report { (plan : PlanData) (text : List ℕ) → IsPlan plan → IsReport plan text →
        text ≡ report_text plan (all_ends plan) }
    ensures trace { (plan : PlanData) (journal : List Line) (text : List ℕ) → IsPlan plan →
        TellsRun plan journal text →
        IsCompleteJournal plan journal × (text ≡ trace_text plan (all_ends plan) journal) }
    ensures bill { (plan : PlanData) (text : List ℕ) → IsPlan plan → TellsBill plan text →
        text ≡ bill_text plan (plan_bill plan) }
    ensures ask { (plan : PlanData) (targets : List ℤ) (text : List ℕ) →
        AnswersTargets plan targets text →
        text ≡ ask_text plan.basis (total plan (state plan) (end_cut plan (phases plan))) targets }
{}

/// A law: what the calls promise of a board and of a journal is what the texts tell. The journal of a settled board is a run of
/// its plan, and its ends tell the plain auction. A journal whose moves never go back has lines that do not.
pub fn boards_run_the_market()
    ensures journal { (b : BoardValue) → IsPlan b.plan → IsSettled b → IsMarketRun b.plan b.lines }
    ensures ends { (b : BoardValue) → IsPlan b.plan → IsSettled b →
        AreAuctionEnds b.plan (kept_ends b.ends) }
    ensures forward { (plan : PlanData) (journal : List Line) → IsPlan plan →
        NeverGoesBack plan journal → NobodyGoesBack plan journal }
{}
