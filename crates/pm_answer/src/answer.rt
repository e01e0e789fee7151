//! What is due for an input: its status, and the text that comes with it.

ghost use Rattle.std.specs.Prelude.{◌≡◌, ℕ, List, IfOk, IfSome, IfNone};
ghost use Rattle.pm_report.specs.Refusal.{refusal_line};
ghost use Rattle.pm_answer.specs.Inputs.{HasFile, HasPlan};
ghost use Rattle.pm_answer.specs.Answers.{IsAnswer, valid_line, invalid_line};

use crate::arguments::FileCommand;
use crate::status::Status;
use crate::texts::{answers, bill, free_report, report, trace};
use pm_ask::{TargetsFault, read_targets};
use pm_check::{CheckFault, check};
use pm_envelope::{Envelope, open_envelope};
use pm_nodes::Gate;
use pm_plan::{Cause, Place, Plan, Refusal};
use pm_report::refusal_line;
use pm_scene::{SceneFault, read_scene};
use std::alloc::{AllocError, Global};
use std::sync::Wait;
use std::thread::Threads;

/// What is due for an input: a status, and the text that comes with it.
#[derive(Drop)]
pub struct Outcome {
    /// Done, Invalid or Refused.
    pub status: Status,
    /// All of the text, in bytes.
    pub text: Vec<u8>,
}

/// The answer to an input of these bytes, which is an error only if an allocation fails.
///
/// It is Done with the text that is asked for of the input's plan, or Refused with the line of its refusal. For a trace it is
/// Done with the number of its moves, or Invalid with its bad line. A cluster runs with a thread for each of its nodes, and
/// the gate is told of each turn that a node takes. How long the input is plays no part.
pub fn answer_of<R: Threads + Wait + Sync, G: Gate>(
    rt: &R,
    alloc: Global,
    asked: FileCommand,
    input: &[u8],
    gate: &G,
) -> Result<Outcome, AllocError>
    ensures { IfOk result (λ answer. IsAnswer asked input.now answer.status answer.text.items) }
{
    let Some(envelope) = open_input(asked, input) else {
        return refused(alloc, Refusal::at(Cause::BadEnvelope, Place::Document));
    };
    match read_scene(alloc, envelope.file) {
        Ok(plan) => plan_answer(rt, alloc, asked, &plan, input, envelope.rest, gate),
        Err(SceneFault::Refused(refusal)) => refused(alloc, refusal),
        Err(SceneFault::NoMemory) => Err(AllocError),
    }
}

/// The cluster file of an input, and what follows it.
fn open_input(asked: FileCommand, input: &[u8]) -> Option<Envelope<'_>>
    ensures some { IfSome result
        (λ envelope. HasFile asked input.now envelope.file.now envelope.rest.now) }
    ensures none { IfNone result ((file rest : List ℕ) → HasFile asked input.now file rest → ⊥) }
{
    match asked {
        FileCommand::Check | FileCommand::Ask => open_envelope(input),
        FileCommand::Run | FileCommand::Trace | FileCommand::Bill | FileCommand::Free => {
            let (file, rest) = (input, &input[input.len()..]);
            Some(Envelope { file, rest })
        }
    }
}

/// The answer of a refusal: its line.
fn refused(alloc: Global, refusal: Refusal) -> Result<Outcome, AllocError>
    ensures status { IfOk result (λ answer. answer.status ≡ Status.Refused) }
    ensures text { IfOk result (λ answer. answer.text.items ≡ refusal_line refusal) }
{
    let text = refusal_line(alloc, &refusal)?;
    let status = Status::Refused;
    Ok(Outcome { status, text })
}

/// The answer to an input with a plan, whose file this follows. It is Done with the text that is asked for of the plan, or what
/// the rest of the input makes of it.
fn plan_answer<R: Threads + Wait + Sync, G: Gate>(
    rt: &R,
    alloc: Global,
    asked: FileCommand,
    plan: &Plan,
    input: &[u8],
    rest: &[u8],
    gate: &G,
) -> Result<Outcome, AllocError>
    requires plan { HasPlan asked input.now plan.now rest.now }
    ensures { IfOk result (λ answer. IsAnswer asked input.now answer.status answer.text.items) }
{
    match asked {
        FileCommand::Run => {
            let text = report(rt, alloc, plan, gate)?;
            Ok(done(text))
        }
        FileCommand::Trace => {
            let text = trace(rt, alloc, plan, gate)?;
            Ok(done(text))
        }
        FileCommand::Bill => {
            let text = bill(rt, alloc, plan, gate)?;
            Ok(done(text))
        }
        FileCommand::Free => {
            let text = free_report(rt, alloc, plan, gate)?;
            Ok(done(text))
        }
        FileCommand::Ask => targets_answer(rt, alloc, plan, input, rest, gate),
        FileCommand::Check => trace_answer(rt, alloc, plan, input, rest, gate),
    }
}

/// The answer of a text that is due with Done.
fn done(text: Vec<u8>) -> Outcome
    ensures status { result.status ≡ Status.Done }
    ensures text { result.text.items ≡ text.items }
{
    let status = Status::Done;
    Outcome { status, text }
}

/// What the total at the end of a run answers to the targets that follow a cluster file with a plan. If a line is no target,
/// the answer is the first such line.
fn targets_answer<R: Threads + Wait + Sync, G: Gate>(
    rt: &R,
    alloc: Global,
    plan: &Plan,
    input: &[u8],
    targets: &[u8],
    gate: &G,
) -> Result<Outcome, AllocError>
    requires { HasPlan FileCommand.Ask input.now plan.now targets.now }
    ensures { IfOk result (λ answer.
        IsAnswer FileCommand.Ask input.now answer.status answer.text.items) }
{
    match read_targets(alloc, targets) {
        Ok(watts) => {
            let text = answers(rt, alloc, plan, &watts, gate)?;
            Ok(done(text))
        }
        Err(TargetsFault::Bad { line }) => {
            let place = Place::Line { number: line };
            refused(alloc, Refusal::at(Cause::BadTarget, place))
        }
        Err(TargetsFault::NoMemory) => Err(AllocError),
    }
}

/// The judgement of a trace that follows a cluster file with a plan. If the trace is valid, it is how many moves there are;
/// otherwise it is the bad line.
fn trace_answer<R: Threads + Wait + Sync, G: Gate>(
    rt: &R,
    alloc: Global,
    plan: &Plan,
    input: &[u8],
    trace: &[u8],
    gate: &G,
) -> Result<Outcome, AllocError>
    requires { HasPlan FileCommand.Check input.now plan.now trace.now }
    ensures { IfOk result (λ answer. IsAnswer FileCommand.Check input.now answer.status
        answer.text.items) }
{
    let report = report(rt, alloc, plan, gate)?;
    match check(alloc, plan, &report, trace) {
        Ok(moves) => {
            let text = valid_line(alloc, moves)?;
            let status = Status::Done;
            Ok(Outcome { status, text })
        }
        Err(CheckFault::Invalid { line }) => {
            let text = invalid_line(alloc, line)?;
            let status = Status::Invalid;
            Ok(Outcome { status, text })
        }
        Err(CheckFault::NoMemory) => Err(AllocError),
    }
}

/// The line of a valid trace.
fn valid_line(alloc: Global, moves: u64) -> Result<Vec<u8>, AllocError>
    ensures { IfOk result (λ text. text.items ≡ valid_line moves) }
{
    let text = format!(in alloc; "valid moves {moves}\n")?;
    Ok(text.into_bytes())
}

/// The line of a trace with a bad line.
fn invalid_line(alloc: Global, line: u64) -> Result<Vec<u8>, AllocError>
    ensures { IfOk result (λ text. text.items ≡ invalid_line line) }
{
    let text = format!(in alloc; "invalid line {line}\n")?;
    Ok(text.into_bytes())
}
