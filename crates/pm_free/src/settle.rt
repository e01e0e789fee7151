//! Runs a whole plan over links without a lock, beside the board that plans it.

ghost use Rattle.std.specs.Prelude.{◌≡◌, IfOk, length};
ghost use Rattle.pm_plan.specs.Plans.{phases};
ghost use Rattle.pm_board.specs.Boards.{kept_ends, ends_to};
ghost use Rattle.pm_nodes.specs.DeviceAgents.{AreAgents};
ghost use Rattle.pm_turns.specs.Settled.{IsSettled};
ghost use Rattle.pm_free.specs.Links.{AreKept};
ghost use Rattle.pm_free.specs.SameEnds.{AreSameEnds, IsSameEnd};
ghost use Rattle.pm_free.specs.OverLinks.{AreOverLinks};

use crate::phase::{FreePhase, make_phase, new_nodes};
use pm_agent::DeviceAgent;
use pm_board::Board;
use pm_nodes::{Gate, OpenGate, make_agents};
use pm_plan::{PhaseEnd, Plan};
use pm_turns::finish;
use std::alloc::{AllocError, Global};
use std::sync::Wait;
use std::thread::Threads;

/// A run over links: the board that the caller drove beside it, and what each phase came to over the links.
#[derive(Drop)]
pub struct FreeRun<'p> {
    /// All its phases are closed.
    pub board: Board<'p>,
    /// From the first phase to the last.
    pub phases: Vec<FreePhase>,
}

impl FreeRun<'_> {
    /// The ends of all phases, from the first to the last, each that of the plain auction over the changes of the phases up to it.
    /// That of a phase which came over the links is the end that was read of its nodes, and any other is the board's.
    pub fn into_ends(self) -> Vec<PhaseEnd>
        requires settled { IsSettled self.board }
        requires one_each { length self.phases.items ≡ phases self.board.plan }
        requires over { AreOverLinks self.board.plan self.phases.items }
        ensures ends { kept_ends result.items ≡ ends_to self.entry.board.plan
            (phases self.entry.board.plan) }
    {
        let FreeRun { board, phases } = self;
        let (_journal, mut ends) = board.into_parts();
        put_ends(phases, &mut ends);
        ends
    }
}

/// Runs a plan over links without a lock, with threads for the nodes of each phase, and tells the gate of each turn.
///
/// The answer is the ends of all phases, from the first to the last, each that of the plain auction over the changes of the
/// phases up to it; it is an error only for want of memory. They are the ends of [`run_free`].
pub fn settle_free<R: Threads + Wait + Sync, G: Gate>(
    rt: &R,
    alloc: Global,
    plan: &Plan,
    gate: &G,
) -> Result<Vec<PhaseEnd>, AllocError>
    ensures ends { IfOk result (λ ends. kept_ends ends.items ≡ ends_to plan.now (phases plan.now)) }
{
    Ok(run_free(rt, alloc, plan, gate)?.into_ends())
}

/// As [`settle_free`], and shows what each phase came to over the links, beside the board.
///
/// An end that a phase has came over its links: the parts of the nodes stood before the phase, its run made the changes that the
/// plan has after them and is settled, and the end is read of the parts that the run left, with which the next phase begins. On
/// each link the numbers that were taken rise, and each was put.
pub fn run_free<'p, R: Threads + Wait + Sync, G: Gate>(
    rt: &R,
    alloc: Global,
    plan: &'p Plan,
    gate: &G,
) -> Result<FreeRun<'p>, AllocError>
    ensures plan { IfOk result (λ run. run.board.plan ≡ plan.now) }
    ensures settled { IfOk result (λ run. IsSettled run.board) }
    ensures one_each { IfOk result (λ run. length run.phases.items ≡ phases plan.now) }
    ensures over { IfOk result (λ run. AreOverLinks plan.now run.phases.items) }
    ensures logs { IfOk result (λ run. AreKept run.phases.items) }
{
    let mut board = Board::open(alloc, plan)?;
    let phases = make_phases(rt, alloc, gate, &mut board)?;
    finish(alloc, &mut board, &OpenGate)?;
    Ok(FreeRun { board, phases })
}

/// Puts the ends that came over the links in the places of the board's.
fn put_ends(phases: Vec<FreePhase>, ends: &mut Vec<PhaseEnd>)
    requires same { AreSameEnds 0 phases.items (kept_ends ends.old.items) }
    ensures same { kept_ends ends.new.items ≡ kept_ends ends.old.items }
{
    let mut place: usize = 0;
    for phase in phases {
        let FreePhase {
            held: _,
            links: _,
            end,
        } = phase;
        put_end(place, end, ends);
        place += 1;
    }
}

/// Puts an end in a place, if there is one.
fn put_end(place: usize, end: Option<PhaseEnd>, ends: &mut Vec<PhaseEnd>)
    requires same { IsSameEnd place end (kept_ends ends.old.items) }
    ensures same { kept_ends ends.new.items ≡ kept_ends ends.old.items }
{
    if let Some(end) = end {
        if place < ends.len() {
            ends[place] = end;
        }
    }
}

/// Makes all phases of a new board, each on the board and over links: what each came to over the links.
fn make_phases<R: Threads + Wait + Sync, G: Gate>(
    rt: &R,
    alloc: Global,
    gate: &G,
    board: &mut Board,
) -> Result<Vec<FreePhase>, AllocError>
    ensures plan { board.new.plan ≡ board.old.plan }
    ensures one_each { IfOk result (λ kept. length kept.items ≡ phases board.new.plan) }
    ensures over { IfOk result (λ kept. AreOverLinks board.new.plan kept.items) }
    ensures logs { IfOk result (λ kept. AreKept kept.items) }
{
    let mut agents = make_agents(alloc, board.plan())?;
    make_phases_by(rt, alloc, gate, board, agents.as_mut_slice())
}

/// Makes as many phases as the plan has, by these agents.
fn make_phases_by<R: Threads + Wait + Sync, G: Gate>(
    rt: &R,
    alloc: Global,
    gate: &G,
    board: &mut Board,
    agents: &mut [Option<DeviceAgent>],
) -> Result<Vec<FreePhase>, AllocError>
    requires agents { AreAgents board.old.plan agents.old }
    ensures plan { board.new.plan ≡ board.old.plan }
    ensures one_each { IfOk result (λ kept. length kept.items ≡ phases board.new.plan) }
    ensures over { IfOk result (λ kept. AreOverLinks board.new.plan kept.items) }
    ensures logs { IfOk result (λ kept. AreKept kept.items) }
{
    let mut nodes = new_nodes(alloc, board.plan())?;
    let mut kept = Vec::new(alloc);
    for phase in 1..board.plan().phases() + 1 {
        let (left, made) = make_phase(rt, alloc, gate, board, agents, phase, nodes)?;
        nodes = left;
        kept.push(made)?;
    }
    Ok(kept)
}
