//! One phase over links: its run, and the end that is read of what the nodes hold.

ghost use Rattle.std.specs.Prelude.{◌≡◌, ◌-◌, ◌≤◌, IfOk, IfSome, true, map, option_map, replicate};
ghost use Rattle.pm_plan.specs.Plans.{phases};
ghost use Rattle.pm_nodes.specs.DeviceAgents.{AreAgents};
ghost use Rattle.pm_phase.specs.Nodes.{AreNewParts, held_by_node};
ghost use Rattle.pm_free.specs.Counting.{AreTold, HaveNone};
ghost use Rattle.pm_free.specs.Links.{HasLogs};
ghost use Rattle.pm_free.specs.Nodes.{StandAfter, IsReadAfter, IsSettledBy, IsOutcome};
ghost use Rattle.pm_free.specs.OverLinks.{CameOverLinks};

use crate::counting::{counts_after, have_none};
use crate::planning::plan_phase;
use pm_agent::DeviceAgent;
use pm_board::Board;
use pm_cells::LinkLog;
use pm_device::Next;
use pm_nodes::Gate;
use pm_phase::{NodePart, PhaseRun, has_settled, read_end, run_phase};
use pm_plan::{PhaseEnd, Plan};
use pm_session::Held;
use std::alloc::{AllocError, Global};
use std::thread::Threads;

/// What a phase over links came to.
#[derive(Drop)]
pub struct FreePhase {
    /// By the numbers of the nodes: the price that a device holds at the end of the phase; none of the other nodes.
    pub held: Vec<Option<Held>>,
    /// By the numbers of the nodes below the links, from 1: what was put and taken. A phase without changes has no links.
    pub links: Vec<Option<LinkLog>>,
    /// The end of the phase, read of what the nodes hold. None if it did not come over the links: the phase is not settled, or one
    /// before it was not.
    pub end: Option<PhaseEnd>,
}

/// The nodes between two phases, by their numbers.
#[derive(Drop)]
pub(crate) struct Nodes {
    pub(crate) parts: Vec<NodePart>,
    /// How many changes each made, if each phase so far came over the links.
    pub(crate) made: Option<Vec<u32>>,
}

/// What came over the links of a phase.
#[derive(Drop)]
pub(crate) struct Carried {
    /// By the numbers of the nodes: how many changes each has made.
    pub(crate) made: Vec<u32>,
    /// The end that the nodes hold.
    pub(crate) end: PhaseEnd,
}

/// The nodes of a plan, before the first phase.
pub(crate) fn new_nodes(alloc: Global, plan: &Plan) -> Result<Nodes, AllocError>
    ensures new { IfOk result (λ nodes. AreNewParts plan.now nodes.parts.items) }
    ensures stand { IfOk result (StandAfter plan.now 0) }
{
    // The call tells a fact of the type: the plan keeps its limits.
    let _basis = plan.basis();
    let parts = make_parts(alloc, plan)?;
    let made = no_counts(alloc, parts.len())?;
    Ok(Nodes {
        parts,
        made: Some(made),
    })
}

/// Counts of so many nodes that made no change.
fn no_counts(alloc: Global, nodes: usize) -> Result<Vec<u32>, AllocError>
    ensures { IfOk result (λ made. made.items ≡ replicate nodes 0) }
{
    Ok(vec![in alloc; 0; nodes]?)
}

/// The parts of all nodes of a plan, before the first phase.
fn make_parts(alloc: Global, plan: &Plan) -> Result<Vec<NodePart>, AllocError>
    ensures new { IfOk result (λ parts. AreNewParts plan.now parts.items) }
{
    let nodes = plan.tree().len();
    let mut parts = Vec::with_capacity(alloc, nodes as usize + 1)?;
    for number in 0..nodes + 1 {
        let part = NodePart::new(alloc, plan, number)?;
        parts.push(part)?;
    }
    Ok(parts)
}

/// The price that each node holds.
fn held_by(alloc: Global, parts: &[NodePart]) -> Result<Vec<Option<Held>>, AllocError>
    ensures { IfOk result (λ held. held.items ≡ map held_by_node parts.now) }
{
    let mut held = Vec::with_capacity(alloc, parts.len())?;
    for part in parts {
        held.push(part.held())?;
    }
    Ok(held)
}

/// Makes the open phase, on the board and over links: the nodes after it, and what it came to. The phase counts from 1.
pub(crate) fn make_phase<R: Threads + Sync, G: Gate>(
    rt: &R,
    alloc: Global,
    gate: &G,
    board: &mut Board,
    agents: &mut [Option<DeviceAgent>],
    phase: u32,
    nodes: Nodes,
) -> Result<(Nodes, FreePhase), AllocError>
    requires first { 1 ≤ phase }
    requires last { phase ≤ phases board.old.plan }
    requires agents { AreAgents board.old.plan agents.old }
    requires stand { StandAfter board.old.plan (phase - 1) nodes }
    ensures plan { board.new.plan ≡ board.old.plan }
    ensures agents { AreAgents board.new.plan agents.new }
    ensures stand { IfOk result (λ made. StandAfter board.new.plan phase made.0) }
    ensures over { IfOk result (λ made. IfSome made.1.end (λ end.
        CameOverLinks board.new.plan phase nodes.parts.items made.0.parts.items made.1 end.end)) }
    ensures logs { IfOk result (λ made. HasLogs made.1) }
{
    let (changes, count) = plan_phase(alloc, board, agents)?;
    take_changes(rt, alloc, board.plan(), gate, phase, nodes, &changes, count)
}

/// Lets the nodes take their changes of a phase: over links, or not at all if there are none.
fn take_changes<R: Threads + Sync, G: Gate>(
    rt: &R,
    alloc: Global,
    plan: &Plan,
    gate: &G,
    phase: u32,
    nodes: Nodes,
    changes: &[Vec<Next>],
    count: usize,
) -> Result<(Nodes, FreePhase), AllocError>
    requires first { 1 ≤ phase }
    requires last { phase ≤ phases plan.now }
    requires told { AreTold plan.now changes.now }
    requires stand { StandAfter plan.now (phase - 1) nodes }
    ensures stand { IfOk result (λ made. StandAfter plan.now phase made.0) }
    ensures over { IfOk result (λ made. IfSome made.1.end (λ end.
        CameOverLinks plan.now phase nodes.parts.items made.0.parts.items made.1 end.end)) }
    ensures logs { IfOk result (λ made. HasLogs made.1) }
{
    if have_none(changes) {
        return rest(alloc, plan, phase, nodes, changes);
    }
    carry(rt, alloc, plan, gate, phase, nodes, changes, count)
}

/// A phase without changes: the nodes are as they were.
fn rest(
    alloc: Global,
    plan: &Plan,
    phase: u32,
    nodes: Nodes,
    changes: &[Vec<Next>],
) -> Result<(Nodes, FreePhase), AllocError>
    requires first { 1 ≤ phase }
    requires last { phase ≤ phases plan.now }
    requires none { HaveNone changes.now }
    requires told { AreTold plan.now changes.now }
    requires stand { StandAfter plan.now (phase - 1) nodes }
    ensures stand { IfOk result (λ made. StandAfter plan.now phase made.0) }
    ensures over { IfOk result (λ made. IfSome made.1.end (λ end.
        CameOverLinks plan.now phase nodes.parts.items made.0.parts.items made.1 end.end)) }
    ensures logs { IfOk result (λ made. HasLogs made.1) }
{
    let Nodes { parts, made } = nodes;
    let carried = read_carried(alloc, plan, phase, &made, changes, parts.as_slice())?;
    outcome(alloc, parts, Vec::new(alloc), carried)
}

/// A phase with changes: the nodes make them over links.
fn carry<R: Threads + Sync, G: Gate>(
    rt: &R,
    alloc: Global,
    plan: &Plan,
    gate: &G,
    phase: u32,
    nodes: Nodes,
    changes: &[Vec<Next>],
    count: usize,
) -> Result<(Nodes, FreePhase), AllocError>
    requires first { 1 ≤ phase }
    requires last { phase ≤ phases plan.now }
    requires told { AreTold plan.now changes.now }
    requires stand { StandAfter plan.now (phase - 1) nodes }
    ensures stand { IfOk result (λ made. StandAfter plan.now phase made.0) }
    ensures over { IfOk result (λ made. IfSome made.1.end (λ end.
        CameOverLinks plan.now phase nodes.parts.items made.0.parts.items made.1 end.end)) }
    ensures logs { IfOk result (λ made. HasLogs made.1) }
{
    // The call tells a fact of the type: the plan keeps its limits.
    let _basis = plan.basis();
    let Nodes { parts, made } = nodes;
    let run = run_phase(rt, alloc, plan, gate, parts, changes, count)?;
    let carried = read_settled(alloc, plan, phase, &made, changes, &run)?;
    let PhaseRun { parts, links } = run;
    outcome(alloc, parts, links, carried)
}

/// What came over the links of a phase, by these counts before it: the end that the parts hold after it, with the counts then. None
/// if there are no counts, the changes are not all those of the phase, or the parts hold no end.
fn read_carried(
    alloc: Global,
    plan: &Plan,
    phase: u32,
    made: &Option<Vec<u32>>,
    changes: &[Vec<Next>],
    parts: &[NodePart],
) -> Result<Option<Carried>, AllocError>
    requires first { 1 ≤ phase }
    requires last { phase ≤ phases plan.now }
    ensures { IfOk result (λ read. IfSome read
        (IsReadAfter plan.now phase made.now changes.now parts.now)) }
{
    let Some(made) = made else {
        return Ok(None);
    };
    let Some(counts) = counts_after(alloc, plan, phase, made.as_slice(), changes)? else {
        return Ok(None);
    };
    let Some(end) = read_end(alloc, plan, parts)? else {
        return Ok(None);
    };
    Ok(Some(Carried { made: counts, end }))
}

/// Whether a phase is settled, by these counts before it.
fn is_phase_settled(
    plan: &Plan,
    made: &Option<Vec<u32>>,
    changes: &[Vec<Next>],
    run: &PhaseRun,
) -> bool
    ensures { result ≡ true → IsSettledBy plan.now made.now changes.now run.now }
{
    match made {
        Some(made) => has_settled(
            plan,
            run.parts.as_slice(),
            made.as_slice(),
            changes,
            run.links.as_slice(),
        ),
        None => false,
    }
}

/// What came over the links of a phase with changes: as [`read_carried`], and none if the phase is not settled.
fn read_settled(
    alloc: Global,
    plan: &Plan,
    phase: u32,
    made: &Option<Vec<u32>>,
    changes: &[Vec<Next>],
    run: &PhaseRun,
) -> Result<Option<Carried>, AllocError>
    requires first { 1 ≤ phase }
    requires last { phase ≤ phases plan.now }
    ensures settled { IfOk result (λ read. IfSome read
        (λ _. IsSettledBy plan.now made.now changes.now run.now)) }
    ensures read { IfOk result (λ read. IfSome read
        (IsReadAfter plan.now phase made.now changes.now run.now.parts.items)) }
{
    if !is_phase_settled(plan, made, changes, run) {
        return Ok(None);
    }
    read_carried(alloc, plan, phase, made, changes, run.parts.as_slice())
}

/// The nodes after a phase, and what it came to.
fn outcome(
    alloc: Global,
    parts: Vec<NodePart>,
    links: Vec<Option<LinkLog>>,
    carried: Option<Carried>,
) -> Result<(Nodes, FreePhase), AllocError>
    ensures { IfOk result (λ left. IsOutcome parts links carried left.0 left.1) }
{
    let held = held_by(alloc, parts.as_slice())?;
    let (made, end) = split(carried);
    Ok((Nodes { parts, made }, FreePhase { held, links, end }))
}

/// The counts and the end that came, if they did.
fn split(carried: Option<Carried>) -> (Option<Vec<u32>>, Option<PhaseEnd>)
    ensures made { result.0 ≡ option_map (λ c. c.made) carried }
    ensures end { result.1 ≡ option_map (λ c. c.end) carried }
{
    match carried {
        Some(Carried { made, end }) => (Some(made), Some(end)),
        None => (None, None),
    }
}
