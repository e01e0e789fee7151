//! Makes all moves of a run on one thread, in a fixed order.

ghost use Rattle.std.specs.Prelude.{◌≡◌, ◌≢◌, ◌<◌, ◌≤◌, ℕ, ◌+◌, length, true, false, Some, None, IfOk, IfErr, IfSome, MatchOption};
ghost use Rattle.pm_market.specs.Lists.{nodes, IsLeaf};
ghost use Rattle.pm_market.specs.Moves.{Idle};
ghost use Rattle.pm_plan.specs.Plans.{phases, plan_bound};
ghost use Rattle.pm_plan.specs.Market.{plan_lists};
ghost use Rattle.pm_stands.specs.Actors.{NoMoveOf};
ghost use Rattle.pm_market.specs.declared.moves.Act.{Act};
ghost use Rattle.pm_market.specs.declared.moves.Move.{Move};
ghost use Rattle.pm_cluster.specs.Acts.{NoMoveBy};
ghost use Rattle.pm_cluster.specs.Next.{HasNoNext, IsNext};
ghost use Rattle.pm_board.specs.Boards.{board_state, AddsLine, ClosesPhase};
ghost use Rattle.pm_turns.specs.Settled.{IsSettled};
ghost use Rattle.pm_turns.specs.Turns.{Grows, Continues, TakesTurn};
ghost use Rattle.pm_nodes.specs.DeviceAgents.{AreAgents, IsAgentOf};

use crate::lines::newest_line;
use pm_agent::DeviceAgent;
use pm_board::Board;
use pm_device::Next;
use pm_market::Line;
use pm_nodes::{Gate, make_agents};
use pm_plan::{Plan, is_device};
use pm_tree::NodeId;
use std::alloc::{AllocError, Global};

/// A new board, with all moves made on this thread.
pub fn drain<'p, G: Gate>(alloc: Global, plan: &'p Plan, gate: &G) -> Result<Board<'p>, AllocError>
    ensures plan { IfOk result (λ b. b.plan ≡ plan.now) }
    ensures settled { IfOk result IsSettled }
{
    let mut board = Board::open(alloc, plan)?;
    finish(alloc, &mut board, gate)?;
    Ok(board)
}

/// Makes on this thread the moves that are left; their lines join the journal. It takes the memory of the agents, where a phase is
/// open, and no more. On an error the board is as it was.
pub fn finish<G: Gate>(alloc: Global, board: &mut Board, gate: &G) -> Result<(), AllocError>
    ensures plan { board.new.plan ≡ board.old.plan }
    ensures settled { IfOk result (λ _. IsSettled board.new) }
    ensures continues { IfOk result (λ _. Continues board.old board.new) }
    ensures unchanged { IfErr result (λ _. board.new ≡ board.old) }
{
    if !board.done() {
        let mut agents = make_agents(alloc, board.plan())?;
        make_moves(board, agents.as_mut_slice(), gate);
    }
    is_settled(board);
    Ok(())
}

/// What the type of a board keeps, where all its phases are closed.
fn is_settled(board: &Board)
    requires done { (board_state board.now).closed ≡ phases board.now.plan }
    ensures settled { IsSettled board.now }
{
    // Each call tells a fact of the type: the plan keeps its limits, the journal is legal, the ends are those of its phases.
    let _plan = board.plan().basis();
    let _journal = board.journal();
    let _ends = board.ends();
}

/// Makes moves until all phases are closed.
fn make_moves<G: Gate>(board: &mut Board, agents: &mut [Option<DeviceAgent>], gate: &G)
    requires agents { AreAgents board.old.plan agents.old }
    ensures continues { Continues board.old board.new }
    ensures done { (board_state board.new).closed ≡ phases board.new.plan }
{
    while !board.done() {
        make_move(board, agents, gate);
    }
}

/// Makes one move: a node's, else a device's next change, else the closing of the phase. Which node or device goes first is
/// left open.
pub fn make_move<G: Gate>(board: &mut Board, agents: &mut [Option<DeviceAgent>], gate: &G)
    requires open_phase { (board_state board.old).closed ≢ phases board.old.plan }
    requires agents { AreAgents board.old.plan agents.old }
    ensures plan { board.new.plan ≡ board.old.plan }
    ensures agents { agents.new ≡ agents.old }
    ensures grows { Grows board.old board.new }
    ensures longer { length board.new.lines ≡ length board.old.lines + 1 }
    ensures bounded { length board.new.lines ≤ plan_bound board.new.plan }
{
    if !make_first_move(board, gate) {
        match first_next(board) {
            Some(next) => change(board, agents, next, gate),
            None => close(board, gate),
        }
    }
    // The call tells a fact of the type: the journal is legal, and so within its bound.
    let _journal = board.journal();
}

/// Makes the move of the first node that has one, by a turn of each node up to it; whether there was one.
#[tactic(auto, using(pm_plan::proofs::MarketLists::nodes_are))]
fn make_first_move<G: Gate>(board: &mut Board, gate: &G) -> bool
    ensures plan { board.new.plan ≡ board.old.plan }
    ensures made { result ≡ true → Grows board.old board.new }
    ensures same { result ≡ false → board.new ≡ board.old }
    ensures idle { result ≡ false → Idle (plan_lists board.old.plan) (board_state board.old) }
{
    let nodes = board.plan().tree().len();
    for number in 0..nodes + 1 {
        if turn_of(board, NodeId(number), gate) {
            return true;
        }
    }
    false
}

/// A turn of a node; whether it made a move.
pub fn turn_of<G: Gate>(board: &mut Board, node: NodeId, gate: &G) -> bool
    requires inside { node.0 ≤ nodes (plan_lists board.old.plan) }
    ensures plan { board.new.plan ≡ board.old.plan }
    ensures made { result ≡ true → TakesTurn board.old board.new node.0 }
    ensures same { result ≡ false → board.new ≡ board.old }
    ensures none { result ≡ false → NoMoveOf (plan_lists board.old.plan)
        (board_state board.old) node.0 }
{
    gate.before(node.0);
    let Ok(line) = board.turn(node) else {
        unreachable!();
    };
    gate.after(node.0, line);
    line.is_some()
}

/// The next change of the first device that has one.
pub fn first_next(board: &Board) -> Option<Next>
    ensures next { let s = board_state board.now in
        IfSome result (λ next. IsLeaf (plan_lists board.now.plan) next.device
        × IsNext board.now.plan s.closed s.counts next.device next) }
    ensures first { let s = board_state board.now in
        IfSome result (λ next. (d : ℕ) → d < next.device → IsLeaf (plan_lists board.now.plan) d →
        HasNoNext board.now.plan s.closed s.counts d) }
    ensures none { let s = board_state board.now in
        result ≡ None →
        ((d : ℕ) → IsLeaf (plan_lists board.now.plan) d →
        HasNoNext board.now.plan s.closed s.counts d) }
{
    let nodes = board.plan().tree().len();
    for number in 0..nodes + 1 {
        let next = next_of(board, number);
        if next.is_some() {
            return next;
        }
    }
    None
}

/// The next change of a node, where it is a device that has one.
pub fn next_of(board: &Board, number: u32) -> Option<Next>
    ensures next { let s = board_state board.now in
        IfSome result (λ next. IsLeaf (plan_lists board.now.plan) next.device
        × IsNext board.now.plan s.closed s.counts next.device next) }
    ensures its { IfSome result (λ next. next.device ≡ number) }
    ensures none { let s = board_state board.now in
        result ≡ None → IsLeaf (plan_lists board.now.plan) number →
        HasNoNext board.now.plan s.closed s.counts number }
{
    let node = NodeId(number);
    if !is_device(board.plan(), node) {
        return None;
    }
    board.next(node)
}

/// Makes the next change of a device, by its agent.
pub fn change<G: Gate>(board: &mut Board, agents: &mut [Option<DeviceAgent>], next: Next, gate: &G)
    requires leaf { IsLeaf (plan_lists board.old.plan) next.device }
    requires next { let s = board_state board.old in
        IsNext board.old.plan s.closed s.counts next.device next }
    requires agents { AreAgents board.old.plan agents.old }
    ensures plan { board.new.plan ≡ board.old.plan }
    ensures agents { agents.new ≡ agents.old }
    ensures adds { AddsLine board.old board.new
        (record { what = Move.Change next.device next.number; held = None }) }
    ensures ends { board.new.ends ≡ board.old.ends }
{
    let Some(agent) = agents[next.device as usize].as_mut() else {
        unreachable!();
    };
    make_change(board, agent, next, gate);
}

/// Makes the next change of the device of an agent.
fn make_change<G: Gate>(board: &mut Board, agent: &mut DeviceAgent, next: Next, gate: &G)
    requires leaf { IsLeaf (plan_lists board.old.plan) next.device }
    requires next { let s = board_state board.old in
        IsNext board.old.plan s.closed s.counts next.device next }
    requires its { IsAgentOf board.old.plan next.device agent.old }
    ensures plan { board.new.plan ≡ board.old.plan }
    ensures agent { agent.new ≡ agent.old }
    ensures adds { AddsLine board.old board.new
        (record { what = Move.Change next.device next.number; held = None }) }
    ensures ends { board.new.ends ≡ board.old.ends }
{
    // The call tells a fact of the type: the plan keeps its limits.
    let _basis = board.plan().basis();
    gate.before(next.device);
    let made = agent.work(next, board.plan().arrays());
    let Ok(what) = board.post(made) else {
        unreachable!();
    };
    gate.after(next.device, Some(Line { what, held: None }));
}

/// Closes the open phase.
fn close<G: Gate>(board: &mut Board, gate: &G)
    requires open_phase { (board_state board.old).closed ≢ phases board.old.plan }
    requires idle { Idle (plan_lists board.old.plan) (board_state board.old) }
    requires made { let s = board_state board.old in (d : ℕ) →
        IsLeaf (plan_lists board.old.plan) d → HasNoNext board.old.plan s.closed s.counts d }
    ensures plan { board.new.plan ≡ board.old.plan }
    ensures closes { ClosesPhase board.old board.new }
{
    // Each call tells a fact of the type: the plan keeps its limits, and the journal is legal.
    let _basis = board.plan().basis();
    let _journal = board.journal();
    gate.before(0);
    let closed = close_phase(board);
    if !closed {
        unreachable!();
    }
    gate.after(0, newest_line(board));
}

/// Closes the open phase, where that is legal; whether it was closed.
fn close_phase(board: &mut Board) -> bool
    ensures plan { result ≡ true → board.new.plan ≡ board.old.plan }
    ensures closes { result ≡ true → ClosesPhase board.old board.new }
    ensures refused { result ≡ false → NoMoveBy board.old.plan (board_state board.old) Act.Close }
{
    let Ok(closed) = board.close() else {
        unreachable!();
    };
    closed
}
