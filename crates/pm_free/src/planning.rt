//! Plans a phase on the board: its changes, by their devices, and the moves that close it.

ghost use Rattle.std.specs.Prelude.{◌≡◌, ℕ, IfOk};
ghost use Rattle.pm_plan.specs.Plans.{PlanData};
ghost use Rattle.pm_nodes.specs.DeviceAgents.{AreAgents};
ghost use Rattle.pm_phase.specs.Telling.{IsPlannedNext};
ghost use Rattle.pm_free.specs.Counting.{AreTold};

use pm_agent::DeviceAgent;
use pm_board::Board;
use pm_device::Next;
use pm_nodes::OpenGate;
use pm_plan::Plan;
use pm_tree::NodeId;
use pm_turns::{change, first_next, make_move, turn_of};
use std::alloc::{AllocError, Global};

/// Makes the open phase on the board: its changes by their devices, and how many there are.
pub(crate) fn plan_phase(
    alloc: Global,
    board: &mut Board,
    agents: &mut [Option<DeviceAgent>],
) -> Result<(Vec<Vec<Next>>, usize), AllocError>
    requires agents { AreAgents board.old.plan agents.old }
    ensures plan { board.new.plan ≡ board.old.plan }
    ensures agents { AreAgents board.new.plan agents.new }
    ensures told { IfOk result (λ planned. AreTold board.new.plan planned.0.items) }
{
    let mut changes = no_changes(alloc, board.plan())?;
    let count = make_changes(board, agents, &mut changes)?;
    end_phase(board, agents);
    Ok((changes, count))
}

/// An empty list of changes for each node.
fn no_changes(alloc: Global, plan: &Plan) -> Result<Vec<Vec<Next>>, AllocError>
    ensures told { IfOk result (λ changes. AreTold plan.now changes.items) }
{
    let nodes = plan.tree().len();
    let mut changes = Vec::with_capacity(alloc, nodes as usize + 1)?;
    for _ in 0..nodes + 1 {
        changes.push(Vec::new(alloc))?;
    }
    Ok(changes)
}

/// Notes a change behind those of its device.
fn note(changes: &mut Vec<Vec<Next>>, next: Next) -> Result<(), AllocError>
    ensures told { (plan : PlanData) → IsPlannedNext plan next.device next.number next →
        AreTold plan changes.old.items → IfOk result (λ _. AreTold plan changes.new.items) }
{
    let device = next.device as usize;
    if device < changes.len() {
        changes[device].push(next)?;
    }
    Ok(())
}

/// Makes all changes of the open phase on the board, and notes them by their devices; how many there are.
fn make_changes(
    board: &mut Board,
    agents: &mut [Option<DeviceAgent>],
    changes: &mut Vec<Vec<Next>>,
) -> Result<usize, AllocError>
    requires agents { AreAgents board.old.plan agents.old }
    requires told { AreTold board.old.plan changes.old.items }
    ensures plan { board.new.plan ≡ board.old.plan }
    ensures agents { AreAgents board.new.plan agents.new }
    ensures told { IfOk result (λ _. AreTold board.new.plan changes.new.items) }
{
    let mut count = 0;
    for _made in 0..board.plan().bound() {
        let Some(next) = first_next(board) else {
            break;
        };
        note(changes, next)?;
        change(board, agents, next, &OpenGate);
        count += 1;
    }
    Ok(count)
}

/// Makes the moves of the board that are left in the open phase, and closes it.
fn end_phase(board: &mut Board, agents: &mut [Option<DeviceAgent>])
    requires agents { AreAgents board.old.plan agents.old }
    ensures plan { board.new.plan ≡ board.old.plan }
    ensures agents { AreAgents board.new.plan agents.new }
{
    sweep(board);
    let closed = board.ends().len();
    for _ in 0..board.plan().bound() {
        if board.done() || board.ends().len() != closed {
            break;
        }
        make_move(board, agents, &OpenGate);
    }
}

/// Makes turns on the board, of children before their parents and then of parents before their children: the bids go up, and
/// the prices come down.
fn sweep(board: &mut Board)
    ensures plan { board.new.plan ≡ board.old.plan }
{
    let nodes = board.plan().tree().len();
    for before in 0..nodes + 1 {
        take_turns(board, nodes - before);
    }
    for node in 0..nodes + 1 {
        take_turns(board, node);
    }
}

/// Makes the turns of a node of the board, as long as it has one.
fn take_turns(board: &mut Board, node: u32)
    ensures plan { board.new.plan ≡ board.old.plan }
{
    if node > board.plan().tree().len() {
        return;
    }
    for _ in 0..board.plan().bound() {
        if !turn_of(board, NodeId(node), &OpenGate) {
            break;
        }
    }
}
