//! Runs a plan with a thread for each node, and settles what the threads leave.

ghost use Rattle.std.specs.Prelude.{◌≡◌, IfOk};
ghost use Rattle.pm_turns.specs.Settled.{IsSettled};

use crate::bells::{Bells, make_bells};
use crate::desk::Desk;
use crate::pending::Pending;
use crate::rotation::serve_in_rotation;
use crate::worker::{Shared, Worker, give_up, serve_node};
use pm_bid::{ArrayBid, uncounted};
use pm_board::Board;
use pm_nodes::Gate;
use pm_plan::{Plan, is_device};
use pm_tree::NodeId;
use pm_turns::complete;
use pm_waking::Rings;
use std::alloc::{AllocError, Global};
use std::sync::{Mutex, Wait};
use std::thread;
use std::thread::{Builder, Threads};

/// The stack of a node's thread, in bytes.
const STACK: usize = 262_144;

/// Makes all moves of a plan's run, with a thread for each node, and tells the gate of each turn.
///
/// The board that it answers runs the plan; all phases are closed, all changes made, and nothing is pending. The memory of
/// the run is taken before the threads start, and the answer is an error only for want of memory. Where a thread cannot be
/// started the caller's thread serves its node.
pub fn settle<'p, R: Threads + Wait + Sync, G: Gate>(
    rt: &R,
    alloc: Global,
    plan: &'p Plan,
    gate: &G,
) -> Result<Board<'p>, AllocError>
    ensures plan { IfOk result (λ b. b.plan ≡ plan.now) }
    ensures settled { IfOk result IsSettled }
{
    let board = run_threads(rt, alloc, plan, gate, STACK)?;
    complete(alloc, board, plan, gate)
}

/// The first stage of [`settle`]: the board as the threads leave it, each with a stack of so many bytes.
///
/// A stack that no thread can have leaves all nodes to the caller's thread. The board comes out of a lock, so no clause says
/// which plan it runs or what was made: [`complete`] looks.
pub fn run_threads<'p, R: Threads + Wait + Sync, G: Gate>(
    rt: &R,
    alloc: Global,
    plan: &'p Plan,
    gate: &G,
    stack: usize,
) -> Result<Board<'p>, AllocError> {
    let bells = Bells::of(plan.tree().len() + 1);
    let workers = make_workers(alloc, plan, bells.count())?;
    let order = starting_order(alloc, plan)?;
    run_workers(rt, alloc, plan, gate, bells, &workers, &order, stack)
}

/// The board as these workers leave it, whose threads start in this order.
fn run_workers<'p, R: Threads + Wait + Sync, G: Gate>(
    rt: &R,
    alloc: Global,
    plan: &'p Plan,
    gate: &G,
    numbers: Bells,
    workers: &[Mutex<Worker>],
    order: &[u32],
    stack: usize,
) -> Result<Board<'p>, AllocError> {
    let left = Vec::with_capacity(alloc, order.len())?;
    let bells = make_bells(alloc, numbers.count())?;
    let desk = Mutex::new(open_desk(alloc, plan, numbers)?);
    let shared = Shared {
        desk: &desk,
        bells: bells.as_slice(),
        workers,
    };
    serve_all(rt, shared, gate, order, left, stack);
    let Desk {
        board,
        pending: _,
        halted: _,
    } = desk.into_inner();
    Ok(board)
}

/// What the lock guards before the first move.
fn open_desk<'p>(alloc: Global, plan: &'p Plan, bells: Bells) -> Result<Desk<'p>, AllocError> {
    let pending = Pending::new(alloc, plan, bells)?;
    Ok(Desk::new(Board::open(alloc, plan)?, pending))
}

/// Serves each of the nodes on a thread of its own, and those whose threads cannot be started on this one.
fn serve_all<R: Threads + Wait + Sync, G: Gate>(
    rt: &R,
    shared: Shared,
    gate: &G,
    nodes: &[u32],
    left: Vec<u32>,
    stack: usize,
) {
    let mut left = left;
    thread::scope(thread::scope_env(), rt, move |scope| {
        for node in nodes {
            let node = *node;
            let work = move || serve_node(rt, shared, gate, node);
            let started = Builder::new().stack_size(stack).spawn_scoped(scope, work);
            if started.is_err() && left.push(node).is_err() {
                give_up(rt, shared);
            }
        }
        serve_in_rotation(rt, shared, gate, left.as_slice());
    });
}

/// A worker for each node, the devices' each with a bid.
fn make_workers(alloc: Global, plan: &Plan, bells: u32) -> Result<Vec<Mutex<Worker>>, AllocError> {
    let nodes = plan.tree().len();
    let mut workers = Vec::with_capacity(alloc, nodes as usize + 1)?;
    for node in 0..nodes + 1 {
        workers.push(make_worker(alloc, plan, NodeId(node), bells)?)?;
    }
    Ok(workers)
}

fn make_worker(
    alloc: Global,
    plan: &Plan,
    node: NodeId,
    bells: u32,
) -> Result<Mutex<Worker>, AllocError> {
    let bid = bid_of(alloc, plan, node)?;
    let rings = Rings::with_capacity(alloc, bells)?;
    Ok(Mutex::new(Worker { bid, rings }))
}

/// A bid to write in for a device; none for another node.
fn bid_of(alloc: Global, plan: &Plan, node: NodeId) -> Result<Option<ArrayBid>, AllocError> {
    if !is_device(plan, node) {
        return Ok(None);
    }
    let bid = ArrayBid::zero(alloc, plan.basis().steps(), &mut uncounted())?;
    Ok(Some(bid))
}

/// The nodes in the order in which their threads start: the devices first, since they have something to do, and a parent
/// after all nodes below it.
fn starting_order(alloc: Global, plan: &Plan) -> Result<Vec<u32>, AllocError> {
    let mut order = Vec::with_capacity(alloc, plan.tree().len() as usize + 1)?;
    add_devices(plan, &mut order)?;
    add_parents(plan, &mut order)?;
    Ok(order)
}

fn add_devices(plan: &Plan, order: &mut Vec<u32>) -> Result<(), AllocError> {
    for node in 1..plan.tree().len() + 1 {
        if plan.tree().is_leaf(NodeId(node)) {
            order.push(node)?;
        }
    }
    Ok(())
}

fn add_parents(plan: &Plan, order: &mut Vec<u32>) -> Result<(), AllocError> {
    let nodes = plan.tree().len();
    for before in 0..nodes + 1 {
        let node = nodes - before;
        if !plan.tree().is_leaf(NodeId(node)) {
            order.push(node)?;
        }
    }
    Ok(())
}
