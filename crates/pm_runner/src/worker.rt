//! The thread of one node: it sleeps, takes its turn under the lock, and wakes the others.

ghost use Rattle.std.specs.Prelude.{◌≡◌, None, IfSome};
ghost use Rattle.pm_cluster.specs.Next.{IsNext};
ghost use Rattle.pm_board.specs.Boards.{board_state};

use crate::desk::{Desk, Job, Task};
use pm_agent::Made;
use pm_bid::ArrayBid;
use pm_market::Line;
use pm_nodes::{Gate, make_bid, pause};
use pm_waking::Rings;
use std::sync::{Condvar, Mutex, MutexGuard, Wait};
use std::thread;

/// What the threads of a run share.
#[derive(Clone, Copy)]
pub(crate) struct Shared<'a, 'p> {
    pub(crate) desk: &'a Mutex<Desk<'p>>,
    pub(crate) bells: &'a [Condvar],
    /// By the numbers of the nodes.
    pub(crate) workers: &'a [Mutex<Worker>],
}

impl<'a, 'p> Shared<'a, 'p> {
    /// Takes the lock. A hold is shorter than a sleep and its wake-up, so a thread that finds the lock taken looks again for a
    /// while before it sleeps.
    pub(crate) fn lock<R: Wait>(self, rt: &R) -> MutexGuard<'a, Desk<'p>> {
        for _ in 0..LOOKS {
            if let Some(desk) = self.desk.try_lock() {
                return desk;
            }
            pause();
        }
        self.desk.lock(rt)
    }
}

/// What serves one node.
#[derive(Drop)]
pub(crate) struct Worker {
    /// The bid of a device, in which it makes its demand after its next change.
    pub(crate) bid: Option<ArrayBid>,
    /// The bells to ring once the lock is free. It has room for all bells.
    pub(crate) rings: Rings,
}

/// What a turn came to.
#[derive(Clone, Copy)]
pub(crate) struct Turn<'p> {
    pub(crate) line: Option<Line>,
    /// The node takes no more turns.
    pub(crate) over: bool,
    /// The change that the device is to make next.
    job: Option<Job<'p>>,
    /// Where the device rests, as it has no work.
    rest: Option<Rest>,
}

/// A bell, and how often it was rung when a node was noted as sleeping there.
#[derive(Clone, Copy)]
struct Rest {
    bell: u32,
    rung: u64,
}

/// How often a thread that finds the lock taken looks at it before it sleeps.
const LOOKS: u32 = 50;

/// How often a device that is near its next work yields the processor before it sleeps. A sleep and its wake-up cost as much as
/// some ten yields, and the moves of the other nodes that it waits for take about as long.
const YIELDS: u32 = 50;

impl<'p> Turn<'p> {
    /// The last turn, without a move.
    pub(crate) fn last() -> Turn<'p> {
        Turn::last_with(None)
    }

    /// The last turn, with its line.
    fn last_with(line: Option<Line>) -> Turn<'p>
        ensures none { result.job ≡ None }
    {
        Turn {
            line,
            over: true,
            job: None,
            rest: None,
        }
    }
}

/// Makes the turns of a node until the run is over.
pub(crate) fn serve_node<R: Wait, G: Gate>(rt: &R, shared: Shared, gate: &G, node: u32) {
    let Some(own) = shared.workers.get(node as usize) else {
        return give_up(rt, shared);
    };
    let mut own = own.lock(rt);
    let worker = &mut *own;
    let mut job = None;
    for _ in rt.forever() {
        gate.before(node);
        let turn = match job {
            Some(job) => change(rt, shared, worker, node, job),
            None => await_turn(rt, shared, worker, node),
        };
        gate.after(node, turn.line);
        if turn.over {
            return;
        }
        job = turn.job;
        if let Some(rest) = turn.rest {
            yield_at(shared, rest);
        }
    }
}

/// Gives the run up.
pub(crate) fn give_up<R: Wait>(rt: &R, shared: Shared) {
    let mut desk = shared.lock(rt);
    desk.halt();
    drop(desk);
    ring_all(shared);
}

/// Rings all bells.
fn ring_all(shared: Shared) {
    for bell in shared.bells {
        bell.notify_all();
    }
}

/// Sleeps until a node has something to do, and makes its turn.
fn await_turn<'p, R: Wait>(
    rt: &R,
    shared: Shared<'_, 'p>,
    worker: &mut Worker,
    node: u32,
) -> Turn<'p> {
    let mut desk = shared.lock(rt);
    for _ in rt.forever() {
        if desk.is_over() || desk.has_task(node) {
            break;
        }
        if desk.pending.is_finished(node) {
            return Turn::last();
        }
        let place = desk.lay(node);
        let Some(bell) = shared.bells.get(place as usize) else {
            desk.halt();
            break;
        };
        desk = bell.wait(rt, desk);
    }
    desk.pending.rise(node);
    turn_at_desk(rt, shared, worker, node, desk)
}

/// Makes the turn of a node that is awake, with the lock held. The lock is free afterwards.
pub(crate) fn turn_at_desk<'a, 'p, R: Wait>(
    rt: &R,
    shared: Shared<'a, 'p>,
    worker: &mut Worker,
    node: u32,
    desk: MutexGuard<'a, Desk<'p>>,
) -> Turn<'p> {
    let mut desk = desk;
    let task = desk.task_of(node);
    if let Task::Change(job) = task {
        let_go(shared, &mut worker.rings, desk);
        return change(rt, shared, worker, node, job);
    }
    let line = moved(&mut desk, node, task);
    end_turn(shared, &mut worker.rings, node, desk, line)
}

/// Makes a node's task, unless it is a change, which is worked out without the lock.
fn moved(desk: &mut Desk, node: u32, task: Task) -> Option<Line> {
    match task {
        Task::Move => desk.move_node(node),
        Task::Close => desk.close(),
        Task::Change(_) | Task::Nothing => None,
    }
}

/// Works out a device's change without the lock, and makes it under the lock.
fn change<'p, R: Wait>(
    rt: &R,
    shared: Shared<'_, 'p>,
    worker: &mut Worker,
    node: u32,
    job: Job<'p>,
) -> Turn<'p> {
    let Worker { bid, rings } = worker;
    let Some(made) = made_in(bid, job) else {
        give_up(rt, shared);
        return Turn::last();
    };
    let mut desk = shared.lock(rt);
    let (line, other) = desk.post(made);
    *bid = Some(other);
    end_turn(shared, rings, node, desk, line)
}

/// What a change makes of a device, in the bid that its worker has.
fn made_in(bid: &mut Option<ArrayBid>, job: Job) -> Option<Made> {
    make_bid(job.plan, job.next, bid.take()?).ok()
}

/// Ends the turn of a node. The lock is free afterwards.
pub(crate) fn end_turn<'a, 'p>(
    shared: Shared<'a, 'p>,
    rings: &mut Rings,
    node: u32,
    desk: MutexGuard<'a, Desk<'p>>,
    line: Option<Line>,
) -> Turn<'p> {
    let mut desk = desk;
    let turn = turn_with(shared, &mut desk, node, line);
    let_go(shared, rings, desk);
    turn
}

/// The turn of a node with this line, and what the node does next: a device's next change is the one that the board names now,
/// whatever came of the last.
fn turn_with<'p>(
    shared: Shared<'_, 'p>,
    desk: &mut Desk<'p>,
    node: u32,
    line: Option<Line>,
) -> Turn<'p>
    ensures next { let s = board_state desk.new.board in
        IfSome result.job
        (λ job. IsNext desk.new.board.plan s.closed s.counts job.next.device job.next) }
    ensures its { IfSome result.job (λ job. job.next.device ≡ node) }
{
    if desk.is_over() {
        return Turn::last_with(line);
    }
    let mut turn = Turn {
        line,
        over: false,
        job: None,
        rest: None,
    };
    if desk.pending.may_change(node) {
        turn.job = desk.job_of(node);
        return turn;
    }
    turn.rest = rest_at(shared, desk, node);
    turn
}

/// Notes that a node rests, if it is a device that has nothing to do and is near its next work.
fn rest_at(shared: Shared, desk: &mut Desk, node: u32) -> Option<Rest> {
    if desk.has_task(node) || !desk.pending.is_resting(node) {
        return None;
    }
    let bell = desk.lay_near(node)?;
    let rung = shared.bells.get(bell as usize)?.notifications();
    Some(Rest { bell, rung })
}

/// Frees the lock, and rings the bells of the nodes that got work while it was held.
pub(crate) fn let_go<'a, 'p>(
    shared: Shared<'a, 'p>,
    rings: &mut Rings,
    desk: MutexGuard<'a, Desk<'p>>,
) {
    let mut desk = desk;
    desk.pending.hand_out(rings);
    drop(desk);
    if rings.all {
        ring_all(shared);
    }
    for bell in rings.bells.as_slice() {
        if let Some(bell) = shared.bells.get(*bell as usize) {
            bell.notify_all();
        }
    }
    rings.clear();
}

/// Yields the processor for a while, at most until the bell is rung.
fn yield_at(shared: Shared, rest: Rest) {
    let Some(bell) = shared.bells.get(rest.bell as usize) else {
        return;
    };
    for _ in 0..YIELDS {
        if bell.notifications() != rest.rung {
            return;
        }
        thread::yield_now();
    }
}
