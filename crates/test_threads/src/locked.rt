//! Runs over one board behind a lock.

use crate::holds::holds;
use crate::runs::{LOOKS, REJOINS, TWO_BIDS, are_right, demo, holding, meeting, plan_of};
use pm_board::Board;
use pm_gates::{ClosingGate, DrawingGate, Moment};
use pm_market::{Journal, Line};
use pm_nodes::{Gate, OpenGate};
use pm_plan::{MemberLine, PhaseEnd, Plan};
use pm_runner::{run_threads, settle};
use pm_turns::{complete, drain};
use std::alloc::{AllocError, Global};
use std::process::Abort;
use std::sync::Wait;
use std::thread::Threads;

/// A stack that each thread can have, in bytes.
const STACK: usize = 262_144;

/// Whether a board has the ends of the plain program, and a journal within the bound of the plan.
fn is_right<R: Abort>(rt: &R, alloc: Global, plan: &Plan, board: &Board) -> bool {
    board.journal().len() as u64 <= plan.bound() && are_right(rt, alloc, plan, board.ends())
}

/// How often a line is in a list.
fn times(lines: &[Line], line: Line) -> usize {
    let mut times = 0usize;
    for other in lines {
        if *other == line {
            times = times.saturating_add(1);
        }
    }
    times
}

/// Whether the lines are those of the journal, each once.
fn are_told(lines: &[Line], journal: &Journal) -> bool {
    for at in 0..journal.len() {
        match journal.get(at) {
            Some(line) if times(lines, line) == 1 => {}
            _ => return false,
        }
    }
    lines.len() == journal.len()
}

/// A load takes 100 and a generator gives 150.
const MEMBERS: &[MemberLine] = &[
    MemberLine {
        node: 1,
        power: 100,
        number: 1,
    },
    MemberLine {
        node: 2,
        power: -150,
        number: 1,
    },
];

/// Whether there is one end, in which they do so at step 4.
fn are_the_end(ends: &[PhaseEnd]) -> bool {
    let [end] = ends else {
        return false;
    };
    (end.step(), end.price(), end.total()) == (4, 4, -50) && end.members() == MEMBERS
}

/// Whether so many nodes met, and every line was told once.
fn is_told(met: u64, due: u64, lines: &[Line], board: &Board) -> bool {
    met == due && are_told(lines, board.journal())
}

/// The two devices' threads meet, and every line is told once.
#[test]
fn the_meeting_gate(rt: HostRuntime) {
    lines_meet(&rt, rt.alloc(), &plan_of(&rt, rt.alloc(), TWO_BIDS));
}

fn lines_meet<R: Threads + Wait + Sync + Abort>(rt: &R, alloc: Global, plan: &Plan) {
    let gate = meeting(rt, alloc, Moment::Line, LOOKS);
    let board = settle(rt, alloc, plan, &gate).expect(rt, "a board");
    let met = gate.gate().met();
    let told = is_told(met, 2, &gate.into_lines(), &board);
    holds(rt, "told", told);
    holds(rt, "end", are_the_end(board.ends()));
}

/// Of two nodes that one thread serves the second finds that the first has begun, and no more.
#[test]
fn one_thread_never_meets(rt: HostRuntime) {
    nobody_meets(&rt, rt.alloc(), &plan_of(&rt, rt.alloc(), TWO_BIDS));
}

fn nobody_meets<R: Threads + Wait + Sync + Abort>(rt: &R, alloc: Global, plan: &Plan) {
    one_begins(rt, alloc, plan, false);
    one_begins(rt, alloc, plan, true);
}

/// A board that one thread makes is right, and the second node finds that the first has begun.
fn one_begins<R: Threads + Wait + Sync + Abort>(
    rt: &R,
    alloc: Global,
    plan: &Plan,
    by_threads: bool,
) {
    let gate = meeting(rt, alloc, Moment::Line, 1000);
    let board = made_alone(rt, alloc, plan, &gate, by_threads).expect(rt, "a board");
    let met = gate.gate().met();
    let told = is_told(met, 1, &gate.into_lines(), &board);
    holds(rt, ("told", by_threads), told);
    holds(rt, ("right", by_threads), is_right(rt, alloc, plan, &board));
}

/// A board that one thread makes: the caller's, since no other can start, or the caller's without others.
fn made_alone<'p, R: Threads + Wait + Sync, G: Gate>(
    rt: &R,
    alloc: Global,
    plan: &'p Plan,
    gate: &G,
    by_threads: bool,
) -> Result<Board<'p>, AllocError> {
    if by_threads {
        run_threads(rt, alloc, plan, gate, usize::MAX)
    } else {
        drain(alloc, plan, gate)
    }
}

/// A closing by the caller's thread is told for node 0, if the caller serves all nodes, and if it makes all moves.
#[test]
fn the_caller_closes_for_the_auctioneer(rt: HostRuntime) {
    must_close_both(&rt, rt.alloc(), &plan_of(&rt, rt.alloc(), REJOINS));
}

fn must_close_both<R: Threads + Wait + Sync + Abort>(rt: &R, alloc: Global, plan: &Plan) {
    must_close(rt, alloc, plan, true);
    must_close(rt, alloc, plan, false);
}

/// A board that one thread makes is right, and of ten closings that are told ten are for node 0.
fn must_close<R: Threads + Wait + Sync + Abort>(
    rt: &R,
    alloc: Global,
    plan: &Plan,
    by_threads: bool,
) {
    let gate = ClosingGate::new();
    let board = made_alone(rt, alloc, plan, &gate, by_threads).expect(rt, "a board");
    let closings = (gate.closings(), gate.for_auctioneer());
    holds(rt, (by_threads, closings), closings == (10, 10));
    holds(rt, ("right", by_threads), is_right(rt, alloc, plan, &board));
}

/// What the threads leave is completed if it runs an equal plan; if the plan differs, a new board is.
#[test]
fn boards_of_both_plans_are_completed(rt: HostRuntime) {
    are_completed(&rt, rt.alloc(), &demo(&rt, rt.alloc(), 3, 7));
}

fn are_completed<R: Abort>(rt: &R, alloc: Global, plan: &Plan) {
    is_completed(rt, alloc, plan, &demo(rt, alloc, 3, 7));
    is_completed(rt, alloc, plan, &demo(rt, alloc, 3, 8));
}

/// A board of another plan is completed as one of the plan.
fn is_completed<R: Abort>(rt: &R, alloc: Global, plan: &Plan, other: &Plan) {
    let board = Board::open(alloc, other).expect(rt, "a board");
    let completed = complete(alloc, board, plan, &OpenGate).expect(rt, "a board");
    holds(rt, "completed", is_right(rt, alloc, plan, &completed));
}

/// The threads, each with such a stack, leave nothing to the caller, and the ends are right.
fn must_be_done<R: Threads + Wait + Sync + Abort, G: Gate>(
    rt: &R,
    alloc: Global,
    plan: &Plan,
    gate: &G,
    stack: usize,
    case: (u64, u64),
) {
    let board = run_threads(rt, alloc, plan, gate, stack).expect(rt, "a board");
    holds(rt, ("done", case), board.done());
    holds(rt, ("right", case), is_right(rt, alloc, plan, &board));
}

fn must_be_done_alone<R: Threads + Wait + Sync + Abort>(rt: &R, alloc: Global, plan: &Plan) {
    must_be_done(rt, alloc, plan, &OpenGate, usize::MAX, (0, 0));
}

/// No thread can have so large a stack, so the caller serves all nodes, and leaves nothing to make afterwards.
#[test]
fn no_thread_starts(rt: HostRuntime) {
    must_be_done_alone(&rt, rt.alloc(), &plan_of(&rt, rt.alloc(), REJOINS));
}

/// The same for forty devices.
#[test]
fn no_thread_of_forty_starts(rt: HostRuntime) {
    must_be_done_alone(&rt, rt.alloc(), &demo(&rt, rt.alloc(), 40, 7));
}

/// Whoever is slow, the threads leave nothing to the caller, and the ends are the same.
#[test]
fn slow_nodes_change_nothing(rt: HostRuntime) {
    must_stay_right(&rt, rt.alloc(), &plan_of(&rt, rt.alloc(), REJOINS));
}

/// The same for twenty devices.
#[test]
fn slow_nodes_of_twenty_change_nothing(rt: HostRuntime) {
    must_stay_right(&rt, rt.alloc(), &demo(&rt, rt.alloc(), 20, 7));
}

/// Divisors, and the rests of the numbers of the nodes that are held back.
const HELD: &[(u32, u32)] = &[(11, 0), (11, 1), (11, 4), (2, 0), (2, 1)];

/// Seeds, and how often a thread yields at most.
const DRAWN: &[(u64, u64)] = &[(1, 30), (2, 300)];

fn must_stay_right<R: Threads + Wait + Sync + Abort>(rt: &R, alloc: Global, plan: &Plan) {
    for held in HELD {
        must_be_done_held(rt, alloc, plan, *held);
    }
    for drawn in DRAWN {
        must_be_done_drawn(rt, alloc, plan, *drawn);
    }
}

/// They are done if the gate holds some of the nodes back.
fn must_be_done_held<R: Threads + Wait + Sync + Abort>(
    rt: &R,
    alloc: Global,
    plan: &Plan,
    held: (u32, u32),
) {
    let gate = holding(rt, alloc, held.0, held.1);
    must_be_done(
        rt,
        alloc,
        plan,
        &gate,
        STACK,
        (u64::from(held.0), u64::from(held.1)),
    );
}

/// They are done if the gate draws how long it holds a thread back.
fn must_be_done_drawn<R: Threads + Wait + Sync + Abort>(
    rt: &R,
    alloc: Global,
    plan: &Plan,
    drawn: (u64, u64),
) {
    let gate = DrawingGate::new(drawn.0, drawn.1);
    must_be_done(rt, alloc, plan, &gate, STACK, drawn);
}

/// More than two hundred threads.
#[test]
fn many_nodes(rt: HostRuntime) {
    must_settle_right(&rt, rt.alloc(), &demo(&rt, rt.alloc(), 200, 7));
}

fn must_settle_right<R: Threads + Wait + Sync + Abort>(rt: &R, alloc: Global, plan: &Plan) {
    let board = settle(rt, alloc, plan, &OpenGate).expect(rt, "a board");
    holds(rt, "right", is_right(rt, alloc, plan, &board));
}
