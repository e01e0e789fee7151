//! What a device's thread does on the board if its change is refused.

use crate::holds::holds;
use crate::runs::{REJOINS, plan_of};
use pm_bid::{ArrayBid, uncounted};
use pm_board::Board;
use pm_device::Next;
use pm_nodes::make_bid;
use pm_plan::Plan;
use pm_turns::{Posted, next_of, post_made};
use std::alloc::Global;
use std::process::Abort;

/// The device that joins, leaves and joins again in the second phase.
const DEVICE: u32 = 4;

/// A scene in which that device is a solar panel.
const OTHER_KIND: &[u8] = b"{\"version\":2,\"basis\":{\"min\":0,\"max\":9,\"steps\":10},\"nodes\":[
    {\"name\":\"c1\",\"kind\":\"concentrator\",\"parent\":\"auctioneer\"},
    {\"name\":\"c2\",\"kind\":\"concentrator\",\"parent\":\"c1\"},
    {\"name\":\"c3\",\"kind\":\"concentrator\",\"parent\":\"c2\"},
    {\"name\":\"a\",\"kind\":\"solar\",\"parent\":\"c3\",\"start\":100}],
    \"phases\":[]}";

/// A board whose first phase, which has no changes, is closed.
fn in_second_phase<'p, R: Abort>(rt: &R, alloc: Global, plan: &'p Plan) -> Board<'p> {
    let mut board = Board::open(alloc, plan).expect(rt, "a board");
    holds(rt, "closed", board.close().expect(rt, "memory"));
    board
}

/// A change that was made already is refused, and the next change that the board names then is made.
#[test]
fn a_refused_change_is_followed_by_a_new_next(rt: HostRuntime) {
    all_are_posted(&rt, rt.alloc(), &plan_of(&rt, rt.alloc(), REJOINS));
}

/// The numbers of the changes that are made one after the other.
const NUMBERS: &[u32] = &[1, 2, 3];

/// Each change is posted twice, and after each the board is asked for the next one.
fn all_are_posted<R: Abort>(rt: &R, alloc: Global, plan: &Plan) {
    let mut board = in_second_phase(rt, alloc, plan);
    for number in NUMBERS {
        is_posted(rt, alloc, &mut board, *number);
    }
}

/// The next change has this number and is made, and a second post of it is refused.
fn is_posted<R: Abort>(rt: &R, alloc: Global, board: &mut Board, number: u32) {
    let next = next_of(board, DEVICE).expect(rt, "a next change");
    let plan = board.plan();
    holds(rt, number, next.number == number);
    let posted = post(rt, alloc, board, plan, next);
    holds(rt, (number, "made"), posted == Posted::Made);
    let posted = post(rt, alloc, board, plan, next);
    holds(rt, (number, "stale"), posted == Posted::Stale);
}

/// A change of another kind is refused, and to ask anew gives the same.
#[test]
fn a_change_of_another_kind_is_unfit(rt: HostRuntime) {
    let plan = plan_of(&rt, rt.alloc(), REJOINS);
    let other = plan_of(&rt, rt.alloc(), OTHER_KIND);
    is_unfit(&rt, rt.alloc(), &plan, &other);
}

/// The next change is unfit if it is made by another plan, and stays the next one.
fn is_unfit<R: Abort>(rt: &R, alloc: Global, plan: &Plan, other: &Plan) {
    refuses_other(rt, alloc, &mut in_second_phase(rt, alloc, plan), other);
}

fn refuses_other<R: Abort>(rt: &R, alloc: Global, board: &mut Board, other: &Plan) {
    let next = next_of(board, DEVICE).expect(rt, "a next change");
    let posted = post(rt, alloc, board, other, next);
    holds(rt, "unfit", posted == Posted::Unfit);
    holds(rt, "same", next_of(board, DEVICE) == Some(next));
}

/// What comes of a change that is made by a plan, which may be another one than the board's. What comes back is a bid of as many
/// steps.
fn post<R: Abort>(rt: &R, alloc: Global, board: &mut Board, plan: &Plan, next: Next) -> Posted {
    let steps = board.plan().basis().steps();
    let bid = ArrayBid::zero(alloc, steps, &mut uncounted()).expect(rt, "memory");
    let Ok(made) = make_bid(plan, next, bid) else {
        panic!(rt; "no such bid");
    };
    assert!(rt; made.demand().steps() == steps);
    let (posted, other) = post_made(board, made);
    holds(rt, "steps", other.steps() == steps);
    posted
}
