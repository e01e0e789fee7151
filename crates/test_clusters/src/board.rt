//! A board that is driven call by call. Each call is in a function that promises nothing, so no fact of a call follows
//! a test around.

use crate::same::same;
use crate::shared::may_be_shared;
use pm_agent::DeviceAgent;
use pm_board::Board;
use pm_device::{DeviceState, Kind, Next};
use pm_market::{Journal, Line, Move};
use pm_plan::{PhaseEnd, Plan};
use pm_scene::read_scene;
use pm_tree::NodeId;
use std::alloc::Global;
use std::process::Abort;

/// A load of 100 watts under the auctioneer, which joins in the only phase; prices 0 to 9 in 10 steps.
const LONE_LOAD: &[u8] = b"{\"version\":1,\"basis\":{\"min\":0,\"max\":9,\"steps\":10},\"nodes\":[
    {\"name\":\"load1\",\"kind\":\"load\",\"parent\":\"auctioneer\",\"start\":100}],
    \"phases\":[{\"events\":[{\"join\":\"load1\"}]}]}";

/// A call of a board, with what it answers.
#[derive(Clone, Copy)]
enum Row {
    /// A turn of a node, and its line, if it made a move.
    Turns(u32, Option<Line>),
    /// The join of the load is posted, and the move, if it was made.
    Posts(Option<Move>),
    Closes(bool),
    /// Whether nothing is pending, and whether all phases are closed.
    Stands(bool, bool),
    /// How many lines and ends are kept.
    Keeps(usize, usize),
}

const JOIN: Move = Move::Change {
    device: 1,
    number: 1,
};

/// The load's first change.
const JOINS: Next = Next {
    device: 1,
    number: 1,
    member: true,
    state: DeviceState(100),
};

const LEARN: Line = Line {
    what: Move::Learn {
        child: 1,
        number: 1,
    },
    held: None,
};

const CLEAR: Line = Line {
    what: Move::Clear { index: 1 },
    held: None,
};

const PASS: Line = Line {
    what: Move::Pass { node: 1, index: 1 },
    held: Some((9, 1)),
};

const CLOSE: Line = Line {
    what: Move::Close { phase: 1 },
    held: None,
};

/// The only run of the lone load: before its change nothing can be done, and the phase is closed once the load holds the price.
const ONLY_RUN: &[Row] = &[
    Row::Stands(true, false),
    Row::Turns(0, None),
    Row::Closes(false),
    Row::Posts(Some(JOIN)),
    Row::Posts(None),
    Row::Stands(false, false),
    Row::Turns(0, Some(LEARN)),
    Row::Turns(0, Some(CLEAR)),
    Row::Closes(false),
    Row::Turns(1, Some(PASS)),
    Row::Stands(true, false),
    Row::Closes(true),
    Row::Closes(false),
    Row::Stands(true, true),
    Row::Keeps(5, 1),
];

#[tactic(auto, using(pm_cluster::proofs::Parents::nodes_are))]
fn turn<R: Abort>(rt: &R, board: &mut Board, node: u32) -> Option<Line> {
    assert!(rt; node <= board.plan().tree().len());
    board.turn(NodeId(node)).expect(rt, "memory")
}

/// Posts the join of the load by an agent of it.
fn post<R: Abort>(rt: &R, alloc: Global, board: &mut Board) -> Option<Move> {
    let mut agent = DeviceAgent::new(alloc, Kind::Load, 1, 10).expect(rt, "memory");
    let made = agent.work(JOINS, &[]);
    assert!(rt; made.demand().steps() == board.plan().basis().steps());
    board.post(made).ok()
}

fn standing(board: &Board) -> (bool, bool) {
    (board.quiet(), board.done())
}

fn kept(board: &Board) -> (usize, usize) {
    (board.journal().len(), board.ends().len())
}

/// A call answers as its row says.
fn answers<R: Abort>(rt: &R, alloc: Global, board: &mut Board, place: usize, row: Row) {
    match row {
        Row::Turns(node, line) => same(rt, place, turn(rt, board, node), line),
        Row::Posts(what) => same(rt, place, post(rt, alloc, board), what),
        Row::Closes(due) => same(rt, place, board.close().expect(rt, "memory"), due),
        Row::Stands(quiet, done) => same(rt, place, standing(board), (quiet, done)),
        Row::Keeps(lines, ends) => same(rt, place, kept(board), (lines, ends)),
    }
}

/// The lines of the only run.
const LINES: &[Line] = &[
    Line {
        what: JOIN,
        held: None,
    },
    LEARN,
    CLEAR,
    PASS,
    CLOSE,
];

/// Whether a journal has the lines of the only run.
fn are_lines(journal: &Journal) -> bool {
    for (place, line) in LINES.iter().enumerate() {
        if journal.get(place) != Some(*line) {
            return false;
        }
    }
    journal.len() == LINES.len()
}

/// Whether these are the ends of the only run: one of step 9, price 9 and total 100, whose one member takes 100 watts.
fn are_ends(ends: &[PhaseEnd]) -> bool {
    let [end] = ends else {
        return false;
    };
    let [member] = end.members() else {
        return false;
    };
    (end.step(), end.price(), end.total(), member.power) == (9, 9, 100, 100)
}

/// A board hands on the lines of the only run, and its end.
fn hands_on<R: Abort>(rt: &R, board: Board) {
    let (journal, ends) = board.into_parts();
    same(rt, "lines", are_lines(&journal), true);
    same(rt, "ends", are_ends(&ends), true);
}

fn has_one_run<R: Abort>(rt: &R, alloc: Global, plan: &Plan) {
    let mut board = Board::open(alloc, plan).expect(rt, "memory");
    for (place, row) in ONLY_RUN.iter().enumerate() {
        answers(rt, alloc, &mut board, place, *row);
    }
    hands_on(rt, board);
}

#[test]
fn a_lone_load_has_one_run(rt: HostRuntime) {
    let plan = read_scene(rt.alloc(), LONE_LOAD).expect(&rt, "a plan");
    has_one_run(&rt, rt.alloc(), &plan);
}

/// Boards may be sent to threads and shared by them: that is proved here.
#[test]
fn boards_may_be_shared() {
    may_be_shared::<Board>();
}
