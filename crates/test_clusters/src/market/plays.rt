//! Small markets for tests, the moves that play them, and the moves that may be tried.

use pm_market::{Market, Move};
use std::alloc::Global;
use std::process::Abort;

/// A node: its parent, whether it is a device, and after which of its changes it is a member.
pub type Node<'a> = (u32, bool, &'a [bool]);

/// A market of nodes. It has one phase of all changes.
pub fn market_of<R: Abort>(rt: &R, alloc: Global, nodes: &[Node<'_>]) -> Market {
    let mut parents = Vec::new(alloc);
    let mut leaves = Vec::new(alloc);
    let mut members = Vec::new(alloc);
    let mut end = Vec::new(alloc);
    for node in nodes {
        parents.push(node.0).expect(rt, "memory");
        leaves.push(node.1).expect(rt, "memory");
        end.push(u32::try_from(node.2.len()).unwrap_or(0))
            .expect(rt, "memory");
        members
            .push(node.2.to_vec(alloc).expect(rt, "memory"))
            .expect(rt, "memory");
    }
    let mut ends = Vec::new(alloc);
    ends.push(end).expect(rt, "memory");
    Market::new(alloc, parents, leaves, members, ends).expect(rt, "memory")
}

/// Makes the moves up to the first that is not legal, and says its place; their number if all are legal.
pub fn play<R: Abort>(rt: &R, market: &mut Market, moves: &[Move]) -> usize {
    for (place, what) in moves.iter().enumerate() {
        if !market.is_legal(*what) {
            return place;
        }
        market.apply(*what).expect(rt, "memory");
    }
    moves.len()
}

/// Concentrator 1.
const GATHERS: Node = (0, false, &[]);

/// A device of one change under it.
const DEVICE: Node = (1, true, &[true]);

/// Concentrator 1 over a device of nine changes.
pub const ONE_DEVICE: &[Node] = &[GATHERS, (1, true, &[true; 9])];

/// Concentrator 1 over nine devices of one change each.
pub const NINE_DEVICES: &[Node] = &[
    GATHERS, DEVICE, DEVICE, DEVICE, DEVICE, DEVICE, DEVICE, DEVICE, DEVICE, DEVICE,
];

/// A change under this number, and its learning.
fn learnt(device: u32, number: u32) -> [Move; 2] {
    let child = device;
    [
        Move::Change { device, number },
        Move::Learn { child, number },
    ]
}

/// The change and the learning of a round: of the one device, else each of another.
fn round_of(devices: u32, round: u32) -> [Move; 2] {
    if devices == 1 {
        learnt(2, round)
    } else {
        learnt(round.saturating_add(1), 1)
    }
}

/// Nine rounds of a change, a learning and a publishing.
pub fn nine_rounds<R: Abort>(rt: &R, alloc: Global, devices: u32) -> Vec<Move> {
    let mut moves = Vec::new(alloc);
    for number in 1..10 {
        moves
            .extend_from_slice(&round_of(devices, number))
            .expect(rt, "memory");
        moves
            .push(Move::Publish { node: 1, number })
            .expect(rt, "memory");
    }
    moves
}

/// A device of one change under concentrator 2.
const LOWER: Node = (2, true, &[true]);

/// Concentrator 1, concentrator 2 under it, devices 3 to 11 under 2 and device 12 under 1, each with one change.
pub const TWO_LEVELS: &[Node] = &[
    GATHERS,
    (1, false, &[]),
    LOWER,
    LOWER,
    LOWER,
    LOWER,
    LOWER,
    LOWER,
    LOWER,
    LOWER,
    LOWER,
    DEVICE,
];

/// The moves that fill both windows there.
pub fn two_windows<R: Abort>(rt: &R, alloc: Global) -> Vec<Move> {
    let mut moves = Vec::new(alloc);
    for number in 1..9 {
        moves
            .extend_from_slice(&learnt(number + 2, 1))
            .expect(rt, "memory");
        moves
            .extend_from_slice(&published(number))
            .expect(rt, "memory");
    }
    moves.extend_from_slice(&learnt(11, 1)).expect(rt, "memory");
    moves.extend_from_slice(&learnt(12, 1)).expect(rt, "memory");
    moves
}

/// What both concentrators then do under a number.
fn published(number: u32) -> [Move; 3] {
    [
        Move::Publish { node: 2, number },
        Move::Learn { child: 2, number },
        Move::Publish { node: 1, number },
    ]
}

/// The greatest number that a candidate has.
const GREATEST: usize = 5;

/// How many candidates there are: five forms of three nodes each, under each number.
pub const CANDIDATES: usize = 15 * GREATEST;

/// Every move of nodes 1 to 3, the auctioneer's and every closing, under each number up to the greatest.
pub fn candidate(at: usize) -> Move {
    let node = (at % 3) as u32 + 1;
    let number = (at / 3 % GREATEST) as u32 + 1;
    let (device, child, index, phase) = (node, node, number, number);
    match (at / (3 * GREATEST), node) {
        (0, _) => Move::Change { device, number },
        (1, _) => Move::Learn { child, number },
        (2, _) => Move::Publish { node, number },
        (3, _) => Move::Pass { node, index },
        (_, 1) => Move::Clear { index },
        (_, 2) => Move::Close { phase },
        _ => Move::Close { phase: 0 },
    }
}

/// The first candidate, at this place or after it, that is legal.
fn first_legal(market: &Market, from: usize) -> Option<Move> {
    for at in from..CANDIDATES {
        if market.is_legal(candidate(at)) {
            return Some(candidate(at));
        }
    }
    None
}

/// Takes the last move off, and says the place after its candidate's.
fn leave_one(path: &mut Vec<Move>) -> Option<usize> {
    let last = path.pop()?;
    for at in 0..CANDIDATES {
        if candidate(at) == last {
            return Some(at + 1);
        }
    }
    None
}

/// How many journals to which no legal move can be added there are, by a walk over all of them. None if one of
/// them is not complete, or is longer than the bound.
pub fn count_journals<R: Abort>(
    rt: &R,
    alloc: Global,
    nodes: &[Node<'_>],
    bound: usize,
) -> Option<usize> {
    let mut path = Vec::new(alloc);
    let mut from = 0;
    let mut journals = 0usize;
    for _turn in 0..1_000_000u32 {
        match next_of(rt, alloc, nodes, &path, from) {
            Next::Longer(what) => {
                path.push(what).expect(rt, "memory");
                from = 0;
                continue;
            }
            Next::Ends(made) if from == 0 && made > bound => return None,
            Next::Ends(_) if from == 0 => journals = journals.saturating_add(1),
            Next::Stuck if from == 0 => return None,
            _ => {}
        }
        match leave_one(&mut path) {
            Some(next) => from = next,
            None => return Some(journals),
        }
    }
    None
}

/// What there is behind a path.
#[derive(Clone, Copy)]
enum Next {
    /// The first candidate, at the place that is asked for or after it, is this one.
    Longer(Move),
    /// No candidate is left, and the path is complete, of so many moves.
    Ends(usize),
    /// No candidate is left, and the path is not complete, or not all of its moves are legal.
    Stuck,
}

fn next_of<R: Abort>(
    rt: &R,
    alloc: Global,
    nodes: &[Node<'_>],
    path: &[Move],
    from: usize,
) -> Next {
    let mut market = market_of(rt, alloc, nodes);
    let made = play(rt, &mut market, path);
    match first_legal(&market, from) {
        Some(what) => Next::Longer(what),
        None if made == path.len() && market.is_complete() => Next::Ends(made),
        None => Next::Stuck,
    }
}
