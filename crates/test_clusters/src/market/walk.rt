//! Walks all journals of a small market, and checks the market's laws in each state.

use super::plays::{CANDIDATES, Node, candidate, market_of, play};
use pm_market::{Market, Move};
use std::alloc::Global;
use std::collections::BTreeMap;
use std::process::Abort;

/// The greatest number that four changes can bring about of a node. A cut that is published or cleared contains at
/// least one change more than the one before it. The candidates go up to the number above it.
const GREATEST: u32 = 4;

/// The row of the newest number of each node. The tables of a state are rows with a place for each number from 0 to
/// `GREATEST`.
const NEWEST: u32 = 0;

/// The row of the number of each node that was learnt last.
const LEARNT: u32 = 1;

/// The row of the numbers of device 2 in the cuts that concentrator 1 published.
const CUTS_OF_2: u32 = 2;

/// The row of the numbers of device 3 in these cuts.
const CUTS_OF_3: u32 = 3;

/// The row of the numbers of concentrator 1 in the clearings.
const CLEARED: u32 = 4;

/// The row of the phase closed.
const CLOSED: u32 = 5;

/// The rows of the clearings that were passed to nodes 1 to 3, in rising order; the auctioneer is passed no clearing.
const PASSED: [u32; 4] = [5, 6, 7, 8];

/// How many rows there are.
const ROWS: u32 = 9;

/// The states to which so many moves lead: of each its tables, and one path to it.
type Level = BTreeMap<Vec<u32>, Vec<Move>>;

/// The place of a number in the tables.
fn place(row: u32, column: u32) -> usize {
    row as usize * (GREATEST as usize + 1) + column as usize
}

/// The number at a place of the tables.
fn number_at(tables: &[u32], row: u32, column: u32) -> u32 {
    tables.get(place(row, column)).copied().unwrap_or(0)
}

/// Writes a number into the tables.
fn note(tables: &mut [u32], row: u32, column: u32, number: u32) {
    if let Some(at) = tables.get_mut(place(row, column)) {
        *at = number;
    }
}

/// Writes what a move changes into the tables. A cut is what was learnt of the children when it was published.
fn note_move(tables: &mut [u32], what: Move) {
    match what {
        Move::Change { device, number } => note(tables, NEWEST, device, number),
        Move::Learn { child, number } => note(tables, LEARNT, child, number),
        Move::Publish { node, number } => {
            note(tables, NEWEST, node, number);
            let of_2 = number_at(tables, LEARNT, 2);
            let of_3 = number_at(tables, LEARNT, 3);
            note(tables, CUTS_OF_2, number, of_2);
            note(tables, CUTS_OF_3, number, of_3);
        }
        Move::Clear { index } => {
            note(tables, NEWEST, 0, index);
            let of_1 = number_at(tables, LEARNT, 1);
            note(tables, CLEARED, index, of_1);
        }
        Move::Pass { node, index } => {
            let row = PASSED.get(node as usize).copied().unwrap_or(0);
            note(tables, row, index, 1);
        }
        Move::Close { phase } => note(tables, CLOSED, 0, phase),
    }
}

/// The tables of the state after the moves of a path. Two paths with the same tables lead to the same state.
fn tables_of<R: Abort>(rt: &R, alloc: Global, path: &[Move]) -> Vec<u32> {
    let mut tables = vec![in alloc; 0; place(ROWS, 0)].expect(rt, "memory");
    for what in path {
        note_move(&mut tables, *what);
    }
    tables
}

/// The candidates that are legal.
fn legal_moves<R: Abort>(rt: &R, alloc: Global, market: &Market) -> Vec<Move> {
    let mut legal = Vec::new(alloc);
    for at in 0..CANDIDATES {
        if market.is_legal(candidate(at)) {
            legal.push(candidate(at)).expect(rt, "memory");
        }
    }
    legal
}

/// The number of a move.
fn number_of(what: Move) -> u32 {
    match what {
        Move::Change { number, .. } | Move::Learn { number, .. } | Move::Publish { number, .. } =>
            number,
        Move::Clear { index } | Move::Pass { index, .. } => index,
        Move::Close { phase } => phase,
    }
}

/// Whether no one of these moves is under a number above the greatest, and a closing is among them only alone.
fn are_sound(legal: &[Move]) -> bool {
    for what in legal {
        let is_beside = matches!(what, Move::Close { .. }) && legal.len() > 1;
        if is_beside || number_of(*what) > GREATEST {
            return false;
        }
    }
    true
}

/// The candidates that are legal after the moves of a path. None if a move of the path is not legal, or if they are not
/// as `are_sound` says. None also if no move is legal in a state that is not complete, or some move is in a complete one.
fn moves_after<R: Abort>(
    rt: &R,
    alloc: Global,
    nodes: &[Node<'_>],
    path: &[Move],
) -> Option<Vec<Move>> {
    let mut market = market_of(rt, alloc, nodes);
    let made = play(rt, &mut market, path);
    let legal = legal_moves(rt, alloc, &market);
    let is_sound = made == path.len()
        && are_sound(&legal)
        && legal.is_empty() == market.is_complete();
    if is_sound { Some(legal) } else { None }
}

/// Adds a state with a path to it.
fn put<R: Abort>(rt: &R, level: &mut Level, tables: Vec<u32>, path: Vec<Move>) {
    let put: Result<_, _> = level.insert(tables, path);
    put.expect(rt, "memory");
}

/// A path with one more move.
fn longer_by<R: Abort>(rt: &R, alloc: Global, path: &[Move], what: Move) -> Vec<Move> {
    let mut longer = path.to_vec(alloc).expect(rt, "memory");
    longer.push(what).expect(rt, "memory");
    longer
}

/// Adds the states to which a legal move leads from the end of a path; whether `moves_after` gives the moves.
fn add_next<R: Abort>(
    rt: &R,
    alloc: Global,
    next: &mut Level,
    nodes: &[Node<'_>],
    path: &[Move],
) -> bool {
    let Some(legal) = moves_after(rt, alloc, nodes, path) else {
        return false;
    };
    for what in &legal {
        let longer = longer_by(rt, alloc, path, *what);
        put(rt, next, tables_of(rt, alloc, &longer), longer);
    }
    true
}

/// The states to which one more move leads; None if `moves_after` gives None for a state of this level.
fn next_level<R: Abort>(rt: &R, alloc: Global, nodes: &[Node<'_>], level: &Level) -> Option<Level> {
    let mut next = BTreeMap::new(alloc);
    for path in level.values() {
        if !add_next(rt, alloc, &mut next, nodes, path) {
            return None;
        }
    }
    Some(next)
}

/// Whether a path leads to a state of the level, by as many moves.
fn is_met<R: Abort>(rt: &R, alloc: Global, level: &Level, made: usize, path: &[Move]) -> bool {
    path.len() == made && level.contains_key(&tables_of(rt, alloc, path))
}

/// How many of the paths lead to a state of the level, by as many moves.
fn count_met<R: Abort>(
    rt: &R,
    alloc: Global,
    level: &Level,
    made: usize,
    paths: &[&[Move]],
) -> usize {
    let mut met = 0usize;
    for path in paths {
        if is_met(rt, alloc, level, made, path) {
            met = met.saturating_add(1);
        }
    }
    met
}

/// The number of moves of the longest journal of concentrator 1 over the devices 2 and 3, with two changes each in one
/// phase. With it is how many of the paths lead to a state that the walk meets.
///
/// The journals are too many to be walked one by one, the states that they reach are not. The walk goes from the states
/// after so many moves to those after one more, by every legal move of each. So it meets every state that a journal
/// reaches, once for each number of moves that leads to it. Every journal ends in the level of its length. None if
/// `moves_after` gives None for a state, or a journal has more moves than the bound.
pub fn longest_journal<R: Abort>(
    rt: &R,
    alloc: Global,
    nodes: &[Node<'_>],
    bound: usize,
    paths: &[&[Move]],
) -> Option<(usize, usize)> {
    let mut level = BTreeMap::new(alloc);
    put(rt, &mut level, tables_of(rt, alloc, &[]), Vec::new(alloc));
    let mut met = 0usize;
    for made in 0..=bound {
        met = met.saturating_add(count_met(rt, alloc, &level, made, paths));
        match next_level(rt, alloc, nodes, &level) {
            Some(next) if next.is_empty() => return Some((made, met)),
            Some(next) => level = next,
            None => return None,
        }
    }
    None
}
