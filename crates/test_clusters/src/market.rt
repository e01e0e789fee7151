//! Tests of the market of cuts: held prices, full windows, and cuts published in several ways.

use crate::same::same;
use crate::shared::may_be_shared;
use pm_market::{Act, Journal, Line, Market, Move};
use std::alloc::Global;
use std::process::Abort;

mod plays;
mod walk;

use plays::{
    NINE_DEVICES, Node, ONE_DEVICE, TWO_LEVELS, count_journals, market_of, nine_rounds, play,
    two_windows,
};
use walk::longest_journal;

/// A device that joins, leaves and joins; a clearing of its first membership is passed to it after its last join.
const REJOINS: [Move; 7] = [
    Move::Change {
        device: 1,
        number: 1,
    },
    Move::Learn {
        child: 1,
        number: 1,
    },
    Move::Clear { index: 1 },
    Move::Change {
        device: 1,
        number: 2,
    },
    Move::Change {
        device: 1,
        number: 3,
    },
    Move::Pass { node: 1, index: 1 },
    Move::Close { phase: 1 },
];

/// How that run ends.
const ENDS: [Move; 4] = [
    Move::Learn {
        child: 1,
        number: 3,
    },
    Move::Clear { index: 2 },
    Move::Pass { node: 1, index: 2 },
    Move::Close { phase: 1 },
];

/// A price of number 8 opens the full window of concentrator 1.
const OPENS: [Move; 4] = [
    Move::Learn {
        child: 1,
        number: 8,
    },
    Move::Clear { index: 1 },
    Move::Pass { node: 1, index: 1 },
    Move::Publish { node: 1, number: 9 },
];

/// The devices 2 and 3 make two changes each, and concentrator 1 publishes all four in one cut.
const ONE_CUT: [Move; 7] = [
    Move::Change {
        device: 2,
        number: 1,
    },
    Move::Change {
        device: 2,
        number: 2,
    },
    Move::Change {
        device: 3,
        number: 1,
    },
    Move::Change {
        device: 3,
        number: 2,
    },
    Move::Learn {
        child: 2,
        number: 2,
    },
    Move::Learn {
        child: 3,
        number: 2,
    },
    Move::Publish { node: 1, number: 1 },
];

/// Each of the four changes is published in a cut of its own.
const FOUR_CUTS: [Move; 12] = [
    Move::Change {
        device: 2,
        number: 1,
    },
    Move::Learn {
        child: 2,
        number: 1,
    },
    Move::Publish { node: 1, number: 1 },
    Move::Change {
        device: 3,
        number: 1,
    },
    Move::Learn {
        child: 3,
        number: 1,
    },
    Move::Publish { node: 1, number: 2 },
    Move::Change {
        device: 2,
        number: 2,
    },
    Move::Learn {
        child: 2,
        number: 2,
    },
    Move::Publish { node: 1, number: 3 },
    Move::Change {
        device: 3,
        number: 2,
    },
    Move::Learn {
        child: 3,
        number: 2,
    },
    Move::Publish { node: 1, number: 4 },
];

#[test]
fn a_journal_is_its_lines(rt: HostRuntime) {
    let line = Line {
        what: Move::Clear { index: 1 },
        held: None,
    };
    let mut journal = Journal::new(rt.alloc());
    assert!(rt; journal.is_empty());
    journal.reserve(1).expect(&rt, "memory");
    journal.push(line).expect(&rt, "memory");
    same(&rt, "length", journal.len(), 1);
    same(&rt, 0, journal.get(0), Some(line));
    same(&rt, 1, journal.get(1), None);
}

/// Markets, journals, lines and acts may be sent to threads and shared by them: it is proved here.
#[test]
fn markets_may_be_shared() {
    may_be_shared::<(Market, Journal, Line, Act)>();
}

/// The price of number 1 is not held after the join of number 3. Closing is not legal before the device holds one.
#[test]
fn a_price_of_a_former_membership_is_not_held(rt: HostRuntime) {
    let mut market = market_of(&rt, rt.alloc(), &[(0, true, &[true, false, true])]);
    last_price_is_held(&rt, &mut market);
}

fn last_price_is_held<R: Abort>(rt: &R, market: &mut Market) {
    same(rt, "rejoins", play(rt, market, &REJOINS), 6);
    let cleared = market.cleared(1).get(1).copied();
    let have = (market.last_passed(1), cleared, market.holds_price(1));
    same(rt, "passed, cleared and held", have, (1, Some(1), false));
    same(rt, "ends", play(rt, market, &ENDS), 4);
    let have = (market.holds_price(1), market.is_complete());
    same(rt, "held and complete", have, (true, true));
}

/// Eight rounds of three moves are legal, then a change and a learning. The ninth publishing is not: place 26, with one
/// device of nine changes and with nine devices of one. A price of number 8 opens the window.
#[test]
fn a_window_holds_eight_numbers(rt: HostRuntime) {
    window_holds_eight(&rt, rt.alloc(), 1, ONE_DEVICE);
    window_holds_eight(&rt, rt.alloc(), 9, NINE_DEVICES);
}

fn window_holds_eight<R: Abort>(rt: &R, alloc: Global, devices: u32, nodes: &[Node<'_>]) {
    let moves = nine_rounds(rt, alloc, devices);
    let mut market = market_of(rt, alloc, nodes);
    same(rt, devices, play(rt, &mut market, &moves), 26);
    same(rt, devices, play(rt, &mut market, &OPENS), 4);
}

/// Of two levels, 44 moves fill both windows (8 rounds of 5, and two rounds of 2), and then the auctioneer alone moves.
#[test]
fn two_windows_hold_eight_numbers_each(rt: HostRuntime) {
    let moves = two_windows(&rt, rt.alloc());
    let mut market = market_of(&rt, rt.alloc(), TWO_LEVELS);
    same(&rt, "fill", play(&rt, &mut market, &moves), 44);
    auctioneer_alone_moves(&rt, &market);
}

fn auctioneer_alone_moves<R: Abort>(rt: &R, market: &Market) {
    let lower = market.is_legal(Move::Publish { node: 2, number: 9 });
    let upper = market.is_legal(Move::Publish { node: 1, number: 9 });
    let (child, number) = (1, 8);
    let learns = market.is_legal(Move::Learn { child, number });
    let have = (lower, upper, learns);
    same(rt, "publish and learn", have, (false, false, true));
}

/// Two devices with one change each, directly under the auctioneer, and under a concentrator.
const FLAT: &[Node] = &[(0, true, &[true]), (0, true, &[true])];

const GATHERED: &[Node] = &[(0, false, &[]), (1, true, &[true]), (1, true, &[true])];

/// Two devices with two changes each under a concentrator: the first stays a member, and the second leaves.
const TWO_CHANGES: &[Node] = &[
    (0, false, &[]),
    (1, true, &[true, true]),
    (1, true, &[true, false]),
];

/// Every journal of two devices with one change each ends complete and within the bound. A walk meets all of them.
///
/// Directly under the auctioneer there are 88. With one clearing, after both learnings: the two devices' changes and
/// learnings in 6 orders, the two passes in 2: 12. With two clearings, device a is learnt first (b likewise). The order
/// is change a, learn a, clear 1, learn b, clear 2, the passes of 2. The change of b has 4 places before learn b. With
/// no pass of 1 this is 4 * 2 = 8. Now let 1 also be passed to a. If a is passed 2 first, the pass of 1 has 3 places.
/// The change of b has 5 orders with the first of them and 4 with the others: 13. If b is passed 2 first, the pass of 1
/// has 4 places: 5 + 3 * 4 = 17. So 8 + 13 + 17 = 38 for a, 38 for b, and 12: 88. The bound is changes * (nodes + 15) +
/// phases: 2 * 17 + 1 = 35, and 2 * 18 + 1 = 37 with a concentrator.
#[test]
fn every_journal_ends_complete_within_the_bound(rt: HostRuntime) {
    let flat = count_journals(&rt, rt.alloc(), FLAT, 35);
    same(&rt, "flat", flat, Some(88));
    let gathered = count_journals(&rt, rt.alloc(), GATHERED, 37);
    same(&rt, "gathered", gathered.is_some(), true);
}

/// Every journal of two devices under a concentrator with two changes each ends complete and within the bound, 4 * (3
/// + 15) + 1 = 73. A walk meets all the states that they reach. Both devices join, the first stays a member and the
/// second leaves.
///
/// The longest has 31 moves: the 4 changes are one by one learnt, published, learnt, cleared and passed to the
/// concentrator, 24. The device that stays is passed all 4 clearings if its join is the first change, otherwise 3. The
/// other is passed those from its join to before its leaving: 2 at most, and 3 if its join is the first change. This is
/// 6 either way, and fewer clearings bring no more. The closing is the last.
#[test]
fn every_journal_of_four_changes_ends_complete_within_the_bound(rt: HostRuntime) {
    let longest = longest_journal(&rt, rt.alloc(), TWO_CHANGES, 73, &[&ONE_CUT, &FOUR_CUTS]);
    same(&rt, "longest", longest, Some((31, 2)));
}
