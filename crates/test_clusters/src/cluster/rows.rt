//! Scripts of acts, with what each answers and what is between them.

use super::files::{BESIDE, LONE, NINE, NINE_CHANGES, REJOINS, TWO_BIDS, TWO_LEVELS, plan_of};
use super::hand::{End, close, ends_so, held, line_of, make, next_node, rest, step};
use crate::same::same;
use pm_bid::{Steps, uncounted};
use pm_cluster::{ApplyFault, Cluster};
use pm_market::{Act, Journal, Line};
use pm_plan::Plan;
use std::alloc::Global;
use std::process::Abort;

/// A row of a script.
#[derive(Clone, Copy)]
enum Row {
    /// An act makes the move of this number, which is an index if it clears or passes a price on. With it are the step and
    /// the number that a device then holds.
    Makes(Act, u32, Option<(u32, u32)>),
    /// The lowest node that has a move is this one, and its step makes the move, told in the same way.
    Steps(u32, Act, u32, Option<(u32, u32)>),
    Illegal(Act),
    /// The lowest node that has a move.
    Next(u32),
    /// Steps until no node has a move.
    Rest,
    /// Step, number and index of the price that a device holds.
    Holds(u32, Option<(u32, u32, u32)>),
    /// The devices from the first to before the last all hold a price of this step and number.
    AllHold(u32, u32, (u32, u32)),
    /// The auctioneer's price, and the first step at which its sum is not positive.
    Stands(i64, usize),
    Ends(End),
    Closes(bool),
}

/// Step, number and index of the price that a device holds.
fn price_of<R: Abort>(rt: &R, cluster: &Cluster, device: u32) -> Option<(u32, u32, u32)> {
    match held(rt, cluster, device) {
        None => None,
        Some(price) => Some((price.step, price.number, price.index)),
    }
}

/// Whether each of these devices holds a price of this step and number.
fn all_hold<R: Abort>(rt: &R, cluster: &Cluster, first: u32, last: u32, due: (u32, u32)) -> bool {
    for device in first..last {
        match price_of(rt, cluster, device) {
            Some((step, number, _)) if (step, number) == due => {}
            _ => return false,
        }
    }
    true
}

/// The auctioneer's price, and the first step at which its sum is not positive.
fn standing(cluster: &Cluster) -> (i64, usize) {
    let sum = cluster.aggregate();
    let step = sum.first_not_positive(&mut uncounted());
    (cluster.price(), step)
}

/// Whether the lowest node that has a move is this one, and its step makes the move of this line.
fn steps_so<R: Abort>(rt: &R, cluster: &mut Cluster, node: u32, due: Line) -> bool {
    next_node(cluster) == Some(node) && step(rt, cluster, node) == Some(due)
}

fn is_right<R: Abort>(rt: &R, alloc: Global, cluster: &mut Cluster, row: Row) -> bool {
    match row {
        Row::Makes(act, number, held) => {
            make(rt, cluster, act) == Some(line_of(act, number, held))
        }
        Row::Steps(node, act, number, held) => {
            steps_so(rt, cluster, node, line_of(act, number, held))
        }
        Row::Illegal(act) => make(rt, cluster, act).is_none(),
        Row::Next(node) => next_node(cluster) == Some(node),
        Row::Rest => rest(rt, cluster),
        Row::Holds(device, price) => price_of(rt, cluster, device) == price,
        Row::AllHold(first, last, price) => all_hold(rt, cluster, first, last, price),
        Row::Stands(price, step) => standing(cluster) == (price, step),
        Row::Ends(end) => ends_so(rt, alloc, cluster, end),
        Row::Closes(closes) => close(cluster) == closes,
    }
}

/// The place of the first row that is wrong.
fn first_wrong<R: Abort>(
    rt: &R,
    alloc: Global,
    cluster: &mut Cluster,
    rows: &[Row],
) -> Option<usize> {
    for (place, row) in rows.iter().enumerate() {
        if !is_right(rt, alloc, cluster, *row) {
            return Some(place);
        }
    }
    None
}

const JOIN_1: Row = Row::Makes(Act::Change { device: 1 }, 1, None);

const LEARN_1: Row = Row::Makes(Act::Learn { child: 1 }, 1, None);

const CLEAR_1: Row = Row::Makes(Act::Clear, 1, None);

const LONE_LOAD: [Row; 9] = [
    Row::Illegal(Act::Learn { child: 1 }),
    JOIN_1,
    Row::Closes(false),
    Row::Steps(0, Act::Learn { child: 1 }, 1, None),
    Row::Steps(0, Act::Clear, 1, None),
    Row::Steps(1, Act::Pass { node: 1 }, 1, Some((9, 1))),
    Row::Ends(End {
        at: (9, 9, 100),
        members: members![(1, 100, 1)],
        limited: &[],
    }),
    Row::Closes(true),
    Row::Closes(false),
];

/// The load alone never balances. Of two clearings the later is passed down.
const TWO_CLEARINGS: [Row; 11] = [
    JOIN_1,
    LEARN_1,
    CLEAR_1,
    Row::Stands(9, 9),
    Row::Makes(Act::Change { device: 2 }, 1, None),
    Row::Makes(Act::Learn { child: 2 }, 1, None),
    Row::Makes(Act::Clear, 2, None),
    Row::Stands(4, 4),
    Row::Rest,
    Row::Holds(1, Some((4, 1, 2))),
    Row::Holds(2, Some((4, 1, 2))),
];

/// A price for number 1 is passed to the device after its last join, which is number 3.
const FORMER_PRICE: [Row; 9] = [
    JOIN_1,
    LEARN_1,
    CLEAR_1,
    Row::Makes(Act::Change { device: 1 }, 2, None),
    Row::Makes(Act::Change { device: 1 }, 3, None),
    Row::Makes(Act::Pass { node: 1 }, 1, None),
    Row::Holds(1, None),
    Row::Rest,
    Row::Holds(1, Some((9, 3, 2))),
];

/// A device that leaves gives up the price that it holds, and its next join does not bring it back.
const LEFT: [Row; 11] = [
    JOIN_1,
    LEARN_1,
    CLEAR_1,
    Row::Makes(Act::Pass { node: 1 }, 1, Some((9, 1))),
    Row::Holds(1, Some((9, 1, 1))),
    Row::Makes(Act::Change { device: 1 }, 2, None),
    Row::Holds(1, None),
    Row::Makes(Act::Change { device: 1 }, 3, None),
    Row::Holds(1, None),
    Row::Rest,
    Row::Holds(1, Some((9, 3, 2))),
];

const NEWEST_BID: [Row; 4] = [
    JOIN_1,
    Row::Makes(Act::Change { device: 1 }, 2, None),
    Row::Makes(Act::Change { device: 1 }, 3, None),
    Row::Makes(Act::Learn { child: 1 }, 3, None),
];

/// The generator's bid moves the price of the load under the concentrator, which published number 1 alone.
const OLD_NUMBERS: [Row; 13] = [
    Row::Makes(Act::Change { device: 2 }, 1, None),
    Row::Makes(Act::Learn { child: 2 }, 1, None),
    Row::Makes(Act::Publish { node: 1 }, 1, None),
    LEARN_1,
    CLEAR_1,
    Row::Makes(Act::Pass { node: 1 }, 1, None),
    Row::Makes(Act::Pass { node: 2 }, 1, Some((9, 1))),
    Row::Makes(Act::Change { device: 3 }, 1, None),
    Row::Makes(Act::Learn { child: 3 }, 1, None),
    Row::Makes(Act::Clear, 2, None),
    Row::Makes(Act::Pass { node: 1 }, 2, None),
    Row::Makes(Act::Pass { node: 2 }, 2, Some((4, 1))),
    Row::Holds(2, Some((4, 1, 2))),
];

/// What each script shows, its file and its rows.
const SCRIPTS: &[(&str, &str, &[Row])] = &[
    ("a lone load", LONE, &LONE_LOAD),
    ("two clearings", TWO_BIDS, &TWO_CLEARINGS),
    ("a price of a former membership", REJOINS, &FORMER_PRICE),
    ("a price that is given up", REJOINS, &LEFT),
    ("the newest waiting bid", REJOINS, &NEWEST_BID),
    ("a later price for an old number", BESIDE, &OLD_NUMBERS),
];

/// A new cluster after these acts, and its journal.
fn apply<'p, R: Abort>(
    rt: &R,
    alloc: Global,
    plan: &'p Plan,
    acts: &[Act],
) -> (Cluster<'p>, Journal) {
    Cluster::apply(alloc, plan, acts).expect(rt, "acts that are legal")
}

/// How many lines the journal of these acts on a new cluster has, and the one in this place.
fn journal_of<R: Abort>(
    rt: &R,
    alloc: Global,
    plan: &Plan,
    acts: &[Act],
    place: usize,
) -> (usize, Option<Line>) {
    let (_cluster, journal) = apply(rt, alloc, plan, acts);
    (journal.len(), journal.get(place))
}

/// The place of the first row that is wrong on a new cluster after these acts.
fn first_wrong_after<R: Abort>(
    rt: &R,
    alloc: Global,
    plan: &Plan,
    acts: &[Act],
    rows: &[Row],
) -> Option<usize> {
    let (mut cluster, _journal) = apply(rt, alloc, plan, acts);
    first_wrong(rt, alloc, &mut cluster, rows)
}

/// The rows of a script are right on a new cluster of its file.
fn script_is_right<R: Abort>(rt: &R, alloc: Global, script: &(&str, &str, &[Row])) {
    let plan = plan_of(rt, alloc, script.1);
    let wrong = first_wrong_after(rt, alloc, &plan, &[], script.2);
    same(rt, script.0, wrong, None);
}

#[test]
fn scripts_have_their_answers(rt: HostRuntime) {
    for script in SCRIPTS {
        script_is_right(&rt, rt.alloc(), script);
    }
}

/// The place of the first of these acts that is illegal on a new cluster.
fn refused_at<R: Abort>(rt: &R, alloc: Global, plan: &Plan, acts: &[Act]) -> Option<usize> {
    match Cluster::apply(alloc, plan, acts) {
        Ok(_) => None,
        Err(ApplyFault::Illegal { at }) => Some(at),
        Err(ApplyFault::NoMemory) => panic!(rt; "no memory"),
    }
}

/// What a change of each of these devices brings about at concentrator 1, which is their parent.
fn rounds<R: Abort>(rt: &R, alloc: Global, devices: &[u32]) -> Vec<Act> {
    let mut acts = Vec::new(alloc);
    for device in devices {
        acts.push(Act::Change { device: *device })
            .expect(rt, "memory");
        acts.push(Act::Learn { child: *device })
            .expect(rt, "memory");
        acts.push(Act::Publish { node: 1 }).expect(rt, "memory");
    }
    acts
}

/// The price for number 8 opens the window again.
const OPENS: [Row; 6] = [
    Row::Illegal(Act::Publish { node: 1 }),
    Row::Makes(Act::Learn { child: 1 }, 8, None),
    Row::Illegal(Act::Learn { child: 1 }),
    CLEAR_1,
    Row::Makes(Act::Pass { node: 1 }, 1, None),
    Row::Makes(Act::Publish { node: 1 }, 9, None),
];

/// After eight numbers that no price answered the ninth waits for a price.
#[test]
fn a_full_window_waits_for_a_price(rt: HostRuntime) {
    window_waits(&rt, rt.alloc(), &plan_of(&rt, rt.alloc(), NINE_CHANGES));
}

fn window_waits<R: Abort>(rt: &R, alloc: Global, plan: &Plan) {
    let mut acts = rounds(rt, alloc, &[2; 9]);
    same(rt, "act", refused_at(rt, alloc, plan, &acts), Some(26));
    acts.pop();
    window_is_full(rt, alloc, plan, &acts);
}

fn window_is_full<R: Abort>(rt: &R, alloc: Global, plan: &Plan, acts: &[Act]) {
    let have = first_wrong_after(rt, alloc, plan, acts, &OPENS);
    same(rt, "row", have, None);
    let last = line_of(Act::Learn { child: 2 }, 9, None);
    let journal = journal_of(rt, alloc, plan, acts, 25);
    same(rt, "length and last", journal, (26, Some(last)));
}

/// The window counts the concentrator's numbers, and not those of each child.
#[test]
fn nine_devices_share_one_window(rt: HostRuntime) {
    let plan = plan_of(&rt, rt.alloc(), NINE);
    let have = refused_of_nine(&rt, rt.alloc(), &plan);
    same(&rt, "act", have, Some(26));
}

/// The place of the first act that is illegal, if each of nine devices is heard of in turn.
fn refused_of_nine<R: Abort>(rt: &R, alloc: Global, plan: &Plan) -> Option<usize> {
    let acts = rounds(rt, alloc, &[2, 3, 4, 5, 6, 7, 8, 9, 10]);
    refused_at(rt, alloc, plan, &acts)
}

/// A change of a device that both concentrators publish.
fn published(device: u32) -> [Act; 5] {
    [
        Act::Change { device },
        Act::Learn { child: device },
        Act::Publish { node: 2 },
        Act::Learn { child: 2 },
        Act::Publish { node: 1 },
    ]
}

/// Fills both windows, and lets each concentrator learn one bid more.
fn filling<R: Abort>(rt: &R, alloc: Global) -> Vec<Act> {
    let mut acts = Vec::new(alloc);
    for device in 3..11 {
        acts.extend_from_slice(&published(device))
            .expect(rt, "memory");
    }
    acts.extend_from_slice(ONE_MORE_EACH).expect(rt, "memory");
    acts
}

/// Changes of the last two devices, each learnt by its own parent.
const ONE_MORE_EACH: &[Act] = &[
    Act::Change { device: 11 },
    Act::Learn { child: 11 },
    Act::Change { device: 12 },
    Act::Learn { child: 12 },
];

const COMES_TO_REST: [Row; 7] = [
    Row::Illegal(Act::Publish { node: 2 }),
    Row::Illegal(Act::Publish { node: 1 }),
    Row::Next(0),
    Row::Rest,
    Row::AllHold(3, 13, (9, 1)),
    Row::Stands(9, 9),
    Row::Ends(End {
        at: (9, 9, 10),
        members: members![
            (3, 1, 1),
            (4, 1, 1),
            (5, 1, 1),
            (6, 1, 1),
            (7, 1, 1),
            (8, 1, 1),
            (9, 1, 1),
            (10, 1, 1),
            (11, 1, 1),
            (12, 1, 1),
        ],
        limited: &[],
    }),
];

/// The auctioneer has a move, and from it on all comes to rest.
#[test]
fn two_full_windows_come_to_rest(rt: HostRuntime) {
    let plan = plan_of(&rt, rt.alloc(), TWO_LEVELS);
    let have = first_wrong_when_full(&rt, rt.alloc(), &plan);
    same(&rt, "row", have, None);
}

fn first_wrong_when_full<R: Abort>(rt: &R, alloc: Global, plan: &Plan) -> Option<usize> {
    let acts = filling(rt, alloc);
    first_wrong_after(rt, alloc, plan, &acts, &COMES_TO_REST)
}
