//! Tests of an auctioneer that may restart: scripts of what it learns and clears. The numbers are worked out by hand.

ghost use Rattle.std.specs.Prelude.{◌≡◌};

use crate::bids::bid_of;
use crate::same::same;
use crate::shared::may_be_shared;
use pm_auctioneer::Cleared;
use pm_base::MOST_NODES;
use pm_relay::{Root, RootFault};
use pm_session::PriceUpdate;
use std::alloc::Global;
use std::process::Abort;

/// A row of a script: a call of a root, and what it answers.
#[derive(Clone, Copy)]
enum Row {
    /// A child's bid under this number, of these demands at both steps, is learnt.
    Learns(usize, u32, [i64; 2]),
    /// The market clears under this index at this step, and the first two children alone are sent that with these numbers.
    Clears(u32, u32, (Option<u32>, Option<u32>)),
    /// The market does not clear, for this reason.
    Refuses(RootFault),
    /// The clearing of this index and step can be sent again, with these numbers.
    Tells(u32, u32, (Option<u32>, Option<u32>)),
    /// No clearing can be sent.
    TellsNothing,
    /// A child is let go, under this number.
    LetsGo(usize, u32),
    /// What it would come back with: the last index, and the first two children's numbers.
    Stores(u32, [u32; 2]),
}

/// The root that comes back with this, of which the first two children's numbers are told.
fn back<R: Abort>(rt: &R, alloc: Global, last: u32, numbers: [u32; 2]) -> Root
    ensures { result.auction.cache.steps ≡ 2 }
{
    let mut all = [0; MOST_NODES];
    all[0] = numbers[0];
    all[1] = numbers[1];
    Root::resumed(alloc, 2, last, &all).expect(rt, "memory")
}

/// Whether a child's bid is learnt.
fn learns<R: Abort>(
    rt: &R,
    alloc: Global,
    root: &mut Root,
    child: usize,
    number: u32,
    demands: [i64; 2],
) -> bool
    requires steps { root.old.auction.cache.steps ≡ 2 }
    ensures steps { root.new.auction.cache.steps ≡ 2 }
{
    assert!(rt; child < MOST_NODES);
    root.learn(child, number, Some(&bid_of(rt, alloc, demands)))
        .is_ok()
}

/// Whether a child is told this step, number and index.
fn is_told(have: Option<PriceUpdate>, step: u32, number: Option<u32>, index: u32) -> bool {
    match (have, number) {
        (Some(have), Some(number)) => {
            (have.step, have.number, have.index) == (step, number, index)
        }
        (None, None) => true,
        _ => false,
    }
}

/// Whether the first two children alone are sent the newest clearing, with these numbers.
fn tells(root: &Root, index: u32, step: u32, numbers: (Option<u32>, Option<u32>)) -> bool {
    let Some(prices) = root.prices() else {
        return false;
    };
    prices.children() == MOST_NODES
        && is_told(prices.for_child(0), step, numbers.0, index)
        && is_told(prices.for_child(1), step, numbers.1, index)
        && prices.for_child(2).is_none()
}

/// The number under which a child is let go.
fn let_go<R: Abort>(rt: &R, root: &mut Root, child: usize) -> u32
    ensures { root.new.auction.cache.steps ≡ root.old.auction.cache.steps }
{
    assert!(rt; child < MOST_NODES);
    root.expire(child)
}

/// What a root would come back with: the last index, and the first two children's numbers.
fn stored(root: &Root) -> (u32, [u32; 2]) {
    let numbers = root.numbers();
    (root.last(), [numbers[0], numbers[1]])
}

/// A call answers as its row says.
fn answers<R: Abort>(rt: &R, alloc: Global, root: &mut Root, case: (&str, usize), row: Row)
    requires { root.old.auction.cache.steps ≡ 2 }
    ensures { root.new.auction.cache.steps ≡ 2 }
{
    match row {
        Row::Learns(child, number, demands) => {
            let have = learns(rt, alloc, root, child, number, demands);
            same(rt, case, have, true)
        }
        Row::Clears(index, step, numbers) => {
            same(rt, case, root.clear(), Ok(Cleared { index, step }));
            same(rt, case, tells(root, index, step, numbers), true)
        }
        Row::Refuses(fault) => same(rt, case, root.clear(), Err(fault)),
        Row::Tells(index, step, numbers) => {
            same(rt, case, tells(root, index, step, numbers), true)
        }
        Row::TellsNothing => same(rt, case, root.prices().is_none(), true),
        Row::LetsGo(child, number) => same(rt, case, let_go(rt, root, child), number),
        Row::Stores(last, numbers) => same(rt, case, stored(root), (last, numbers)),
    }
}

/// Each call of a script answers as its row says.
fn all_answer<R: Abort>(rt: &R, alloc: Global, root: &mut Root, name: &str, rows: &[Row])
    requires { root.old.auction.cache.steps ≡ 2 }
{
    for (place, row) in rows.iter().enumerate() {
        answers(rt, alloc, root, (name, place), *row);
    }
}

/// Two clearings.
const CLEARS_TWICE: &[Row] = &[
    Row::Refuses(RootFault::NotChanged),
    Row::Learns(0, 1, [100, -50]),
    Row::Learns(1, 1, [-30, -30]),
    Row::Clears(1, 1, (Some(1), Some(1))),
    Row::Refuses(RootFault::NotChanged),
    Row::Tells(1, 1, (Some(1), Some(1))),
    Row::Learns(0, 2, [20, -50]),
    Row::TellsNothing,
    Row::Clears(2, 0, (Some(2), Some(1))),
    Row::Stores(2, [2, 1]),
];

/// A child is let go under its parent's number, and has no price from then on.
const LETS_GO: &[Row] = &[
    Row::Learns(0, 2, [20, -50]),
    Row::Learns(1, 2, [-30, -30]),
    Row::Clears(1, 0, (Some(2), Some(2))),
    Row::LetsGo(1, 3),
    Row::Clears(2, 1, (Some(2), None)),
    Row::Stores(2, [2, 3]),
];

/// It hears its clearing 5 again, and tells it again.
const HEARS_ITS_CLEARING: &[Row] = &[
    Row::Refuses(RootFault::NotCaughtUp),
    Row::Learns(0, 6, [100, -50]),
    Row::TellsNothing,
    Row::Learns(1, 3, [-30, -30]),
    Row::Tells(5, 1, (Some(6), Some(3))),
    Row::Refuses(RootFault::NotChanged),
    Row::Learns(0, 7, [20, -50]),
    Row::Clears(6, 0, (Some(7), Some(3))),
];

/// A child's newer bid came: the next index follows.
const IS_OVERTAKEN: &[Row] = &[
    Row::Learns(0, 7, [20, -50]),
    Row::Refuses(RootFault::NotCaughtUp),
    Row::Learns(1, 3, [-30, -30]),
    Row::TellsNothing,
    Row::Clears(6, 0, (Some(7), Some(3))),
];

/// Behind the greatest index there is none.
const RUNS_OUT: &[Row] = &[
    Row::Learns(0, 7, [20, -50]),
    Row::Learns(1, 3, [-30, -30]),
    Row::Refuses(RootFault::OutOfNumbers),
];

/// What each script shows; the last index and the first two children's numbers with which its root comes back; and its rows.
const SCRIPTS: &[(&str, u32, [u32; 2], &[Row])] = &[
    (
        "a root that hears its clearing tells it again",
        5,
        [6, 3],
        HEARS_ITS_CLEARING,
    ),
    (
        "a root that is overtaken clears anew",
        5,
        [6, 3],
        IS_OVERTAKEN,
    ),
    ("indices end", 4_294_967_295, [6, 3], RUNS_OUT),
];

/// A root that comes back answers its script.
fn script_is_right<R: Abort>(rt: &R, alloc: Global, script: &(&str, u32, [u32; 2], &[Row])) {
    let mut root = back(rt, alloc, script.1, script.2);
    all_answer(rt, alloc, &mut root, script.0, script.3);
}

#[test]
fn roots_that_come_back_answer_their_scripts(rt: HostRuntime) {
    for script in SCRIPTS {
        script_is_right(&rt, rt.alloc(), script);
    }
}

fn new_root_answers<R: Abort>(rt: &R, alloc: Global, name: &str, rows: &[Row]) {
    let mut root = Root::new(alloc, 2).expect(rt, "memory");
    all_answer(rt, alloc, &mut root, name, rows);
}

#[test]
fn new_roots_answer_their_scripts(rt: HostRuntime) {
    new_root_answers(
        &rt,
        rt.alloc(),
        "a root clears what it learnt",
        CLEARS_TWICE,
    );
    new_root_answers(&rt, rt.alloc(), "a root lets a child go", LETS_GO);
}

#[test]
fn threads_may_share_roots(_rt: HostRuntime) {
    may_be_shared::<Root>();
}
