//! Tests of relays: scripts of what goes up and down, and of what is left after a restart. The numbers are worked out by hand.

ghost use Rattle.std.specs.Prelude.{◌≡◌};
ghost use Rattle.pm_relay.specs.Relays.{AreRelayLimits};

use crate::bids::bid_of;
use crate::same::same;
use crate::shared::may_be_shared;
use pm_base::{Limits, MOST_NODES};
use pm_bid::uncounted;
use pm_cache::CacheFault;
use pm_relay::{PriceOutcome, Relay, Resume, SendFault};
use pm_session::PriceUpdate;
use std::alloc::Global;
use std::process::Abort;

/// A row of a script: a call of a relay, and what it answers.
#[derive(Clone, Copy)]
enum Row {
    /// A child's bid under this number, of these demands at both steps, is learnt.
    Learns(usize, u32, [i64; 2]),
    /// It is old: a bid of the number behind it is kept.
    IsOld(usize, u32, [i64; 2], u32),
    /// A child says under this number that it is gone.
    Leaves(usize, u32),
    /// A child is let go, under this number.
    LetsGo(usize, u32),
    /// The bid of this number and these demands is sent.
    Sends(u32, [i64; 2]),
    /// No bid is sent, for this reason.
    Refuses(SendFault),
    /// The number of the bid that can be sent again.
    SendsAgain(Option<u32>),
    /// The demands of the newest bid.
    Demands([i64; 2]),
    /// A price of step 0, by its number and index, goes on: the step and the number for each of the first two children.
    Passes(u32, u32, Option<(u32, u32)>, Option<(u32, u32)>),
    /// A price of step 0, by its number and index, does not go on: this comes of it.
    Takes(u32, u32, PriceOutcome),
    /// The wide limits come under number 2 in place 2, with this answer.
    Widens(Result<(), CacheFault>),
    /// What it would come back with: the last number, the first two children's numbers, the number answered and the index.
    Stores(u32, [u32; 2], u32, u32),
    /// It would come back with the wide limits.
    StoresWide,
}

/// The relay with which a script begins.
#[derive(Clone, Copy)]
enum Start {
    New,
    /// It comes back: the last number, the first three children's numbers, the number answered and the index.
    Back(u32, [u32; 3], u32, u32),
    /// It comes back with its bid 2, which was made under the wide limits, given under number 2 in place 2.
    BackWide,
}

/// The limits of the first start, in watts.
const NARROW: Limits = Limits {
    floor: -100,
    ceiling: 150,
};

/// Wider limits.
const WIDE: Limits = Limits {
    floor: -200,
    ceiling: 200,
};

/// The relay that comes back with this, and with the narrow limits for what it sends next.
fn back<R: Abort>(
    rt: &R,
    alloc: Global,
    last: u32,
    numbers: [u32; 3],
    answered: u32,
    index: u32,
    limits: Limits,
) -> Relay
    requires { AreRelayLimits limits }
    ensures { result.gathered.cache.steps ≡ 2 }
{
    assert!(rt; answered <= last);
    let mut all = [0; MOST_NODES];
    all[0] = numbers[0];
    all[1] = numbers[1];
    all[2] = numbers[2];
    let resume = Resume {
        last,
        numbers: &all,
        limits,
        answered,
        index,
    };
    Relay::resumed(alloc, 2, NARROW, &resume).expect(rt, "memory")
}

fn start_of<R: Abort>(rt: &R, alloc: Global, start: Start) -> Relay
    ensures { result.gathered.cache.steps ≡ 2 }
{
    match start {
        Start::New => Relay::new(alloc, 2, NARROW).expect(rt, "memory"),
        Start::Back(last, numbers, answered, index) => {
            back(rt, alloc, last, numbers, answered, index, NARROW)
        }
        Start::BackWide => back(rt, alloc, 2, [2, 2, 2], 0, 0, WIDE),
    }
}

/// What a child's bid is answered.
fn learnt<R: Abort>(
    rt: &R,
    alloc: Global,
    relay: &mut Relay,
    child: usize,
    number: u32,
    demands: [i64; 2],
) -> Result<(), CacheFault>
    requires steps { relay.old.gathered.cache.steps ≡ 2 }
    ensures steps { relay.new.gathered.cache.steps ≡ 2 }
{
    assert!(rt; child < MOST_NODES);
    relay.learn(child, number, Some(&bid_of(rt, alloc, demands)))
}

/// Whether a child can leave under this number.
fn leaves<R: Abort>(rt: &R, relay: &mut Relay, child: usize, number: u32) -> bool
    ensures { relay.new.gathered.cache.steps ≡ relay.old.gathered.cache.steps }
{
    assert!(rt; child < MOST_NODES);
    relay.learn(child, number, None).is_ok()
}

/// The number under which a child is let go.
fn let_go<R: Abort>(rt: &R, relay: &mut Relay, child: usize) -> u32
    ensures { relay.new.gathered.cache.steps ≡ relay.old.gathered.cache.steps }
{
    assert!(rt; child < MOST_NODES);
    relay.expire(child)
}

/// The demand of the newest bid, at both steps.
fn demands_of(relay: &Relay) -> [i64; 2]
    requires { relay.now.gathered.cache.steps ≡ 2 }
{
    let demand = relay.demand();
    let mut counter = uncounted();
    [demand.at(0, &mut counter), demand.at(1, &mut counter)]
}

/// Whether a child is told this step and number under the index.
fn is_told(have: Option<PriceUpdate>, due: Option<(u32, u32)>, index: u32) -> bool {
    match (have, due) {
        (Some(have), Some((step, number))) => {
            (have.step, have.number, have.index) == (step, number, index)
        }
        (None, None) => true,
        _ => false,
    }
}

/// A price of step 0.
fn price_of(number: u32, index: u32) -> PriceUpdate
    ensures { result.step ≡ 0 }
{
    PriceUpdate {
        step: 0,
        number,
        index,
    }
}

/// Whether a price goes on, to the first two children alone, who are told this.
fn passes(
    relay: &mut Relay,
    price: PriceUpdate,
    first: Option<(u32, u32)>,
    second: Option<(u32, u32)>,
) -> bool
    requires steps { relay.old.gathered.cache.steps ≡ 2 }
    requires step { price.step ≡ 0 }
    ensures steps { relay.new.gathered.cache.steps ≡ 2 }
{
    match relay.take_price(price) {
        PriceOutcome::PassedOn => {
            let prices = relay.prices(price);
            prices.children() == MOST_NODES
                && is_told(prices.for_child(0), first, price.index)
                && is_told(prices.for_child(1), second, price.index)
                && prices.for_child(2).is_none()
        }
        _ => false,
    }
}

/// What a relay would come back with: the last number, the first two children's numbers, the number answered and the index.
fn stored(relay: &Relay) -> (u32, [u32; 2], u32, u32) {
    let resume = relay.resume();
    (
        resume.last,
        [resume.numbers[0], resume.numbers[1]],
        resume.answered,
        resume.index,
    )
}

/// A call answers as its row says.
fn answers<R: Abort>(rt: &R, alloc: Global, relay: &mut Relay, case: (&str, usize), row: Row)
    requires { relay.old.gathered.cache.steps ≡ 2 }
    ensures { relay.new.gathered.cache.steps ≡ 2 }
{
    match row {
        Row::Learns(child, number, demands) => {
            let have = learnt(rt, alloc, relay, child, number, demands);
            same(rt, case, have, Ok(()))
        }
        Row::IsOld(child, number, demands, kept) => {
            let old = Err(CacheFault::Old { kept });
            let have = learnt(rt, alloc, relay, child, number, demands);
            same(rt, case, have, old)
        }
        Row::Leaves(child, number) => same(rt, case, leaves(rt, relay, child, number), true),
        Row::LetsGo(child, number) => same(rt, case, let_go(rt, relay, child), number),
        Row::Sends(number, demands) => {
            same(rt, case, relay.send(), Ok(number));
            same(rt, case, demands_of(relay), demands)
        }
        Row::Refuses(fault) => same(rt, case, relay.send(), Err(fault)),
        Row::SendsAgain(number) => same(rt, case, relay.resend(), number),
        Row::Demands(demands) => same(rt, case, demands_of(relay), demands),
        Row::Passes(number, index, first, second) => {
            let have = passes(relay, price_of(number, index), first, second);
            same(rt, case, have, true)
        }
        Row::Takes(number, index, due) => {
            same(rt, case, relay.take_price(price_of(number, index)), due)
        }
        Row::Widens(due) => same(rt, case, relay.set_limits(2, 2, WIDE), due),
        Row::Stores(last, numbers, answered, index) => {
            same(rt, case, stored(relay), (last, numbers, answered, index))
        }
        Row::StoresWide => same(rt, case, relay.resume().limits, WIDE),
    }
}

/// Each call of a script answers as its row says.
fn all_answer<R: Abort>(rt: &R, alloc: Global, relay: &mut Relay, name: &str, rows: &[Row])
    requires { relay.old.gathered.cache.steps ≡ 2 }
{
    for (place, row) in rows.iter().enumerate() {
        answers(rt, alloc, relay, (name, place), *row);
    }
}

/// Two children's bids go up as one, and a price comes down by what was sent. A sum that jumps over the limits is announced as it
/// is below them, and one that falls below them as it is at the last step within.
const GATHERS: &[Row] = &[
    Row::Refuses(SendFault::NotChanged),
    Row::Learns(0, 1, [100, 40]),
    Row::Learns(1, 1, [80, -200]),
    Row::Sends(1, [-160, -160]),
    Row::Refuses(SendFault::NotChanged),
    Row::SendsAgain(Some(1)),
    Row::Learns(0, 2, [50, 0]),
    Row::Takes(2, 1, PriceOutcome::Dropped),
    Row::Passes(1, 1, Some((1, 1)), Some((1, 1))),
    Row::Takes(1, 1, PriceOutcome::Dropped),
    Row::Sends(2, [130, 130]),
    Row::Stores(2, [2, 1], 1, 1),
];

const TELLS_OLD: &[Row] = &[
    Row::Learns(255, 7, [1, 0]),
    Row::IsOld(255, 7, [2, 0], 7),
    Row::Leaves(255, 8),
    Row::Sends(1, [0, 0]),
];

/// Nine bids: the ninth waits for a price.
const FILLS_THE_WINDOW: &[Row] = &[
    Row::Learns(0, 1, [10, 0]),
    Row::Sends(1, [10, 0]),
    Row::Learns(0, 2, [10, 0]),
    Row::Sends(2, [10, 0]),
    Row::Learns(0, 3, [10, 0]),
    Row::Sends(3, [10, 0]),
    Row::Learns(0, 4, [10, 0]),
    Row::Sends(4, [10, 0]),
    Row::Learns(0, 5, [10, 0]),
    Row::Sends(5, [10, 0]),
    Row::Learns(0, 6, [10, 0]),
    Row::Sends(6, [10, 0]),
    Row::Learns(0, 7, [10, 0]),
    Row::Sends(7, [10, 0]),
    Row::Learns(0, 8, [10, 0]),
    Row::Sends(8, [10, 0]),
    Row::Learns(0, 9, [20, 0]),
    Row::Refuses(SendFault::WindowFull),
    Row::Passes(3, 5, Some((0, 3)), None),
    Row::Sends(9, [20, 0]),
];

/// A child is let go under its parent's number, and comes back by a newer bid of its own.
const LETS_GO: &[Row] = &[
    Row::Learns(0, 2, [100, 40]),
    Row::Learns(1, 2, [80, -200]),
    Row::Sends(1, [-160, -160]),
    Row::LetsGo(1, 3),
    Row::Sends(2, [100, 40]),
    Row::IsOld(1, 2, [80, -200], 3),
    Row::LetsGo(1, 3),
    Row::Refuses(SendFault::NotChanged),
    Row::Passes(2, 1, Some((0, 2)), None),
    Row::Learns(1, 6, [80, -200]),
    Row::Sends(3, [-160, -160]),
    Row::Stores(3, [2, 6], 2, 1),
];

/// It is caught up by letting go again the child that was gone in its record.
const LETS_GO_AGAIN: &[Row] = &[
    Row::Learns(0, 2, [100, 40]),
    Row::Refuses(SendFault::NotCaughtUp),
    Row::LetsGo(1, 3),
    Row::SendsAgain(Some(4)),
    Row::Demands([100, 40]),
];

/// It hears the record of its bid 4 again: it can send that bid again, and pass the price that waited.
const HEARS_ITS_RECORD: &[Row] = &[
    Row::Refuses(SendFault::NotCaughtUp),
    Row::Takes(4, 7, PriceOutcome::Dropped),
    Row::Takes(4, 8, PriceOutcome::Waits),
    Row::Learns(0, 6, [100, 40]),
    Row::SendsAgain(None),
    Row::Learns(1, 3, [80, -200]),
    Row::SendsAgain(Some(4)),
    Row::Demands([-160, -160]),
    Row::Refuses(SendFault::NotChanged),
    Row::Passes(4, 8, Some((1, 6)), Some((1, 3))),
    Row::Learns(0, 7, [50, 0]),
    Row::Sends(5, [130, 130]),
    Row::Stores(5, [7, 3], 4, 8),
];

/// A child's newer bid came: the record is lost, its price is taken alone, and the next number follows.
const IS_OVERTAKEN: &[Row] = &[
    Row::Takes(3, 8, PriceOutcome::Alone),
    Row::Learns(0, 7, [50, 0]),
    Row::Refuses(SendFault::NotCaughtUp),
    Row::Takes(4, 9, PriceOutcome::Alone),
    Row::Learns(1, 3, [80, -200]),
    Row::SendsAgain(None),
    Row::Sends(5, [130, 130]),
    Row::Takes(4, 10, PriceOutcome::Alone),
    Row::Takes(3, 11, PriceOutcome::Dropped),
    Row::Passes(5, 11, Some((0, 7)), Some((0, 3))),
];

/// Behind the greatest number there is none.
const RUNS_OUT: &[Row] = &[
    Row::Learns(0, 6, [10, 0]),
    Row::Sends(4_294_967_295, [10, 0]),
    Row::Learns(0, 7, [20, 0]),
    Row::Refuses(SendFault::OutOfNumbers),
];

/// Limits change: the bid that was sent stays, and its price settles by its own limits; the next bid is by the new ones, and so
/// is its price.
const CHANGES_LIMITS: &[Row] = &[
    Row::Learns(0, 2, [100, 40]),
    Row::Learns(1, 2, [80, -200]),
    Row::Sends(1, [-160, -160]),
    Row::Widens(Ok(())),
    Row::Demands([-160, -160]),
    Row::Passes(1, 1, Some((1, 2)), Some((1, 2))),
    Row::Widens(Err(CacheFault::Old { kept: 2 })),
    Row::Sends(2, [180, -160]),
    Row::Refuses(SendFault::NotChanged),
    Row::Passes(2, 2, Some((0, 2)), Some((0, 2))),
    Row::StoresWide,
];

/// It sends nothing until it is told its limits, and then has its record with them.
const HEARS_ITS_LIMITS: &[Row] = &[
    Row::Learns(0, 2, [100, 40]),
    Row::Learns(1, 2, [80, -200]),
    Row::Refuses(SendFault::NotCaughtUp),
    Row::Takes(2, 1, PriceOutcome::Waits),
    Row::StoresWide,
    Row::Widens(Ok(())),
    Row::SendsAgain(Some(2)),
    Row::Demands([180, -160]),
    Row::Passes(2, 1, Some((0, 2)), Some((0, 2))),
];

/// What each script shows, how it begins, and its rows.
const SCRIPTS: &[(&str, Start, &[Row])] = &[
    ("bids go up and prices down", Start::New, GATHERS),
    ("an old bid is told", Start::New, TELLS_OLD),
    (
        "a full window sends after a price",
        Start::New,
        FILLS_THE_WINDOW,
    ),
    ("a child is let go and comes back", Start::New, LETS_GO),
    (
        "one that comes back lets go again",
        Start::Back(4, [2, 3, 0], 2, 7),
        LETS_GO_AGAIN,
    ),
    (
        "one that hears its record has it again",
        Start::Back(4, [6, 3, 0], 2, 7),
        HEARS_ITS_RECORD,
    ),
    (
        "one that is overtaken sends anew",
        Start::Back(4, [6, 3, 0], 2, 7),
        IS_OVERTAKEN,
    ),
    (
        "numbers end",
        Start::Back(4_294_967_294, [5, 0, 0], 4_294_967_290, 7),
        RUNS_OUT,
    ),
    (
        "limits change with the next bid",
        Start::New,
        CHANGES_LIMITS,
    ),
    (
        "one that comes back hears its limits",
        Start::BackWide,
        HEARS_ITS_LIMITS,
    ),
];

fn script_is_right<R: Abort>(rt: &R, alloc: Global, script: &(&str, Start, &[Row])) {
    let mut relay = start_of(rt, alloc, script.1);
    all_answer(rt, alloc, &mut relay, script.0, script.2);
}

#[test]
fn relays_answer_their_scripts(rt: HostRuntime) {
    for script in SCRIPTS {
        script_is_right(&rt, rt.alloc(), script);
    }
}

#[test]
fn threads_may_share_relays(_rt: HostRuntime) {
    may_be_shared::<Relay>();
}
