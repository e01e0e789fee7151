//! Tests of device agents: scripts of which setpoints are told, and of what is left after a restart. The numbers are worked out
//! by hand.

use crate::bids::bid_of;
use crate::same::same;
use crate::shared::may_be_shared;
use pm_control::{ControlAgent, OfferFault};
use pm_session::PriceUpdate;
use std::alloc::Global;
use std::process::Abort;

/// A row of a script: a call of an agent, and what it answers.
#[derive(Clone, Copy)]
enum Row {
    /// An offer of these demands at both steps, with this answer.
    Offers([i64; 2], Result<u32, OfferFault>),
    /// A price of this step, number and index tells to take this power, or nothing.
    Tells(u32, u32, u32, Option<i64>),
    /// The agent leaves under this number.
    Leaves(Option<u32>),
    /// Its parent keeps this number, and it offers anew under the other one.
    TakesOld(u32, Option<u32>),
    /// What it would come back with: its newest number, whether that has an offer, and the index.
    Stores(u32, bool, u32),
}

/// The agent with which a script begins.
#[derive(Clone, Copy)]
enum Start {
    New,
    /// It comes back under this number, with an offer of these demands.
    Back(u32, Option<[i64; 2]>),
}

fn start_of<R: Abort>(rt: &R, alloc: Global, start: Start) -> ControlAgent {
    let agent = match start {
        Start::New => ControlAgent::new(alloc),
        Start::Back(number, None) => ControlAgent::resumed(alloc, number, None, 0),
        Start::Back(number, Some(demands)) => {
            ControlAgent::resumed(alloc, number, Some(bid_of(rt, alloc, demands)), 0)
        }
    };
    agent.expect(rt, "memory")
}

/// The power that a price tells to take. The setpoint names the price.
fn told<R: Abort>(rt: &R, agent: &mut ControlAgent, price: PriceUpdate) -> Option<i64> {
    let setpoint = agent.take_price(price)?;
    let named = (setpoint.step, setpoint.number, setpoint.index);
    let due = (price.step, price.number, price.index);
    same(rt, "setpoint", named, due);
    Some(setpoint.power)
}

/// What an agent would come back with: its newest number, whether that has an offer, and the index.
fn stored(agent: &ControlAgent) -> (u32, bool, u32) {
    let resume = agent.resume();
    (resume.number, resume.newest.is_some(), resume.index)
}

/// A call answers as its row says.
fn answers<R: Abort>(rt: &R, alloc: Global, agent: &mut ControlAgent, name: &str, row: Row) {
    match row {
        Row::Offers(demands, due) => {
            let have = agent.offer(bid_of(rt, alloc, demands));
            same(rt, (name, demands), have, due)
        }
        Row::Tells(step, number, index, power) => {
            let price = PriceUpdate {
                step,
                number,
                index,
            };
            same(rt, (name, price), told(rt, agent, price), power)
        }
        Row::Leaves(number) => same(rt, (name, "leaves"), agent.leave(), number),
        Row::TakesOld(kept, number) => same(rt, (name, kept), agent.take_old(kept), number),
        Row::Stores(number, newest, index) => {
            same(rt, (name, "stores"), stored(agent), (number, newest, index))
        }
    }
}

const TELLS_THE_POWER: &[Row] = &[
    Row::Offers([5, -3], Ok(2)),
    Row::Offers([4, -2], Ok(4)),
    Row::Tells(1, 2, 1, Some(-3)),
    Row::Tells(1, 2, 1, None),
    Row::Tells(0, 4, 2, Some(4)),
    Row::Tells(0, 2, 3, None),
    Row::Tells(1, 4, 4, Some(-2)),
    Row::Leaves(Some(6)),
    Row::Tells(0, 4, 5, None),
];

const FILLS_THE_WINDOW: &[Row] = &[
    Row::Offers([10, 0], Ok(2)),
    Row::Offers([10, 0], Ok(4)),
    Row::Offers([10, 0], Ok(6)),
    Row::Offers([10, 0], Ok(8)),
    Row::Offers([10, 0], Ok(10)),
    Row::Offers([10, 0], Ok(12)),
    Row::Offers([10, 0], Ok(14)),
    Row::Offers([10, 0], Ok(16)),
    Row::Offers([20, 0], Err(OfferFault::WindowFull)),
    Row::Tells(0, 6, 1, Some(10)),
    Row::Offers([20, 0], Ok(18)),
    Row::Tells(0, 18, 2, Some(20)),
];

const STORES_ITS_NEWEST: &[Row] = &[
    Row::Offers([5, -3], Ok(2)),
    Row::Offers([4, -2], Ok(4)),
    Row::Tells(1, 2, 1, Some(-3)),
    Row::Stores(4, true, 1),
];

const HAS_ITS_NEWEST: &[Row] = &[Row::Tells(1, 2, 1, None), Row::Tells(1, 4, 2, Some(-2))];

const OFFERS_ANEW: &[Row] = &[
    Row::Offers([5, -3], Ok(2)),
    Row::Offers([4, -2], Ok(4)),
    Row::TakesOld(4, None),
    Row::TakesOld(5, Some(8)),
    Row::Tells(1, 4, 1, None),
    Row::Tells(1, 8, 2, Some(-2)),
    Row::Leaves(Some(10)),
    Row::TakesOld(11, None),
];

const RUNS_OUT: &[Row] = &[
    Row::Offers([1, 0], Ok(4_294_967_292)),
    Row::Offers([2, 0], Err(OfferFault::OutOfNumbers)),
    Row::Leaves(Some(4_294_967_294)),
    Row::Leaves(None),
    Row::Offers([3, 0], Err(OfferFault::OutOfNumbers)),
];

/// What each script shows, how it begins, and its rows.
const SCRIPTS: &[(&str, Start, &[Row])] = &[
    (
        "a price tells the power of the offer that it names",
        Start::New,
        TELLS_THE_POWER,
    ),
    (
        "eight offers are unanswered at most",
        Start::New,
        FILLS_THE_WINDOW,
    ),
    (
        "an agent stores its newest offer",
        Start::New,
        STORES_ITS_NEWEST,
    ),
    (
        "an agent comes back with its newest offer",
        Start::Back(4, Some([4, -2])),
        HAS_ITS_NEWEST,
    ),
    (
        "an agent that was let go offers anew",
        Start::New,
        OFFERS_ANEW,
    ),
    (
        "the last number is left for leaving",
        Start::Back(4_294_967_290, None),
        RUNS_OUT,
    ),
];

fn script_is_right<R: Abort>(rt: &R, alloc: Global, script: &(&str, Start, &[Row])) {
    let mut agent = start_of(rt, alloc, script.1);
    for row in script.2 {
        answers(rt, alloc, &mut agent, script.0, *row);
    }
}

#[test]
fn agents_answer_their_scripts(rt: HostRuntime) {
    for script in SCRIPTS {
        script_is_right(&rt, rt.alloc(), script);
    }
}

#[test]
fn threads_may_share_agents(_rt: HostRuntime) {
    may_be_shared::<ControlAgent>();
}
