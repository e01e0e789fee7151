//! Tests of lines of a trace: lines that are read, and bytes that are no line.

use crate::plans::{CHAIN, basis_of, joined_plan};
use crate::same::same;
use pm_check::read_line;
use pm_market::{Line, Move};
use pm_plan::Plan;
use std::alloc::Global;
use std::process::Abort;

/// The plan of a load under a concentrator over the prices -20, -10, 0, 10 and 20: nodes 2 and 1.
fn plan_of<R: Abort>(rt: &R, alloc: Global) -> Plan {
    joined_plan(rt, alloc, basis_of(rt, -20, 20, 5), &CHAIN)
}

/// A line, its move, and the step and the number that the load then holds.
const LINES: &[(&str, Move, Option<(u32, u32)>)] = &[
    ("change load1 1\n", CHANGE, None),
    (
        "change load1 4294967295\n",
        Move::Change {
            device: 2,
            number: 4_294_967_295,
        },
        None,
    ),
    (
        "learn c1 load1 10\n",
        Move::Learn {
            child: 2,
            number: 10,
        },
        None,
    ),
    (
        "learn auctioneer c1 1\n",
        Move::Learn {
            child: 1,
            number: 1,
        },
        None,
    ),
    ("publish c1 2\n", Move::Publish { node: 1, number: 2 }, None),
    ("clear 0\n", Move::Clear { index: 0 }, None),
    ("pass c1 1\n", Move::Pass { node: 1, index: 1 }, None),
    ("pass load1 1 none\n", PASS, None),
    ("pass load1 1 price -20 bid 3\n", PASS, Some((0, 3))),
    ("pass load1 1 price 0 bid 3\n", PASS, Some((2, 3))),
    ("pass load1 1 price 20 bid 3\n", PASS, Some((4, 3))),
    ("close 1\n", Move::Close { phase: 1 }, None),
];

const CHANGE: Move = Move::Change {
    device: 2,
    number: 1,
};

/// The first clearing's pass to the load.
const PASS: Move = Move::Pass { node: 2, index: 1 };

fn lines_are_read<R: Abort>(rt: &R, plan: &Plan) {
    for row in LINES {
        let (what, held) = (row.1, row.2);
        let have = read_line(plan, row.0.as_bytes());
        same(rt, row.0, have, Some(Line { what, held }));
    }
}

#[test]
fn a_line_is_read(rt: HostRuntime) {
    lines_are_read(&rt, &plan_of(&rt, rt.alloc()));
}

const NO_LINES: &[&str] = &[
    "",
    "\n",
    "moves 1\n",
    "change load1 1",
    "change load1 1\n\n",
    "change load1 1 \n",
    "change  load1 1\n",
    " change load1 1\n",
    "change load1 01\n",
    "change load1 +1\n",
    "change load1 -1\n",
    "change load1 4294967296\n",
    "change load1 \n",
    "change load2 1\n",
    "learn auctioneer load1 1\n",
    "learn c1 c1 1\n",
    "learn auctioneer auctioneer 1\n",
    "pass load1 1\n",
    "pass c1 1 none\n",
    "pass auctioneer 1\n",
    "pass load1 1 price 5 bid 3\n",
    "pass load1 1 price 30 bid 3\n",
    "pass load1 1 price -30 bid 3\n",
    "pass load1 1 price -0 bid 3\n",
    "pass load1 1 price 0 bid 03\n",
    "pass load1 1 none \n",
];

fn no_line_is_read<R: Abort>(rt: &R, plan: &Plan) {
    for text in NO_LINES {
        same(rt, *text, read_line(plan, text.as_bytes()), None);
    }
}

#[test]
fn other_bytes_are_no_line(rt: HostRuntime) {
    no_line_is_read(&rt, &plan_of(&rt, rt.alloc()));
}
