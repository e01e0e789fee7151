//! Tests of the program `live`: each node on a stream worked out by hand, in pieces of three sizes, and its endings.

ghost use Rattle.std.specs.Prelude.{◌≤◌};

use crate::holds::holds;
use pm_io::{MemSink, MemSource, SystemMemory};
use pm_live::{Ending, live};
use pm_wire::Served;
use std::alloc::Global;
use std::process::Abort;

const DONE: Ending = Ending::Served(Served::Done);

const REFUSED: Ending = Ending::Served(Served::Refused);

const USAGE: &[u8] =
    b"usage: live relay CHILD FLOOR CEILING [GIVER] | live auctioneer | live device CHILD\n";

/// Hello of two steps: prices 0 and 9.
const HELLO: &[u8] = &[1, 0, 0, 0, 0, 0, 0, 0, 9, 0, 2];

/// Bid 1 of child 1 takes 5 watts at step 0 and gives 3 at step 1; bid 4 of child 2 takes 16 watts and none.
const BIDS: &[u8] = &[
    2, 0, 1, 0, 0, 0, 1, 0, 0, 0, 5, 255, 255, 255, 253, 2, 0, 2, 0, 0, 0, 4, 0, 0, 0, 16, 0, 0, 0,
    0,
];

/// The numbers of the children behind the first two, none of which has bid.
const NUMBERS: &[u8] = &[0; 1016];

/// The basis of Hello, as a Price and a Resume name it.
const BASIS: &[u8] = &[0, 0, 0, 0, 0, 0, 0, 9, 0, 2];

/// Send, and the price of clearing 7 for bid 1 of child 3, at step 1; its basis stands behind it.
const SEND_AND_PRICE: &[u8] = &[9, 23, 0, 3, 0, 0, 0, 1, 0, 0, 0, 7, 0, 1];

/// What the relay keeps: its last number, the number answered and the index; and behind the basis the limits of the arguments, no
/// giver, the limits of its newest bid, and the numbers of its children.
const KEPT: &[u8] = &[25, 0, 0, 0, 1, 0, 0, 0, 0, 0, 0, 0, 0];

const TERMS: &[u8] = &[
    255, 255, 252, 24, 0, 0, 3, 232, 0, 0, 255, 255, 252, 24, 0, 0, 3, 232, 0, 0, 0, 1, 0, 0, 0, 4,
];

/// Its bid: 21 watts at step 0 and -3 at step 1.
const OWN_BID: &[u8] = &[2, 0, 3, 0, 0, 0, 1, 0, 0, 0, 21, 255, 255, 255, 253];

/// The prices for both children, each with the basis behind it.
const DOWN_1: &[u8] = &[23, 0, 1, 0, 0, 0, 1, 0, 0, 0, 7, 0, 1];

const DOWN_2: &[u8] = &[23, 0, 2, 0, 0, 0, 4, 0, 0, 0, 7, 0, 1];

/// What the relay keeps once it took the price.
const KEPT_LATER: &[u8] = &[25, 0, 0, 0, 1, 0, 0, 0, 1, 0, 0, 0, 7];

/// Bid 1 of child 1; limits of -1 to 1 watts under number 2; a bound of 0 to 4 watts for child 2, and its bid of 6 watts.
const BID_1: &[u8] = &[2, 0, 1, 0, 0, 0, 1, 0, 0, 0, 5, 255, 255, 255, 253];

const LIMITS: &[u8] = &[20, 0, 0, 0, 2, 255, 255, 255, 255, 0, 0, 0, 1];

const BOUND: &[u8] = &[21, 0, 2, 0, 0, 0, 0, 0, 0, 0, 4];

const BEYOND: &[u8] = &[2, 0, 2, 0, 0, 0, 1, 0, 0, 0, 6, 0, 0, 0, 0];

/// Send, and a price of ten steps.
const SEND_AND_OTHER: &[u8] = &[
    9, 23, 0, 3, 0, 0, 0, 1, 0, 0, 0, 7, 0, 1, 0, 0, 0, 0, 0, 0, 0, 9, 0, 10,
];

/// The bid of child 2 is too much.
const TOO_MUCH: &[u8] = &[22, 0, 2, 0, 0, 0, 1];

/// Behind the basis: the limits of the arguments, the giver, the limits that were given, and the numbers of the first five children.
const GIVEN: &[u8] = &[
    255, 255, 252, 24, 0, 0, 3, 232, 0, 5, 255, 255, 255, 255, 0, 0, 0, 1, 0, 0, 0, 1, 0, 0, 0, 0,
    0, 0, 0, 0, 0, 0, 0, 0, 0, 0, 0, 2,
];

/// The numbers behind those of the first five.
const NUMBERS_BEHIND_5: &[u8] = &[0; 1004];

/// No step of 5 and -3 watts is within the limits: the relay settles at the second, and says that it is out of them.
const OUT_OF_LIMITS: &[u8] = &[
    2, 0, 3, 0, 0, 0, 1, 255, 255, 255, 253, 255, 255, 255, 253, 27, 0, 0, 0, 1,
];

/// The price of clearing 7 is of another basis.
const OTHER_BASIS: &[u8] = &[24, 0, 0, 0, 1, 0, 0, 0, 7];

/// Clear, twice.
const CLEARS: &[u8] = &[4, 4];

/// What the auctioneer keeps of its first clearing, before the basis and the numbers.
const CLEARED: &[u8] = &[25, 0, 0, 0, 1];

const FIRST_NUMBERS: &[u8] = &[0, 0, 0, 1, 0, 0, 0, 4];

/// The prices of the clearing, at step 1, and that nothing changed since.
const PRICE_1: &[u8] = &[23, 0, 1, 0, 0, 0, 1, 0, 0, 0, 1, 0, 1];

const PRICE_2: &[u8] = &[23, 0, 2, 0, 0, 0, 4, 0, 0, 0, 1, 0, 1];

const NOT_CHANGED: &[u8] = &[6];

/// An offer of 500 watts at step 0 and of -300 at step 1, and the price of clearing 7 for it, before its basis.
const OFFER: &[u8] = &[
    13, 0, 0, 1, 244, 255, 255, 254, 212, 23, 0, 2, 0, 0, 0, 2, 0, 0, 0, 7, 0, 1,
];

const LEAVE: &[u8] = &[14];

/// What the agent keeps: its last number and the index, and behind the basis its offer.
const OFFERED: &[u8] = &[25, 0, 0, 0, 2, 0, 0, 0, 0];

/// Its offer, its bid, and the setpoint of -300 watts.
const SETPOINT: &[u8] = &[
    0, 0, 1, 244, 255, 255, 254, 212, 2, 0, 2, 0, 0, 0, 2, 0, 0, 1, 244, 255, 255, 254, 212, 15, 0,
    0, 0, 2, 0, 0, 0, 7, 0, 1, 255, 255, 254, 212,
];

/// What it keeps then, and that it left.
const PRICED: &[u8] = &[25, 0, 0, 0, 2, 0, 0, 0, 7];

const DEMAND: &[u8] = &[0, 0, 1, 244, 255, 255, 254, 212];

const GONE: &[u8] = &[26, 0, 0, 0, 4, 0, 0, 0, 7];

const LEFT: &[u8] = &[3, 0, 2, 0, 0, 0, 4];

/// An agent comes back with number 4 and the offer of 5 and -3 watts, and sends its bid again. Its parent let it go under number 5, so
/// it makes the offer anew under number 8.
const COMES_BACK: &[u8] = &[25, 0, 0, 0, 4, 0, 0, 0, 7];

const SMALL: &[u8] = &[0, 0, 0, 5, 255, 255, 255, 253];

const OLD: &[u8] = &[7, 0, 2, 0, 0, 0, 5];

const BID_AGAIN: &[u8] = &[2, 0, 2, 0, 0, 0, 4, 0, 0, 0, 5, 255, 255, 255, 253];

const ANEW: &[u8] = &[25, 0, 0, 0, 8, 0, 0, 0, 7];

const BID_ANEW: &[u8] = &[2, 0, 2, 0, 0, 0, 8, 0, 0, 0, 5, 255, 255, 255, 253];

/// The same under a number of its parent.
const PARENTS_NUMBER: &[u8] = &[25, 0, 0, 0, 5, 0, 0, 0, 7];

/// The fault of a frame behind Hello.
const FAULT: &[u8] = &[8, 0, 0, 0, 0, 0, 0, 0, 11];

/// A call: its arguments, the parts of its input, how it ends, and the parts of what it writes.
type Row = (
    &'static str,
    &'static [&'static [u8]],
    Ending,
    &'static [&'static [u8]],
);

const ROWS: &[Row] = &[
    (
        "relay 3 -1000 1000",
        &[HELLO, BIDS, SEND_AND_PRICE, BASIS],
        DONE,
        &[
            KEPT, BASIS, TERMS, NUMBERS, OWN_BID, DOWN_1, BASIS, DOWN_2, BASIS, KEPT_LATER, BASIS,
            TERMS, NUMBERS,
        ],
    ),
    (
        "relay 3 -1000 1000 5",
        &[HELLO, BID_1, LIMITS, BOUND, BEYOND, SEND_AND_OTHER],
        DONE,
        &[
            TOO_MUCH,
            KEPT,
            BASIS,
            GIVEN,
            NUMBERS_BEHIND_5,
            OUT_OF_LIMITS,
            OTHER_BASIS,
        ],
    ),
    (
        "relay 3 -1000 1000 5",
        &[HELLO, KEPT, BASIS, GIVEN, NUMBERS_BEHIND_5, BID_1],
        DONE,
        &[OUT_OF_LIMITS],
    ),
    (
        "relay 3 -1000 1000 4",
        &[HELLO, KEPT, BASIS, GIVEN, NUMBERS_BEHIND_5],
        REFUSED,
        &[FAULT],
    ),
    ("relay 3 -1000 1000", &[HELLO, LIMITS], REFUSED, &[FAULT]),
    ("relay 3 -1000 1000 2", &[HELLO, BOUND], REFUSED, &[FAULT]),
    ("relay 3 -1000 1000", &[HELLO, CLEARS], REFUSED, &[FAULT]),
    (
        "auctioneer",
        &[HELLO, BIDS, CLEARS],
        DONE,
        &[
            CLEARED,
            BASIS,
            FIRST_NUMBERS,
            NUMBERS,
            PRICE_1,
            BASIS,
            PRICE_2,
            BASIS,
            NOT_CHANGED,
        ],
    ),
    ("auctioneer", &[HELLO, BOUND, BEYOND], DONE, &[TOO_MUCH]),
    ("auctioneer", &[HELLO, OFFER], REFUSED, &[FAULT]),
    (
        "device 2",
        &[HELLO, OFFER, BASIS, LEAVE],
        DONE,
        &[
            OFFERED, BASIS, SETPOINT, PRICED, BASIS, DEMAND, GONE, BASIS, LEFT,
        ],
    ),
    (
        "device 2",
        &[HELLO, COMES_BACK, BASIS, SMALL, OLD],
        DONE,
        &[BID_AGAIN, ANEW, BASIS, SMALL, BID_ANEW],
    ),
    (
        "device 2",
        &[HELLO, PARENTS_NUMBER, BASIS, SMALL],
        REFUSED,
        &[FAULT],
    ),
    ("device 2", &[HELLO, BIDS], REFUSED, &[FAULT]),
    ("device 0", &[HELLO], Ending::Usage, &[USAGE]),
    ("device 02", &[HELLO], Ending::Usage, &[USAGE]),
    ("relay 3 1 1000", &[HELLO], Ending::Usage, &[USAGE]),
    ("relay 3 -0 1000", &[HELLO], Ending::Usage, &[USAGE]),
    ("relay 3 0 1000000001", &[HELLO], Ending::Usage, &[USAGE]),
    ("relay 257 0 0", &[HELLO], Ending::Usage, &[USAGE]),
    ("relay 3 0 0 257", &[HELLO], Ending::Usage, &[USAGE]),
    ("relay 3 0 0 0", &[HELLO], Ending::Usage, &[USAGE]),
    ("", &[HELLO], Ending::Usage, &[USAGE]),
];

/// The bytes of the parts.
fn joined<R: Abort>(rt: &R, alloc: Global, parts: &[&[u8]]) -> Vec<u8> {
    let mut bytes = Vec::new(alloc);
    for part in parts {
        bytes.extend_from_slice(part).expect(rt, "memory");
    }
    bytes
}

/// The words of a line, as arguments.
fn words_of<R: Abort>(rt: &R, alloc: Global, line: &str) -> Vec<String> {
    let mut words = Vec::new(alloc);
    for word in line.split_whitespace() {
        let word = String::from_str(alloc, word).expect(rt, "memory");
        words.push(word).expect(rt, "memory");
    }
    words
}

/// How a call of this line ends.
fn ended_on<R: Abort>(
    rt: &R,
    alloc: Global,
    line: &str,
    source: &mut MemSource,
    sink: &mut MemSink,
) -> Ending {
    let words = words_of(rt, alloc, line);
    live(alloc, &mut SystemMemory::new(alloc), &words, source, sink)
}

/// How the call of a row on its input in pieces of so many bytes ends.
fn ended<R: Abort>(rt: &R, alloc: Global, row: &Row, piece: usize, sink: &mut MemSink) -> Ending
    requires { 1 ≤ piece }
{
    let mut source = MemSource::new(joined(rt, alloc, row.1), piece, Vec::new(alloc));
    ended_on(rt, alloc, row.0, &mut source, sink)
}

/// A call on an input in pieces of so many bytes ends as its row says, and has written what is due.
fn must_serve<R: Abort>(rt: &R, alloc: Global, row: &Row, piece: usize)
    requires { 1 ≤ piece }
{
    let room = 1_048_576;
    let mut sink = MemSink::new(alloc, room, piece, Vec::new(alloc)).expect(rt, "memory");
    let ended = ended(rt, alloc, row, piece, &mut sink);
    holds(rt, (row.0, piece, ended), ended == row.2);
    let due = joined(rt, alloc, row.3);
    let right = sink.bytes() == due.as_slice();
    holds(rt, (row.0, piece, "written"), right);
}

fn must_serve_in_pieces<R: Abort>(rt: &R, alloc: Global, row: &Row) {
    must_serve(rt, alloc, row, 1);
    must_serve(rt, alloc, row, 7);
    must_serve(rt, alloc, row, 100);
}

#[test]
fn each_node_answers_its_stream(rt: HostRuntime) {
    for row in ROWS {
        must_serve_in_pieces(&rt, rt.alloc(), row);
    }
}
