//! Tests of the whole program: each command, a fault at each read and write, and threads that gates hold back.

use crate::holds::holds;
use counted::Counted;
use pm_io::{MemSink, MemSource};
use pm_nodes::{Gate, OpenGate};
use pm_top::{Status, market};
use std::alloc::Global;
use std::process::Abort;
use std::str::from_utf8;
use std::sync::Wait;
use std::thread::Threads;

mod counted;
mod faults;
mod gates;
mod meeting;
mod village;

/// A manual load of 100 watts, and a manual generator of 150 watts from price 4 on.
const TWO_BIDS: &str =
    r#"{"version":1,"basis":{"min":0,"max":9,"steps":10},"nodes":[{"name":"load1","kind":"manual","parent":"auctioneer","demand":[100,100,100,100,100,100,100,100,100,100]},{"name":"gen1","kind":"manual","parent":"auctioneer","demand":[0,0,0,0,-150,-150,-150,-150,-150,-150]}],"phases":[{"events":[{"join":"load1"},{"join":"gen1"}]}]}"#;

/// Its text, of 124 bytes.
const TWO_BIDS_TEXT: &str =
    "phase 1 price 4 step 4 total -50 members 2\nmember load1 power 100 bid 1\nmember gen1 power -150 bid 1\nend phases 1 changes 2\n";

/// A feeder of 5 kilowatts with a house and two cars, beside a wind turbine.
const FEEDER: &str = r#"{"version":2,"basis":{"min":0,"max":90,"steps":10},
"nodes":[
{"name":"feeder","kind":"limited","parent":"auctioneer","floor":-5000,"ceiling":5000},
{"name":"house","kind":"load","parent":"feeder","start":2000},
{"name":"car1","kind":"manual","parent":"feeder","points":[[0,3700],[90,0]]},
{"name":"car2","kind":"manual","parent":"feeder","points":[[0,3700],[90,0]]},
{"name":"wind","kind":"solar","parent":"auctioneer","start":20000}],
"phases":[
{"events":[{"join":"house"},{"join":"wind"}]},
{"events":[{"join":"car1"},{"join":"car2"}]},
{"events":[{"leave":"house"}]}]}"#;

const USAGE: &str =
    "usage: market run | market trace | market demo SIZE NUMBER | market check | market bill | market serve | market ask | market free\n";

const REFUSED: &str = "refused 1 document\n";

const NO_ENVELOPE: &str = "refused 23 document\n";

/// The frames of a basis of the prices 0 and 1, of bid 1 of child 1, and of a clearing. The bid takes 1 watt at price 0.
const STREAM: &str = "\x01\0\0\0\0\0\0\0\x01\0\x02\x02\0\x01\0\0\0\x01\0\0\0\x01\0\0\0\0\x04";

/// The price for the child: its bid 1, clearing 1, step 1.
const PRICE: &str = "\x05\0\x01\0\0\0\x01\0\0\0\x01\0\x01";

/// The fault of a first frame.
const FAULT: &str = "\x08\0\0\0\0\0\0\0\0";

/// The words of a line, as arguments.
fn arguments_of<R: Abort>(rt: &R, alloc: Global, line: &str) -> Vec<String> {
    let mut arguments = Vec::new(alloc);
    for argument in line.split_whitespace() {
        let argument = String::from_str(alloc, argument).expect(rt, "memory");
        arguments.push(argument).expect(rt, "memory");
    }
    arguments
}

/// What surrounds a call: how many bytes a read gives and a write takes at most, and the read and the write that fail, by their
/// numbers; 0 if none does.
#[derive(Clone, Copy, Debug)]
struct Around {
    read: usize,
    write: usize,
    bad_read: u64,
    bad_write: u64,
}

impl Around {
    /// Pieces of one size, and no fault.
    fn pieces(piece: usize) -> Around {
        Around {
            read: piece,
            write: piece,
            bad_read: 0,
            bad_write: 0,
        }
    }

    /// The read of this number fails.
    fn without_read(self, bad_read: u64) -> Around {
        Around { bad_read, ..self }
    }

    /// The write of this number fails.
    fn without_write(self, bad_write: u64) -> Around {
        Around { bad_write, ..self }
    }
}

/// Reads of 100 bytes and writes of 50 at most, and no fault.
const PIECES: Around = Around {
    read: 100,
    write: 50,
    bad_read: 0,
    bad_write: 0,
};

/// What a call comes to: its status, what the sink holds afterwards, and how often it read and wrote.
#[derive(Drop)]
struct Outcome {
    status: Status,
    text: Vec<u8>,
    reads: u64,
    writes: u64,
}

/// A source of these bytes.
fn source_of<R: Abort>(rt: &R, alloc: Global, input: &[u8], around: Around) -> Counted<MemSource> {
    let fails = Vec::from_array(alloc, [around.bad_read]).expect(rt, "memory");
    let input = input.to_vec(alloc).expect(rt, "memory");
    Counted::new(MemSource::new(input, around.read.max(1), fails))
}

/// A sink that holds nothing so far.
fn sink_of<R: Abort>(rt: &R, alloc: Global, around: Around) -> Counted<MemSink> {
    let fails = Vec::from_array(alloc, [around.bad_write]).expect(rt, "memory");
    let sink = MemSink::new(alloc, 1_048_576, around.write.max(1), fails);
    Counted::new(sink.expect(rt, "memory"))
}

/// The status of the call of these arguments.
fn status_of<R: Threads + Wait + Sync + Abort, G: Gate>(
    rt: &R,
    alloc: Global,
    line: &str,
    source: &mut Counted<MemSource>,
    sink: &mut Counted<MemSink>,
    gate: &G,
) -> Status {
    market(
        rt,
        alloc,
        &arguments_of(rt, alloc, line),
        source,
        sink,
        gate,
    )
}

/// What the call of these arguments comes to.
fn called<R: Threads + Wait + Sync + Abort, G: Gate>(
    rt: &R,
    alloc: Global,
    line: &str,
    input: &[u8],
    around: Around,
    gate: &G,
) -> Outcome {
    let mut source = source_of(rt, alloc, input, around);
    let mut sink = sink_of(rt, alloc, around);
    let status = status_of(rt, alloc, line, &mut source, &mut sink, gate);
    Outcome {
        status,
        text: sink.inner.bytes().to_vec(alloc).expect(rt, "memory"),
        reads: source.calls,
        writes: sink.calls,
    }
}

/// A file in an envelope, with this behind it.
fn envelope<R: Abort>(rt: &R, alloc: Global, file: &str, rest: &str) -> String {
    let length = file.len();
    format!(in alloc; "{length}\n{file}{rest}").expect(rt, "memory")
}

/// A trace of a file in an envelope.
fn envelope_of<R: Abort>(rt: &R, alloc: Global, file: &[u8], trace: &[u8]) -> String {
    let file = from_utf8(file).expect(rt, "a text");
    envelope(rt, alloc, file, from_utf8(trace).expect(rt, "a text"))
}

/// Whether an outcome of `check` is that a trace is valid, with the number of moves that its last line tells.
fn is_valid(judged: &Outcome, trace: &[u8]) -> bool {
    match judged.text.strip_prefix(b"valid ") {
        Some(moves) => judged.status == Status::Done && trace.ends_with(moves),
        None => false,
    }
}

/// Whether `check` finds a trace of a file so.
fn is_legal<R: Threads + Wait + Sync + Abort>(
    rt: &R,
    alloc: Global,
    file: &[u8],
    trace: &[u8],
) -> bool {
    let input = envelope_of(rt, alloc, file, trace);
    let judged = called(rt, alloc, "check", input.as_bytes(), PIECES, &OpenGate);
    is_valid(&judged, trace)
}

/// A call: its arguments, its input, the read and the write that fail, or 0 if none does, and what it answers and writes.
type Row = (&'static str, &'static str, u64, u64, Status, &'static str);

/// A fault of the source or the sink at each of their calls. The file has 326 bytes, so a run without faults reads five times;
/// its text has 124 bytes, so it writes three times. A service of the stream reads twice and writes once.
const ROWS: &[Row] = &[
    ("run", TWO_BIDS, 0, 0, Status::Done, TWO_BIDS_TEXT),
    ("run", TWO_BIDS, 1, 0, Status::ReadFault, ""),
    ("run", TWO_BIDS, 2, 0, Status::ReadFault, ""),
    ("run", TWO_BIDS, 3, 0, Status::ReadFault, ""),
    ("run", TWO_BIDS, 4, 0, Status::ReadFault, ""),
    ("run", TWO_BIDS, 5, 0, Status::ReadFault, ""),
    ("run", TWO_BIDS, 6, 4, Status::Done, TWO_BIDS_TEXT),
    ("run", TWO_BIDS, 0, 1, Status::WriteFault, TWO_BIDS_TEXT),
    ("run", TWO_BIDS, 0, 2, Status::WriteFault, TWO_BIDS_TEXT),
    ("run", TWO_BIDS, 0, 3, Status::WriteFault, TWO_BIDS_TEXT),
    ("run", "{", 0, 0, Status::Refused, REFUSED),
    ("run", "{", 0, 1, Status::WriteFault, REFUSED),
    ("free", TWO_BIDS, 0, 0, Status::Done, TWO_BIDS_TEXT),
    ("free", TWO_BIDS, 1, 0, Status::ReadFault, ""),
    ("free", TWO_BIDS, 0, 1, Status::WriteFault, TWO_BIDS_TEXT),
    ("check", TWO_BIDS, 0, 0, Status::Refused, NO_ENVELOPE),
    ("serve", STREAM, 0, 0, Status::Done, PRICE),
    ("serve", STREAM, 1, 0, Status::ReadFault, ""),
    ("serve", STREAM, 2, 0, Status::ReadFault, PRICE),
    ("serve", STREAM, 0, 1, Status::WriteFault, PRICE),
    ("serve", "run", 0, 0, Status::Refused, FAULT),
    ("run now", TWO_BIDS, 1, 0, Status::Usage, USAGE),
    ("run now", TWO_BIDS, 1, 1, Status::WriteFault, USAGE),
];

/// A call comes to the status of its row, and has written the text, or a part of it if a write failed.
fn must_be_of<R: Abort>(rt: &R, outcome: &Outcome, row: &Row) {
    let (line, _, bad_read, bad_write, status, text) = *row;
    let case = (line, bad_read, bad_write, outcome.status);
    let is_begun = text.as_bytes().starts_with(&outcome.text);
    let is_whole = outcome.text.len() == text.len();
    holds(rt, case, outcome.status == status && is_begun);
    let right = is_whole == (status != Status::WriteFault);
    holds(rt, (case, "whole"), right);
}

/// A call answers as its row says.
fn must_answer<R: Threads + Wait + Sync + Abort>(rt: &R, alloc: Global, row: &Row) {
    let around = PIECES.without_read(row.2).without_write(row.3);
    let outcome = called(rt, alloc, row.0, row.1.as_bytes(), around, &OpenGate);
    must_be_of(rt, &outcome, row);
}

#[test]
fn each_fault_has_its_answer(rt: HostRuntime) {
    for row in ROWS {
        must_answer(&rt, rt.alloc(), row);
    }
}
