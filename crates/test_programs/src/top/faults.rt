//! Each command in pieces of several sizes, with reads and writes of which each fails in turn, and with its input cut.
//!
//! No other program is asked what is due: the call that nothing disturbs says it.

use super::{Around, FEEDER, Outcome, STREAM, TWO_BIDS, called, envelope, is_legal};
use crate::holds::holds;
use pm_nodes::OpenGate;
use pm_top::Status;
use std::alloc::Global;
use std::process::Abort;
use std::sync::Wait;
use std::thread::Threads;

/// A call: its arguments, a file, and what stands behind the file if it is in an envelope.
type Case = (&'static str, &'static str, Option<&'static str>);

/// Three targets of `ask`.
const TARGETS: &str = "0\n100\n-60\n";

/// A trace of the two manual bids, and what makes it end too early.
const TRACE: &str = "phase 1 price 4 step 4 total -50 members 2\n\
    member load1 power 100 bid 1\n\
    member gen1 power -150 bid 1\n\
    end phases 1 changes 2\n\
    change load1 1\n\
    change gen1 1\n\
    learn auctioneer load1 1\n\
    learn auctioneer gen1 1\n\
    clear 1\n\
    pass load1 1 price 4 bid 1\n\
    pass gen1 1 price 4 bid 1\n\
    close 1\n\
    moves 8\n";

/// A stream of bids whose second frame has no kind.
const BROKEN: &str = "\x01\0\0\0\0\0\0\0\x01\0\x02\x63";

const CASES: &[Case] = &[
    ("run", TWO_BIDS, None),
    ("trace", TWO_BIDS, None),
    ("bill", TWO_BIDS, None),
    ("free", TWO_BIDS, None),
    ("ask", TWO_BIDS, Some(TARGETS)),
    ("check", TWO_BIDS, Some(TRACE)),
    ("check", TWO_BIDS, Some("")),
    ("serve", STREAM, None),
    ("serve", BROKEN, None),
    ("demo 7 3", "", None),
    ("run", "{", None),
    ("", "", None),
];

/// Runs below a limit.
const LIMITED: &[Case] = &[("run", FEEDER, None), ("free", FEEDER, None)];

/// About how many calls of one kind, and lengths, are tried at most.
const MOST: u64 = 64;

/// How many bytes a read gives and a write takes at most.
const PIECES: &[usize] = &[1, 7, usize::MAX];

/// Whether a call or a length is tried, if the last one is this. If they are many, some are left out between the ends.
fn is_tried(number: u64, last: u64) -> bool {
    number <= 1 || number.saturating_add(1) >= last || number % (1 + last / MOST) == 0
}

/// A command with its input, and what a call that nothing disturbs comes to; of a trace, what `run` comes to.
#[derive(Clone, Copy)]
struct Call<'a> {
    line: &'a str,
    input: &'a [u8],
    due: &'a Outcome,
}

impl Call<'_> {
    /// Whether moves follow the text that is due.
    fn has_moves(&self) -> bool {
        self.line == "trace" && self.due.status == Status::Done
    }

    /// Whether an outcome is the one due. Behind a report of a trace stand moves.
    fn is_due(&self, outcome: &Outcome) -> bool {
        outcome.status == self.due.status
            && outcome.text.starts_with(&self.due.text)
            && (self.has_moves() || outcome.text.len() == self.due.text.len())
    }

    /// Whether the text of a call whose read failed is right: there is none, but of a stream a part of the one due.
    fn is_left_by_a_read(&self, text: &[u8]) -> bool {
        text.is_empty() || self.line == "serve" && self.due.text.starts_with(text)
    }

    /// Whether the text of a call whose write failed is right: it is a proper part of the one due.
    fn is_left_by_a_write(&self, text: &[u8]) -> bool {
        let whole = self.due.text.as_slice();
        if self.has_moves() {
            whole.starts_with(text) || text.starts_with(whole)
        } else {
            text.len() < whole.len() && whole.starts_with(text)
        }
    }

    /// Whether an outcome is right. No call follows the one that fails. If so many are not made, the outcome is the one due.
    fn is_right(&self, outcome: &Outcome, around: Around) -> bool {
        let text = outcome.text.as_slice();
        if around.bad_read != 0 && outcome.reads >= around.bad_read {
            (outcome.status, outcome.reads) == (Status::ReadFault, around.bad_read)
                && self.is_left_by_a_read(text)
        } else if around.bad_write != 0 && outcome.writes >= around.bad_write {
            (outcome.status, outcome.writes) == (Status::WriteFault, around.bad_write)
                && self.is_left_by_a_write(text)
        } else {
            self.is_due(outcome)
        }
    }
}

/// The outcome is right in these surroundings.
fn must_be_right<R: Threads + Wait + Sync + Abort>(
    rt: &R,
    alloc: Global,
    call: &Call<'_>,
    outcome: &Outcome,
    around: Around,
) {
    let case = (call.line, call.input.len(), around);
    holds(rt, case, call.is_right(outcome, around));
    if call.has_moves() && outcome.status == Status::Done {
        holds(rt, case, is_legal(rt, alloc, call.input, &outcome.text));
    }
}

/// The command comes to what is right in these surroundings. Gives how often it read and wrote.
fn must_come_right<R: Threads + Wait + Sync + Abort>(
    rt: &R,
    alloc: Global,
    call: &Call<'_>,
    around: Around,
) -> (u64, u64) {
    let outcome = called(rt, alloc, call.line, call.input, around, &OpenGate);
    must_be_right(rt, alloc, call, &outcome, around);
    (outcome.reads, outcome.writes)
}

/// The command stands each of so many reads that fails, and one more, which is not made.
fn must_stand_reads<R: Threads + Wait + Sync + Abort>(
    rt: &R,
    alloc: Global,
    call: &Call<'_>,
    whole: Around,
    reads: u64,
) {
    for before in 0..reads.saturating_add(1) {
        if is_tried(before, reads) {
            must_come_right(rt, alloc, call, whole.without_read(before + 1));
        }
    }
}

/// The same for writes.
fn must_stand_writes<R: Threads + Wait + Sync + Abort>(
    rt: &R,
    alloc: Global,
    call: &Call<'_>,
    whole: Around,
    writes: u64,
) {
    for before in 0..writes.saturating_add(1) {
        if is_tried(before, writes) {
            must_come_right(rt, alloc, call, whole.without_write(before + 1));
        }
    }
}

/// The command stands each read and each write that fails, in pieces of one size.
fn must_stand_faults<R: Threads + Wait + Sync + Abort>(
    rt: &R,
    alloc: Global,
    call: &Call<'_>,
    piece: usize,
) {
    let whole = Around::pieces(piece);
    let (reads, writes) = must_come_right(rt, alloc, call, whole);
    must_stand_reads(rt, alloc, call, whole, reads);
    must_stand_writes(rt, alloc, call, whole, writes);
}

/// The command whose text says what is due of a command.
fn line_due(line: &str) -> &str {
    match line {
        "trace" => "run",
        _ => line,
    }
}

/// What a call that nothing disturbs comes to. It is no fault.
fn due_of<R: Threads + Wait + Sync + Abort>(
    rt: &R,
    alloc: Global,
    line: &str,
    input: &[u8],
) -> Outcome {
    let whole = Around::pieces(usize::MAX);
    let due = called(rt, alloc, line_due(line), input, whole, &OpenGate);
    let is_fault = matches!(
        due.status,
        Status::ReadFault | Status::WriteFault | Status::NoMemory
    );
    holds(rt, line, !is_fault);
    due
}

/// The command comes to what is right in pieces of each size.
fn must_come_right_in_pieces<R: Threads + Wait + Sync + Abort>(
    rt: &R,
    alloc: Global,
    call: &Call<'_>,
) {
    for piece in PIECES {
        must_come_right(rt, alloc, call, Around::pieces(*piece));
    }
}

/// An input that is cut has one outcome in pieces of each size.
fn must_stand_cut<R: Threads + Wait + Sync + Abort>(
    rt: &R,
    alloc: Global,
    line: &str,
    input: &[u8],
) {
    let due = &due_of(rt, alloc, line, input);
    must_come_right_in_pieces(rt, alloc, &Call { line, input, due });
}

/// The command stands each fault in pieces of each size.
fn must_stand_faults_in_pieces<R: Threads + Wait + Sync + Abort>(
    rt: &R,
    alloc: Global,
    call: &Call<'_>,
) {
    for piece in PIECES {
        must_stand_faults(rt, alloc, call, *piece);
    }
}

/// The command stands each fault on its whole input.
fn must_stand_whole<R: Threads + Wait + Sync + Abort>(
    rt: &R,
    alloc: Global,
    line: &str,
    input: &[u8],
) {
    let due = &due_of(rt, alloc, line, input);
    must_stand_faults_in_pieces(rt, alloc, &Call { line, input, due });
}

/// The command stands each fault, and each cut of its input.
fn must_stand<R: Threads + Wait + Sync + Abort>(rt: &R, alloc: Global, line: &str, input: &[u8]) {
    must_stand_whole(rt, alloc, line, input);
    let whole = input.len();
    for length in 0..whole {
        if is_tried(length as u64, whole as u64) {
            must_stand_cut(rt, alloc, line, &input[..length]);
        }
    }
}

/// A command stands all that on its file, which is in an envelope if something stands behind it.
fn must_stand_case<R: Threads + Wait + Sync + Abort>(rt: &R, alloc: Global, case: &Case) {
    match case.2 {
        Some(rest) => {
            let input = envelope(rt, alloc, case.1, rest);
            must_stand(rt, alloc, case.0, input.as_bytes());
        }
        None => must_stand(rt, alloc, case.0, case.1.as_bytes()),
    }
}

#[test]
fn each_command_stands_each_fault(rt: HostRuntime) {
    for case in CASES {
        must_stand_case(&rt, rt.alloc(), case);
    }
}

#[test]
fn runs_below_a_limit_stand_each_fault(rt: HostRuntime) {
    for case in LIMITED {
        must_stand_case(&rt, rt.alloc(), case);
    }
}
