//! Memory that refuses a request: the service of a stream of bids ends for want of it, wherever it asks.

ghost use Rattle.std.specs.Prelude.{◌≡◌, ◌≤◌};
ghost use Rattle.pm_io.specs.Causes.{Rose};

use crate::same::same;
use crate::wire::{STREAMS, Stream, input_of, sink_of};
use pm_io::{MemSink, MemSource, Memory, Wire};
use pm_wire::{Served, serve_market};
use std::alloc::{AllocError, Global};
use std::process::Abort;

/// Memory of the system that refuses the request of one number, from 1.
#[derive(Drop)]
struct Scarce {
    alloc: Global,
    asked: u64,
    refused: u64,
    refusals: u64,
}

impl Scarce {
    /// Counts a refusal.
    fn refuse(&mut self) -> AllocError
        ensures later { self.old.refusals ≤ self.new.refusals }
        ensures rose { Rose self.old.refusals self.new.refusals }
    {
        self.refusals = self.refusals.saturating_add(1);
        AllocError
    }

    /// Counts a request, and tells whether it is the one that is refused.
    fn is_refused(&mut self) -> bool
        ensures { self.new.refusals ≡ self.old.refusals }
    {
        self.asked = self.asked.saturating_add(1);
        self.asked == self.refused
    }
}

impl Memory for Scarce {
    ghost refusals = { λ memory. memory.refusals };

    fn list<T>(&mut self, room: usize) -> Result<Vec<T>, AllocError> {
        if self.is_refused() {
            return Err(self.refuse());
        }
        match Vec::with_capacity(self.alloc, room) {
            Ok(list) => Ok(list),
            Err(_) => Err(self.refuse()),
        }
    }

    fn reserve<T>(&mut self, list: &mut Vec<T>, more: usize) -> Result<(), AllocError> {
        if self.is_refused() {
            return Err(self.refuse());
        }
        match list.reserve(more) {
            Ok(()) => Ok(()),
            Err(_) => Err(self.refuse()),
        }
    }
}

/// How a service ends whose memory refused so many requests, if it ends so with all of them.
fn due_with(refusals: u64, ended: Served) -> Served {
    if refusals == 0 {
        ended
    } else {
        Served::NoMemory
    }
}

/// Serves a source with memory that refuses the request of this number; and how often it refused.
fn served_scarcely(
    alloc: Global,
    refused: u64,
    source: &mut MemSource,
    sink: &mut MemSink,
) -> (Served, u64) {
    let mut memory = Scarce {
        alloc,
        asked: 0,
        refused,
        refusals: 0,
    };
    let have = serve_market(alloc, &mut memory, &mut Wire { source, sink });
    (have, memory.refusals)
}

/// Serves the input in pieces of 7 bytes, with memory that refuses the request of this number: a refusal ends it, with a beginning of
/// the answers, and nothing else does.
fn serves_scarcely<R: Abort>(
    rt: &R,
    alloc: Global,
    refused: u64,
    input: &[u8],
    wanted: (&str, Served, &[u8]),
) -> u64 {
    let input = input.to_vec(alloc).expect(rt, "memory");
    let mut source = MemSource::new(input, 7, Vec::new(alloc));
    let mut sink = sink_of(rt, alloc, 7);
    let (have, refusals) = served_scarcely(alloc, refused, &mut source, &mut sink);
    let case = (wanted.0, refused);
    same(rt, case, have, due_with(refusals, wanted.1));
    same(rt, case, wanted.2.starts_with(sink.bytes()), true);
    refusals
}

/// A stream is served while each of its first requests is refused in turn.
fn stream_is_served<R: Abort>(rt: &R, alloc: Global, stream: &Stream) {
    let input = input_of(rt, alloc, stream.1);
    let answers = input_of(rt, alloc, stream.3);
    for refused in 1..=24 {
        serves_scarcely(rt, alloc, refused, &input, (stream.0, stream.2, &answers));
    }
}

#[test]
fn each_refusal_ends_the_service(rt: HostRuntime) {
    for stream in STREAMS {
        stream_is_served(&rt, rt.alloc(), stream);
    }
}

/// The first request, for the first piece, is refused: nothing is answered.
#[test]
fn the_first_refusal_ends_the_service(rt: HostRuntime) {
    let wanted = ("a part of Hello", Served::Refused, b"".as_slice());
    let refusals = serves_scarcely(&rt, rt.alloc(), 1, &[1, 0, 0], wanted);
    same(&rt, "refusals", refusals, 1);
}
