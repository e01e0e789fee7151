//! Tests of the service of a stream: answers in pieces of each size, and faults at each call.

ghost use Rattle.std.specs.Prelude.{◌≡◌, ◌+◌, ◌≤◌, [], length};

use crate::same::same;
use crate::shared::may_be_shared;
use pm_io::{MemSink, MemSource, SystemMemory, Wire};
use pm_wire::{
    DecodeFault, Decoder, Frame, FrameDecoder, Reply, Served, Server, frames_given_are_those_fed,
    serve, serve_peer, the_greatest_number_counts,
};
use std::alloc::Global;
use std::process::Abort;

/// What is served, how the service ends, and what is answered.
type Wanted<'a> = (&'a str, Served, &'a [u8]);

/// Serves the source, and compares how it ends and what the sink has then.
fn served_is<R: Abort>(
    rt: &R,
    alloc: Global,
    source: &mut MemSource,
    sink: &mut MemSink,
    wanted: Wanted<'_>,
) {
    let (case, due, answers) = wanted;
    let ended = serve(alloc, source, sink);
    same(rt, case, (ended, sink.bytes()), (due, answers));
}

/// Serves the input in pieces of so many bytes, and compares how it ends and what is answered.
fn serves_in_pieces<R: Abort>(rt: &R, alloc: Global, chunk: usize, input: &[u8], wanted: Wanted<'_>)
    requires { 1 ≤ chunk }
{
    let input = input.to_vec(alloc).expect(rt, "memory");
    let mut source = MemSource::new(input, chunk, Vec::new(alloc));
    let mut sink = sink_of(rt, alloc, chunk);
    served_is(rt, alloc, &mut source, &mut sink, wanted);
}

/// A sink with room for all, which takes pieces of so many bytes.
pub(crate) fn sink_of<R: Abort>(rt: &R, alloc: Global, chunk: usize) -> MemSink
    requires { 1 ≤ chunk }
    ensures { result.held ≡ [] }
{
    MemSink::new(alloc, 1_048_576, chunk, Vec::new(alloc)).expect(rt, "memory")
}

/// Serves the input in pieces of 1, 7 and 100 bytes.
fn serves<R: Abort>(rt: &R, alloc: Global, input: &[u8], wanted: Wanted<'_>) {
    serves_in_pieces(rt, alloc, 1, input, wanted);
    serves_in_pieces(rt, alloc, 7, input, wanted);
    serves_in_pieces(rt, alloc, 100, input, wanted);
}

/// Hello of two steps: prices 0 and 9.
const HELLO: [u8; 11] = [1, 0, 0, 0, 0, 0, 0, 0, 9, 0, 2];

/// A bid of child 1 under number 1: 5 watts at step 0, and -3 at step 1.
const BID: [u8; 15] = [2, 0, 1, 0, 0, 0, 1, 0, 0, 0, 5, 255, 255, 255, 253];

/// The input of these parts.
pub(crate) fn input_of<R: Abort>(rt: &R, alloc: Global, parts: &[&[u8]]) -> Vec<u8> {
    let mut input = Vec::new(alloc);
    for part in parts {
        input.extend_from_slice(part).expect(rt, "memory");
    }
    input
}

/// The price of the first clearing, and that of the second one.
const PRICE: [u8; 13] = [5, 0, 1, 0, 0, 0, 1, 0, 0, 0, 1, 0, 1];

const SECOND: [u8; 13] = [5, 0, 1, 0, 0, 0, 1, 0, 0, 0, 2, 0, 1];

/// What an input shows, its parts, how the service of it ends, and the parts of the answers.
pub(crate) type Stream = (
    &'static str,
    &'static [&'static [u8]],
    Served,
    &'static [&'static [u8]],
);

pub(crate) const STREAMS: &[Stream] = &[
    (
        "a second clearing finds nothing changed",
        &[&HELLO, &BID, &[4, 4]],
        Served::Done,
        &[&PRICE, &[6]],
    ),
    (
        "an end within a frame is refused",
        &[&HELLO, &[2, 0]],
        Served::Refused,
        &[&[8, 0, 0, 0, 0, 0, 0, 0, 11]],
    ),
    ("an empty input has no answer", &[], Served::Done, &[]),
    (
        "a bid that comes again is old, and a child that is gone gets no price",
        &[&HELLO, &BID, &BID, &[3, 0, 2, 0, 0, 0, 7, 4]],
        Served::Done,
        &[&[7, 0, 1, 0, 0, 0, 1], &PRICE],
    ),
    (
        "a child that goes is a change, also where it moves no sum; a frame of an unknown kind is bad",
        &[&HELLO, &BID, &[4], &[3, 0, 2, 0, 0, 0, 8], &[4], &[9]],
        Served::Refused,
        &[&PRICE, &SECOND, &[8, 0, 0, 0, 0, 0, 0, 0, 35]],
    ),
];

fn is_served<R: Abort>(rt: &R, alloc: Global, stream: &Stream) {
    let input = input_of(rt, alloc, stream.1);
    let answers = input_of(rt, alloc, stream.3);
    serves(rt, alloc, &input, (stream.0, stream.2, &answers));
}

#[test]
fn streams_have_their_answers(rt: HostRuntime) {
    for stream in STREAMS {
        is_served(&rt, rt.alloc(), stream);
    }
}

/// Serves four clearings of one bid, while the reads and the writes of these numbers fail.
fn serves_with_faults<R: Abort>(
    rt: &R,
    alloc: Global,
    bad_reads: &[u64],
    bad_writes: &[u64],
    wanted: Wanted<'_>,
) {
    let input = input_of(rt, alloc, &[&HELLO, &BID, &[4, 4, 4, 4]]);
    let bad_reads = bad_reads.to_vec(alloc).expect(rt, "memory");
    let bad_writes = bad_writes.to_vec(alloc).expect(rt, "memory");
    let mut source = MemSource::new(input, 27, bad_reads);
    let mut sink = MemSink::new(alloc, 100, 100, bad_writes).expect(rt, "memory");
    served_is(rt, alloc, &mut source, &mut sink, wanted);
}

/// What is answered before the third read: the price, and that nothing changed since.
const BEFORE_THE_THIRD: &[u8] = &[5, 0, 1, 0, 0, 0, 1, 0, 0, 0, 1, 0, 1, 6, 6, 6];

#[test]
fn a_source_that_fails_ends_the_service(rt: HostRuntime) {
    let wanted = ("the third read", Served::ReadFault, BEFORE_THE_THIRD);
    serves_with_faults(&rt, rt.alloc(), &[3], &[], wanted);
}

#[test]
fn a_sink_that_fails_ends_the_service(rt: HostRuntime) {
    let wanted = ("the second write", Served::WriteFault, PRICE.as_slice());
    serves_with_faults(&rt, rt.alloc(), &[], &[2], wanted);
}

/// The kind of a frame, with the child and the number of a bid.
fn kind_of(frame: Frame) -> (u8, u16, u32) {
    match frame {
        Frame::Hello { .. } => (1, 0, 0),
        Frame::Bid { child, number, .. } => (2, child, number),
        Frame::Gone { child, number } => (3, child, number),
        Frame::Clear => (4, 0, 0),
    }
}

/// The kind of the next frame.
fn next_kind(decoder: &mut Decoder) -> Result<Option<(u8, u16, u32)>, DecodeFault>
    requires { decoder.old.offset + length decoder.old.rest ≤ 4294967296 }
    ensures { decoder.new.offset + length decoder.new.rest
        ≡ decoder.old.offset + length decoder.old.rest }
{
    match decoder.next() {
        Ok(Some(frame)) => Ok(Some(kind_of(frame))),
        Ok(None) => Ok(None),
        Err(DecodeFault::Bad { at }) => Err(DecodeFault::Bad { at }),
        Err(DecodeFault::NoMemory) => Err(DecodeFault::NoMemory),
    }
}

/// The frames are a hello, a bid, a clearing and a bad one, which stays bad.
fn frames_are<R: Abort>(rt: &R, decoder: &mut Decoder)
    requires { decoder.old.offset + length decoder.old.rest ≤ 28 }
{
    same(rt, "hello", next_kind(decoder), Ok(Some((1, 0, 0))));
    same(rt, "bid", next_kind(decoder), Ok(Some((2, 1, 1))));
    same(rt, "clear", next_kind(decoder), Ok(Some((4, 0, 0))));
    same(rt, "rest", decoder.rest(), 1);
    let bad = Err(DecodeFault::Bad { at: 27 });
    same(rt, "bad", next_kind(decoder), bad);
    decoder.feed(&[4]).expect(rt, "memory");
    same(rt, "still bad", next_kind(decoder), bad);
}

/// Pieces of any size give the frames, and the bytes of frames given are let go.
#[test]
fn frames_come_in_pieces(rt: HostRuntime) {
    let mut decoder = Decoder::new(rt.alloc());
    decoder.feed(&HELLO).expect(&rt, "memory");
    decoder.feed(&BID).expect(&rt, "memory");
    decoder.feed(&[4, 9]).expect(&rt, "memory");
    same(&rt, "rest", decoder.rest(), 28);
    frames_are(&rt, &mut decoder);
}

/// Serves a source by the service of any frames into a buffer of one byte.
fn served_by_bytes(alloc: Global, source: &mut MemSource, sink: &mut MemSink) -> Served {
    let mut server = Server::new(alloc);
    let mut memory = SystemMemory::new(alloc);
    serve_peer::<Frame, Server, Wire<'_, MemSource, MemSink>, SystemMemory>(
        alloc,
        &mut memory,
        &mut Wire { source, sink },
        None,
        &mut server,
        &mut [0u8; 1],
    )
}

/// The service of any frames, one byte at a time, answers a stream.
fn serves_by_bytes<R: Abort>(rt: &R, alloc: Global, stream: &Stream) {
    let input = input_of(rt, alloc, stream.1);
    let mut source = MemSource::new(input, 1, Vec::new(alloc));
    let mut sink = sink_of(rt, alloc, 1);
    let ended = served_by_bytes(alloc, &mut source, &mut sink);
    let answers = input_of(rt, alloc, stream.3);
    let have = (ended, sink.bytes());
    same(rt, stream.0, have, (stream.2, answers.as_slice()));
}

/// The service of any frames answers bids as that of bids does, from the place before Hello on.
#[test]
fn the_service_of_any_frames_serves_bids(rt: HostRuntime) {
    for stream in STREAMS {
        serves_by_bytes(&rt, rt.alloc(), stream);
    }
}

/// A decoder may begin behind a Hello of two steps: its first frame is then a bid, and its offset counts from there.
#[test]
fn a_decoder_begins_at_a_place(rt: HostRuntime) {
    frames_given_are_those_fed::<Frame>();
    the_greatest_number_counts();
    let mut decoder = FrameDecoder::<Frame>::at(rt.alloc(), Some(2));
    decoder.feed(&BID).expect(&rt, "memory");
    decoder.feed(&HELLO).expect(&rt, "memory");
    same(&rt, "bid", next_kind(&mut decoder), Ok(Some((2, 1, 1))));
    let bad = Err(DecodeFault::Bad { at: 15 });
    same(&rt, "hello", next_kind(&mut decoder), bad);
}

/// The types of the crate may be sent to threads and shared by them: it is proved here.
#[test]
fn all_may_be_shared() {
    may_be_shared::<(Frame, Reply, Served, DecodeFault)>();
    may_be_shared::<(Decoder, Server)>();
}
