//! A peer that watches the service of a stream of bids: it asks for all that is due, at each read and at each write.

ghost use Rattle.std.specs.Prelude.{◌≡◌, [], Some};
ghost use Rattle.pm_io.specs.Memory.{numbers_up_to};
ghost use Rattle.test_parts.specs.Watching.{HasWhatIsDue, GetsWhatIsDue, SameBytes};

use crate::same::same;
use crate::wire::{STREAMS, Stream, input_of, sink_of};
use pm_io::{Failed, MemSink, MemSource, Peer, Sink, Source, SystemMemory};
use pm_wire::{Served, serve_market};
use std::alloc::Global;
use std::process::Abort;

/// A source and a sink in memory. It asks that all whole frames that the source gave are answered before it gives more, and that
/// the sink gets nothing but what is due for them.
#[derive(Drop)]
struct Watch {
    /// All bytes that the source has to give.
    bytes: Vec<u8>,
    source: MemSource,
    sink: MemSink,
}

impl Peer for Watch {
    ghost use Rattle.std.specs.Prelude.{◌≡◌, ◌+◌, Some, refl};
    ghost use Rattle.std.proofs.Common.{◌∙◌};
    ghost use Rattle.pm_io.specs.Memory.{numbers_up_to};

    ghost left = { λ watch. Some watch.source.left };

    ghost held = { λ watch. Some watch.sink.held };

    ghost read_faults = { λ watch. numbers_up_to watch.source.calls watch.source.fails };

    ghost write_faults = { λ watch. numbers_up_to watch.sink.calls watch.sink.fails + watch.sink.refused };

    ghost may_read = { λ watch. HasWhatIsDue watch.bytes.items watch.source.left watch.sink.held };

    ghost may_write = { λ watch piece.
        GetsWhatIsDue watch.bytes.items watch.source.left watch.sink.held piece };

    ghost becomes = { λ a b. SameBytes a.bytes.items b.bytes.items };

    ghost stays = { λ _. refl };

    ghost goes_on = { λ a b c p q. q ∙ p };

    fn read(&mut self, buf: &mut [u8]) -> Result<usize, Failed> {
        self.source.read(buf)
    }

    fn write(&mut self, bytes: &[u8]) -> Result<usize, Failed> {
        self.sink.write(bytes)
    }
}

/// Serves a peer that watches, which gave nothing and got nothing yet: all that it asks is met.
fn serve_watched(alloc: Global, watch: &mut Watch) -> Served
    requires fresh { watch.old.source.left ≡ watch.old.bytes.items }
    requires empty { watch.old.sink.held ≡ [] }
{
    let mut memory = SystemMemory::new(alloc);
    serve_market(alloc, &mut memory, watch)
}

/// A peer that asks at each moment for all that is due is served as any other, one byte a read and one a write.
fn peer_is_served<R: Abort>(rt: &R, alloc: Global, stream: &Stream) {
    let bytes = input_of(rt, alloc, stream.1);
    let left = bytes.clone().expect(rt, "memory");
    let mut watch = Watch {
        source: MemSource::new(left, 1, Vec::new(alloc)),
        bytes,
        sink: sink_of(rt, alloc, 1),
    };
    let ended = serve_watched(alloc, &mut watch);
    let answers = input_of(rt, alloc, stream.3);
    let have = (ended, watch.sink.bytes());
    same(rt, stream.0, have, (stream.2, answers.as_slice()));
}

#[test]
fn a_peer_that_watches_is_served(rt: HostRuntime) {
    for stream in STREAMS {
        peer_is_served(&rt, rt.alloc(), stream);
    }
}
