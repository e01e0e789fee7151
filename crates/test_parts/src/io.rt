//! Sources and sinks: over readers and writers of the system, of which no contract tells the bytes, and over memory.

use crate::same::same;
use pm_io::{
    Failed, MemSink, MemSource, ReadAllFault, Sink, Source, StdSink, StdSource, WriteFault,
    read_all, write_all,
};
use std::io;
use std::io::{ErrorKind, Read, Write};

/// What a source hands on of `balance` if three bytes are asked for at a time.
const PIECES: &[&[u8]] = &[b"bal", b"anc", b"e", b""];

/// The first bytes that a source hands on are those of the reader, and so are the next.
#[test]
fn the_bytes_are_those_of_the_reader(rt: HostRuntime) {
    let text = b"balance".as_slice();
    let mut source = StdSource::new(text);
    let mut piece = [0; 3];
    for bytes in PIECES {
        same(&rt, *bytes, source.read(&mut piece), Ok(bytes.len()));
        same(&rt, *bytes, piece.starts_with(*bytes), true);
    }
    let read = read_all(rt.alloc(), &mut StdSource::new(text), 10).expect(&rt, "bytes");
    same(&rt, "all", read.as_slice(), text);
}

/// The writer is handed the bytes of each piece, in the order of the calls.
#[test]
fn the_writer_gets_the_bytes(rt: HostRuntime) {
    let mut bytes = Vec::new(rt.alloc());
    let mut sink = StdSink::new(&mut bytes);
    same(&rt, "first", sink.write(b"bal"), Ok(3));
    same(&rt, "rest", write_all(&mut sink, b"ance"), Ok(()));
    same(&rt, "written", bytes.as_slice(), b"balance".as_slice());
}

/// A reader and writer whose second call fails, and whose fourth call takes nothing.
#[derive(Drop)]
struct Frail {
    calls: u8,
}

impl Frail {
    /// What the next call answers: 1 if nothing is wrong.
    fn answer(&mut self) -> io::Result<usize> {
        self.calls = self.calls.saturating_add(1);
        match self.calls {
            2 => Err(io::Error::from(ErrorKind::Other)),
            4 => Ok(0),
            _ => Ok(1),
        }
    }
}

impl Read for Frail {
    fn read(&mut self, buf: &mut [u8]) -> io::Result<usize> {
        Ok(self.answer()?.min(buf.len()))
    }
}

impl Write for Frail {
    fn write(&mut self, buf: &[u8]) -> io::Result<usize> {
        Ok(self.answer()?.min(buf.len()))
    }

    fn flush(&mut self) -> io::Result<()> {
        Ok(())
    }
}

/// What a frail reader answers call by call: an error is a fault, and nothing read is the end.
const READS: &[Result<usize, Failed>] = &[Ok(1), Err(Failed), Ok(1), Ok(0), Ok(1)];

#[test]
fn an_error_of_the_reader_is_a_fault(rt: HostRuntime) {
    let mut source = StdSource::new(Frail { calls: 0 });
    let mut piece = [0; 3];
    for answer in READS {
        same(&rt, *answer, source.read(&mut piece), *answer);
    }
    let read = read_all(rt.alloc(), &mut StdSource::new(Frail { calls: 0 }), 10);
    assert!(rt; matches!(read, Err(ReadAllFault::ReadFault)));
    let read = read_all(rt.alloc(), &mut StdSource::new(Frail { calls: 2 }), 10);
    assert!(rt; read.is_ok());
}

/// What a frail writer answers call by call. An error is a fault, and so is a write that takes nothing of a piece that is
/// not empty.
const WRITES: &[Result<usize, Failed>] = &[Ok(1), Err(Failed), Ok(1), Err(Failed), Ok(1)];

/// After how many calls a whole piece is written, and the answer.
const WHOLE_WRITES: &[(u8, Result<(), WriteFault>)] = &[
    (0, Err(WriteFault { written: 1 })),
    (2, Err(WriteFault { written: 1 })),
    (4, Ok(())),
];

#[test]
fn an_error_of_the_writer_is_a_fault(rt: HostRuntime) {
    let mut sink = StdSink::new(Frail { calls: 0 });
    for answer in WRITES {
        same(&rt, *answer, sink.write(b"abc"), *answer);
    }
    same(&rt, "empty", sink.write(b""), Ok(0));
    for (calls, answer) in WHOLE_WRITES {
        let mut sink = StdSink::new(Frail { calls: *calls });
        same(&rt, *calls, write_all(&mut sink, b"abc"), *answer);
    }
}

/// Bytes in memory are read in pieces, and written while there is room.
#[test]
fn memory_is_read_and_written(rt: HostRuntime) {
    let alloc = rt.alloc();
    let bytes = b"hello".to_vec(alloc).expect(&rt, "memory");
    let mut source = MemSource::new(bytes, 2, Vec::new(alloc));
    let read = read_all(alloc, &mut source, 5).expect(&rt, "bytes");
    same(&rt, "read", read.as_slice(), b"hello".as_slice());
    let mut sink = MemSink::new(alloc, 3, 2, Vec::new(alloc)).expect(&rt, "memory");
    let fault = Err(WriteFault { written: 3 });
    same(&rt, "full", write_all(&mut sink, b"hello"), fault);
    same(&rt, "written", sink.bytes(), b"hel".as_slice());
}
