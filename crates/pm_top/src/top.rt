//! The one call of the program: it reads the input, does the command and writes the answer.

ghost use Rattle.std.specs.Prelude.{◌≡◌, ◌<◌, ◌≤◌, ℕ, List, length, map, string_bytes, Some, IfSome, ◌≢◌, true};
ghost use Rattle.std.specs.Io.KnownBytes.{Appends};
ghost use Rattle.pm_io.specs.Causes.{Rose};
ghost use Rattle.pm_io.specs.Taken.{taken_bytes};
ghost use Rattle.pm_answer.specs.declared.arguments.FileCommand.{FileCommand};
ghost use Rattle.pm_answer.specs.Arguments.{command};
ghost use Rattle.pm_gen.specs.Demo.{is_size};
ghost use Rattle.pm_answer.specs.Inputs.{input_limit, HasStatus};
ghost use Rattle.pm_answer.specs.Answers.{IsSummary};
ghost use Rattle.pm_headline.specs.Promises.{TellsTheMarket, RefutesFile};
ghost use Rattle.pm_top.specs.Top.{too_long_line, WrotePrefix};
ghost use Rattle.pm_top.specs.Endings.{EndsUnlessUnwritten, EndsUnlessCutShort, EndsUnlessFailed, WroteItsText, WrotePartOfDue};
ghost use Rattle.pm_top.specs.Serving.{service_status, ServesBids};
ghost use Rattle.pm_top.specs.Ends.{FailsCleanly, EndsByCause, EndsWithoutFault};

use pm_answer::{Command, FileCommand, Status, answer_of, command_of, demo_of};
use pm_io::{ReadAllFault, Sink, Source, read_all, write_all};
use pm_nodes::Gate;
use pm_wire::{Served, serve};
use std::alloc::Global;
use std::sync::Wait;
use std::thread::Threads;

const USAGE_LINE: &str =
    "usage: market run | market trace | market demo SIZE NUMBER | market check | market bill | market serve | market ask | market free\n";

/// The most bytes of the input of a command.
fn input_limit(asked: FileCommand) -> usize
    ensures { result ≡ input_limit asked }
{
    match asked {
        FileCommand::Run | FileCommand::Trace | FileCommand::Bill | FileCommand::Free => 4_194_304,
        FileCommand::Check => 536_870_912,
        FileCommand::Ask => 8_388_608,
    }
}

/// The line of an input that has more bytes.
fn too_long_line(asked: FileCommand) -> &'static str
    ensures { result.now ≡ too_long_line asked }
{
    match asked {
        FileCommand::Run | FileCommand::Trace | FileCommand::Bill | FileCommand::Free => {
            "too long, more than 4194304 bytes\n"
        }
        FileCommand::Check => "too long, more than 536870912 bytes\n",
        FileCommand::Ask => "too long, more than 8388608 bytes\n",
    }
}

/// Writes what is due, and answers its status, or that the sink failed.
fn give<K: Sink>(sink: &mut K, status: Status, text: &[u8]) -> Status
    requires { status ≢ Status.WriteFault }
    ensures either { EndsUnlessUnwritten status result }
    ensures given { result ≢ Status.WriteFault → (result ≡ status)
        × Appends (K.held sink.old) (K.held sink.new) text.now }
    ensures fault { result ≡ Status.WriteFault → Rose (K.faults sink.old) (K.faults sink.new)
        × WrotePrefix (K.held sink.old) (K.held sink.new) text.now }
    ensures count { K.faults sink.old ≤ K.faults sink.new }
{
    match write_all(sink, text) {
        Ok(()) => status,
        Err(_) => Status::WriteFault,
    }
}

/// Writes the summary of the demo cluster of this size and number.
fn demo<R: Threads + Wait + Sync, K: Sink, G: Gate>(
    rt: &R,
    alloc: Global,
    size: u32,
    number: u32,
    sink: &mut K,
    gate: &G,
) -> Status
    ensures status { EndsUnlessCutShort Status.Done result }
    ensures size { result ≡ Status.Done → is_size size ≡ true }
    ensures written { result ≡ Status.Done → (text : List ℕ) × IsSummary size number text
        × Appends (K.held sink.old) (K.held sink.new) text }
    ensures write_fault { result ≡ Status.WriteFault → Rose (K.faults sink.old) (K.faults sink.new)
        × ((text : List ℕ) × IsSummary size number text
        × WrotePrefix (K.held sink.old) (K.held sink.new) text) }
    ensures no_memory { result ≡ Status.NoMemory → sink.new ≡ sink.old }
    ensures count { K.faults sink.old ≤ K.faults sink.new }
{
    match demo_of(rt, alloc, size, number, gate) {
        Ok(text) => give(sink, Status::Done, &text),
        // The arguments are a size within its limits, so that only an allocation can have failed.
        Err(_) => Status::NoMemory,
    }
}

/// Reads an input and writes the text that is asked for of it.
fn file<R: Threads + Wait + Sync, S: Source, K: Sink, G: Gate>(
    rt: &R,
    alloc: Global,
    asked: FileCommand,
    source: &mut S,
    sink: &mut K,
    gate: &G,
) -> Status
    ensures written { WroteItsText (Some (Command.File asked)) (S.left source.old)
        (S.left source.new) (K.held sink.old) (K.held sink.new) result }
    ensures write_fault { result ≡ Status.WriteFault → Rose (K.faults sink.old) (K.faults sink.new)
        × WrotePartOfDue (Some (Command.File asked)) (S.left source.old) (S.left source.new)
        (K.held sink.old) (K.held sink.new) }
    ensures read_fault { result ≡ Status.ReadFault
        → Rose (S.faults source.old) (S.faults source.new) × (sink.new ≡ sink.old) }
    ensures no_memory { result ≡ Status.NoMemory → sink.new ≡ sink.old }

    // An input that is read to its end or past the limit has the answer that it should.
    ensures took_more { input_limit asked < length
        (taken_bytes (S.left source.old) (S.left source.new))
        → EndsUnlessCutShort Status.TooLong result }
    ensures answer { IfSome (S.left source.old)
        (λ input. (status : Status) → HasStatus asked input status →
        EndsUnlessFailed status result) }
    ensures source_count { S.faults source.old ≤ S.faults source.new }
    ensures sink_count { K.faults sink.old ≤ K.faults sink.new }
{
    match read_all(alloc, source, input_limit(asked)) {
        Ok(bytes) => match answer_of(rt, alloc, asked, &bytes, gate) {
            Ok(answer) => give(sink, answer.status, &answer.text),
            Err(_) => Status::NoMemory,
        },
        Err(ReadAllFault::ReadFault) => Status::ReadFault,
        Err(ReadAllFault::NoMemory) => Status::NoMemory,
        Err(ReadAllFault::TooLong { .. }) => {
            give(sink, Status::TooLong, too_long_line(asked).as_bytes())
        }
    }
}

/// The status of a service that ended so.
fn service_status(served: Served) -> Status
    ensures { result ≡ service_status served }
{
    match served {
        Served::Done => Status::Done,
        Served::Refused => Status::Refused,
        Served::TooLong => Status::TooLong,
        Served::ReadFault => Status::ReadFault,
        Served::WriteFault => Status::WriteFault,
        Served::NoMemory => Status::NoMemory,
    }
}

/// Serves the auctioneer over the source and the sink.
fn service<S: Source, K: Sink>(alloc: Global, source: &mut S, sink: &mut K) -> Status
    ensures serves { ServesBids (S.left source.old) (S.left source.new) (K.held sink.old)
        (K.held sink.new) (Rose (S.faults source.old) (S.faults source.new))
        (Rose (K.faults sink.old) (K.faults sink.new)) result }
    ensures source_count { S.faults source.old ≤ S.faults source.new }
    ensures sink_count { K.faults sink.old ≤ K.faults sink.new }
{
    service_status(serve(alloc, source, sink))
}

/// Does what the arguments ask, and tells how it ended.
///
/// `run` reads a cluster file to its end and appends the report of its plan, or the line of its refusal. `trace`
/// appends the lines of the run's journal behind the report. `bill` appends the accounts of the devices and of the grid
/// in place of it. `free` appends the same report by a run whose threads share links without a lock. `ask` reads an
/// envelope of a cluster file and of targets in watts. It appends what the total at the end of the run answers to them.
/// `check` reads an envelope of a cluster file and of a trace. It appends whether the trace is one of a legal run of
/// the file, or its bad line. `serve` reads a stream of bids, frame by frame, and appends what the auctioneer answers
/// as they come. `demo SIZE NUMBER` reads nothing and appends the summary of the demo cluster. SIZE is in 1..=200,
/// NUMBER in 0..=4294967295, both in ASCII digits without sign and without a leading zero. All other arguments are no
/// command, and the usage line is appended. The definition `IsDue` has for each status that writes a text the cause of
/// the status and the text.
///
/// A cluster runs with a thread for each of its nodes; under `free` each phase runs on four threads at most, each with some of
/// the nodes. The gate is told of each turn that a node takes.
pub fn market<R: Threads + Wait + Sync, S: Source, K: Sink, G: Gate>(
    rt: &R,
    alloc: Global,
    arguments: &[String],
    source: &mut S,
    sink: &mut K,
    gate: &G,
) -> Status
    // Done, Invalid, Usage, TooLong and Refused come only if their causes hold, and their texts are appended, whole.
    ensures written { WroteItsText (command (map string_bytes arguments.now))
        (S.left source.old) (S.left source.new) (K.held sink.old) (K.held sink.new) result }

    // The headline: a text that is written with Done tells the market, by what the arguments ask, and one that is written
    // with Invalid refutes the trace. It does not say that a run ends, how long it takes, or how much memory.
    ensures headline { result ≡ Status.Done → (text : List ℕ)
        × TellsTheMarket (command (map string_bytes arguments.now)) (S.left source.old)
        (S.left source.new) text
        × Appends (K.held sink.old) (K.held sink.new) text }
    ensures refutation { result ≡ Status.Invalid → (text : List ℕ)
        × RefutesFile (command (map string_bytes arguments.now)) (S.left source.old)
        (S.left source.new) text
        × Appends (K.held sink.old) (K.held sink.new) text }

    // The two faults come only if a count rose.
    ensures read_fault { result ≡ Status.ReadFault →
        Rose (S.faults source.old) (S.faults source.new) }
    ensures write_fault { result ≡ Status.WriteFault →
        Rose (K.faults sink.old) (K.faults sink.new) }

    // What a failure leaves in the sink, except for a service, which writes while it reads: all as it was, or a part of the text due.
    ensures fails { FailsCleanly K.held (command (map string_bytes arguments.now))
        (S.left source.old) (S.left source.new) sink.old sink.new result }

    // Nothing is read except for a file or a service.
    ensures reads_nothing { ((asked : FileCommand) →
        command (map string_bytes arguments.now) ≢ Some (Command.File asked))
        → command (map string_bytes arguments.now) ≢ Some Command.Serve → source.new ≡ source.old }

    // If the cause of Usage, TooLong, Refused or Invalid holds, and the source tells what it has, this is the answer, or a fault
    // or an allocation failure.
    ensures by_cause { EndsByCause (command (map string_bytes arguments.now))
        (S.left source.old) (S.left source.new) (K.held sink.old) (K.held sink.new) result }

    // If neither the source nor the sink failed, the answer is what the arguments and the input say, or an allocation failed.
    ensures complete { EndsWithoutFault (command (map string_bytes arguments.now))
        (S.left source.old) (Rose (S.faults source.old) (S.faults source.new))
        (Rose (K.faults sink.old) (K.faults sink.new)) result }

    // A service ends as its status says. The status follows from what the source has, except for a failure.
    ensures served { command (map string_bytes arguments.now) ≡ Some Command.Serve
        → ServesBids (S.left source.old) (S.left source.new) (K.held sink.old)
        (K.held sink.new) (Rose (S.faults source.old) (S.faults source.new))
        (Rose (K.faults sink.old) (K.faults sink.new)) result }
    ensures source_count { S.faults source.old ≤ S.faults source.new }
    ensures sink_count { K.faults sink.old ≤ K.faults sink.new }
{
    match command_of(arguments) {
        Some(Command::File(asked)) => file(rt, alloc, asked, source, sink, gate),
        Some(Command::Demo { size, number }) => demo(rt, alloc, size, number, sink, gate),
        Some(Command::Serve) => service(alloc, source, sink),
        None => give(sink, Status::Usage, USAGE_LINE.as_bytes()),
    }
}
