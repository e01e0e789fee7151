//! Serves the node that the arguments name.

ghost use Rattle.std.specs.Prelude.{◌≡◌, ◌⊎◌, ◌≤◌, ℕ, List, [], Some, map, string_bytes};
ghost use Rattle.std.specs.Io.KnownBytes.{Appends};
ghost use Rattle.pm_io.specs.Causes.{Rose};
ghost use Rattle.pm_io.specs.Peers.{MayWriteAll};
ghost use Rattle.pm_live.specs.Asks.{AsksNode};
ghost use Rattle.pm_live.specs.LiveNodes.{IsNamed, MayBe};
ghost use Rattle.pm_live.specs.Processes.{IsProcessBetween};
ghost use Rattle.pm_live.specs.Serving.{node_usage_line, WrotePartOfUsage, ServesNode, EndsNodeAsDue, EndsNodeSettingUp};
ghost use Rattle.pm_processes.specs.Kept.{HistoriesKeepTheLaw};
ghost use Rattle.pm_wire.specs.declared.stream.Served.{Served};

use crate::ending::Ending;
use crate::named::{LiveNode, named_node};
use crate::serving::serve_from_start;
use pm_frames::{NodePlace, RelayPlace, Stage};
use pm_io::{Memory, Peer, Sink, Source, Wire, tell_all, write_all};
use pm_processes::histories_keep_the_law;
use pm_services::{DeviceService, RelayService, RootService};
use pm_wire::Served;
use std::alloc::Global;

const USAGE_LINE: &str =
    "usage: live relay CHILD FLOOR CEILING [GIVER] | live auctioneer | live device CHILD\n";

/// Writes the usage line.
fn tell_usage<W: Peer>(wire: &mut W) -> Ending
    requires next { MayWriteAll W.left W.held W.becomes W.may_write wire.old node_usage_line }
    ensures either { (result ≡ Ending.Usage) ⊎ (result ≡ Ending.UsageCutShort) }
    ensures written { result ≡ Ending.Usage
        → Appends (W.held wire.old) (W.held wire.new) node_usage_line }
    ensures cut_short { result ≡ Ending.UsageCutShort
        → Rose (W.write_faults wire.old) (W.write_faults wire.new)
        × WrotePartOfUsage (W.held wire.old) (W.held wire.new) }
    ensures left { W.left wire.new ≡ W.left wire.old }
    ensures read_faults { W.read_faults wire.new ≡ W.read_faults wire.old }
    ensures becomes { W.becomes wire.old wire.new }
    ensures count { W.write_faults wire.old ≤ W.write_faults wire.new }
{
    match tell_all(wire, USAGE_LINE.as_bytes()) {
        Ok(()) => Ending::Usage,
        Err(_) => Ending::UsageCutShort,
    }
}

/// Writes the usage line to a sink alone.
fn append_usage<K: Sink>(sink: &mut K) -> Ending
    ensures either { (result ≡ Ending.Usage) ⊎ (result ≡ Ending.UsageCutShort) }
    ensures written { result ≡ Ending.Usage
        → Appends (K.held sink.old) (K.held sink.new) node_usage_line }
    ensures cut_short { result ≡ Ending.UsageCutShort → Rose (K.faults sink.old) (K.faults sink.new)
        × WrotePartOfUsage (K.held sink.old) (K.held sink.new) }
    ensures count { K.faults sink.old ≤ K.faults sink.new }
{
    match write_all(sink, USAGE_LINE.as_bytes()) {
        Ok(()) => Ending::Usage,
        Err(_) => Ending::UsageCutShort,
    }
}

/// Serves a node that there may be.
fn serve_named<W: Peer, M: Memory>(
    alloc: Global,
    memory: &mut M,
    node: LiveNode,
    wire: &mut W,
) -> Served
    requires node { MayBe node }
    requires asks { AsksNode W.left W.held W.becomes W.may_read W.may_write node wire.old }
    ensures serves { ServesNode node (W.left wire.old) (W.left wire.new) (W.held wire.old)
        (W.held wire.new) (Rose (W.read_faults wire.old) (W.read_faults wire.new))
        (Rose (W.write_faults wire.old) (W.write_faults wire.new)) result }
    ensures due { (all : List ℕ) → W.left wire.old ≡ Some all →
        EndsNodeAsDue node all (W.left wire.old) (W.left wire.new) (W.held wire.old)
        (W.held wire.new) (Rose (W.read_faults wire.old) (W.read_faults wire.new))
        (Rose (W.write_faults wire.old) (W.write_faults wire.new)) result }
    ensures no_memory { result ≡ Served.NoMemory
        → Rose (M.refusals memory.old) (M.refusals memory.new)
        ⊎ EndsNodeSettingUp node (W.left wire.old) (W.left wire.new) }
    ensures becomes { W.becomes wire.old wire.new }
    ensures source_count { W.read_faults wire.old ≤ W.read_faults wire.new }
    ensures sink_count { W.write_faults wire.old ≤ W.write_faults wire.new }
    ensures memory_count { M.refusals memory.old ≤ M.refusals memory.new }
{
    match node {
        LiveNode::Relay { child, terms } => {
            let place = RelayPlace {
                child,
                terms,
                stage: Stage::Start,
            };
            let mut relay = RelayService::new(alloc, child, terms);
            serve_from_start(alloc, memory, wire, place, &mut relay)
        }
        LiveNode::Auctioneer => {
            let mut root = RootService::new(alloc);
            serve_from_start(alloc, memory, wire, Stage::Start, &mut root)
        }
        LiveNode::Device { child } => {
            let place = NodePlace {
                child,
                stage: Stage::Start,
                kind: None,
            };
            let mut device = DeviceService::new(alloc, child);
            serve_from_start(alloc, memory, wire, place, &mut device)
        }
    }
}

/// Serves the node that the arguments name to a peer, and tells how it ended.
///
/// A relay reads the frames of its children and of its parent, and writes its own bids and the prices down. An auctioneer reads its
/// children's bids, and writes the prices of each clearing. A device's agent reads the offers of the device's control and its parent's
/// prices, and writes bids and setpoints. Each reads what it comes back with directly after Hello, and writes what it is to come back
/// with. The answers to a piece of the stream are written before the next piece is read. All other arguments name no node, and the usage
/// line is appended.
pub fn live_peer<W: Peer, M: Memory>(
    alloc: Global,
    memory: &mut M,
    arguments: &[String],
    wire: &mut W,
) -> Ending
    // At each moment, whether the call returns or not: at each read all whole frames of the bytes taken were answered, and at
    // each write what was written, with what is written now, is what is due for them. A peer may ask for what follows from that.
    requires asks { (node : LiveNode) → IsNamed (map string_bytes arguments.now) node →
        AsksNode W.left W.held W.becomes W.may_read W.may_write node wire.old }
    requires asks_usage { ((node : LiveNode) → ¬ IsNamed (map string_bytes arguments.now) node) →
        MayWriteAll W.left W.held W.becomes W.may_write wire.old node_usage_line }

    // The frames that the source had are answered as the service of the node answers them, by how it ends.
    ensures serves { (node : LiveNode) → IsNamed (map string_bytes arguments.now) node →
        (served : Served) × (result ≡ Ending.Served served)
        × ServesNode node (W.left wire.old) (W.left wire.new) (W.held wire.old)
        (W.held wire.new) (Rose (W.read_faults wire.old) (W.read_faults wire.new))
        (Rose (W.write_faults wire.old) (W.write_faults wire.new)) served }

    // Where the source tells what it has, that says how it ends.
    ensures due { (node : LiveNode) (all : List ℕ) →
        IsNamed (map string_bytes arguments.now) node → W.left wire.old ≡ Some all →
        (served : Served) × (result ≡ Ending.Served served)
        × EndsNodeAsDue node all (W.left wire.old) (W.left wire.new) (W.held wire.old)
        (W.held wire.new) (Rose (W.read_faults wire.old) (W.read_faults wire.new))
        (Rose (W.write_faults wire.old) (W.write_faults wire.new)) served }

    // Want of memory ends it only where memory was refused, but within the piece in which Hello, or what the node comes back with,
    // sets it up.
    ensures no_memory { (node : LiveNode) → IsNamed (map string_bytes arguments.now) node →
        result ≡ Ending.Served Served.NoMemory →
        Rose (M.refusals memory.old) (M.refusals memory.new)
        ⊎ EndsNodeSettingUp node (W.left wire.old) (W.left wire.new) }
    ensures memory_count { M.refusals memory.old ≤ M.refusals memory.new }

    // What was read and written is a process of the node. Processes of all nodes of a market, ended at any byte, keep its law if
    // their carriers keep their promises.
    ensures process { (node : LiveNode) → IsNamed (map string_bytes arguments.now) node →
        IsProcessBetween node (W.left wire.old) (W.left wire.new) (W.held wire.old)
        (W.held wire.new) [] }
    ensures law { HistoriesKeepTheLaw }

    // Arguments that name no node are told how to name one, and nothing is read.
    ensures usage { ((node : LiveNode) → ¬ IsNamed (map string_bytes arguments.now) node) →
        (result ≡ Ending.Usage) ⊎ (result ≡ Ending.UsageCutShort) }
    ensures written { result ≡ Ending.Usage
        → Appends (W.held wire.old) (W.held wire.new) node_usage_line }
    ensures cut_short { result ≡ Ending.UsageCutShort
        → Rose (W.write_faults wire.old) (W.write_faults wire.new)
        × WrotePartOfUsage (W.held wire.old) (W.held wire.new) }
    ensures reads_nothing { ((node : LiveNode) → ¬ IsNamed (map string_bytes arguments.now) node) →
        (W.left wire.new ≡ W.left wire.old) × (W.read_faults wire.new ≡ W.read_faults wire.old) }
    ensures becomes { W.becomes wire.old wire.new }
    ensures source_count { W.read_faults wire.old ≤ W.read_faults wire.new }
    ensures sink_count { W.write_faults wire.old ≤ W.write_faults wire.new }
{
    // The call tells a fact: the law of a whole market.
    histories_keep_the_law();
    match named_node(arguments) {
        Some(node) => Ending::Served(serve_named(alloc, memory, node, wire)),
        None => tell_usage(wire),
    }
}

/// Serves the node that the arguments name, and tells how it ended.
///
/// A relay reads the frames of its children and of its parent, and writes its own bids and the prices down. An auctioneer reads its
/// children's bids, and writes the prices of each clearing. A device's agent reads the offers of the device's control and its parent's
/// prices, and writes bids and setpoints. Each reads what it comes back with directly after Hello, and writes what it is to come back
/// with. The answers to a piece of the stream are written before the next piece is read. All other arguments name no node, and the usage
/// line is appended.
pub fn live<S: Source, K: Sink, M: Memory>(
    alloc: Global,
    memory: &mut M,
    arguments: &[String],
    source: &mut S,
    sink: &mut K,
) -> Ending
    // The frames that the source had are answered as the service of the node answers them, by how it ends.
    ensures serves { (node : LiveNode) → IsNamed (map string_bytes arguments.now) node →
        (served : Served) × (result ≡ Ending.Served served)
        × ServesNode node (S.left source.old) (S.left source.new) (K.held sink.old)
        (K.held sink.new) (Rose (S.faults source.old) (S.faults source.new))
        (Rose (K.faults sink.old) (K.faults sink.new)) served }

    // Where the source tells what it has, that says how it ends.
    ensures due { (node : LiveNode) (all : List ℕ) →
        IsNamed (map string_bytes arguments.now) node → S.left source.old ≡ Some all →
        (served : Served) × (result ≡ Ending.Served served)
        × EndsNodeAsDue node all (S.left source.old) (S.left source.new) (K.held sink.old)
        (K.held sink.new) (Rose (S.faults source.old) (S.faults source.new))
        (Rose (K.faults sink.old) (K.faults sink.new)) served }

    // Want of memory ends it only where memory was refused, but within the piece in which Hello, or what the node comes back with,
    // sets it up.
    ensures no_memory { (node : LiveNode) → IsNamed (map string_bytes arguments.now) node →
        result ≡ Ending.Served Served.NoMemory →
        Rose (M.refusals memory.old) (M.refusals memory.new)
        ⊎ EndsNodeSettingUp node (S.left source.old) (S.left source.new) }
    ensures memory_count { M.refusals memory.old ≤ M.refusals memory.new }

    // What was read and written is a process of the node. Processes of all nodes of a market, ended at any byte, keep its law if
    // their carriers keep their promises.
    ensures process { (node : LiveNode) → IsNamed (map string_bytes arguments.now) node →
        IsProcessBetween node (S.left source.old) (S.left source.new) (K.held sink.old)
        (K.held sink.new) [] }
    ensures law { HistoriesKeepTheLaw }

    // Arguments that name no node are told how to name one, and nothing is read.
    ensures usage { ((node : LiveNode) → ¬ IsNamed (map string_bytes arguments.now) node) →
        (result ≡ Ending.Usage) ⊎ (result ≡ Ending.UsageCutShort) }
    ensures written { result ≡ Ending.Usage
        → Appends (K.held sink.old) (K.held sink.new) node_usage_line }
    ensures cut_short { result ≡ Ending.UsageCutShort → Rose (K.faults sink.old) (K.faults sink.new)
        × WrotePartOfUsage (K.held sink.old) (K.held sink.new) }
    ensures reads_nothing { ((node : LiveNode) → ¬ IsNamed (map string_bytes arguments.now) node) →
        source.new ≡ source.old }
    ensures source_count { S.faults source.old ≤ S.faults source.new }
    ensures sink_count { K.faults sink.old ≤ K.faults sink.new }
{
    // The call tells a fact: the law of a whole market.
    histories_keep_the_law();
    match named_node(arguments) {
        Some(_node) => {
            let mut wire = Wire { source, sink };
            live_peer(alloc, memory, arguments, &mut wire)
        }
        None => append_usage(sink),
    }
}
