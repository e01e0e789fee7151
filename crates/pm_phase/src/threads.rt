//! Lets threads make the turns of a phase, each those of some of the nodes.

ghost use Rattle.std.specs.Prelude.{◌≡◌, ◌<◌, All};
ghost use Rattle.std.specs.Thread.{IsSync};
ghost use Rattle.pm_phase.specs.Ends.{AreOf};
ghost use Rattle.pm_phase.specs.Telling.{AllStepOn};
ghost use Rattle.pm_phase.specs.Nodes.{numbers_of_nodes};

use crate::node::FreeNode;
use crate::turns::{Phase, make_rounds};
use pm_cells::FreeLink;
use pm_nodes::Gate;
use std::thread;
use std::thread::Threads;

/// A phase is on so many threads at most. Each has nodes that follow one another.
const THREADS_OF_A_PHASE: usize = 4;

/// How many rounds a thread makes at most for each change of the phase.
const ROUNDS_OF_A_CHANGE: u64 = 100;

/// A phase with fewer changes than this is on so many threads: to start one costs more than it saves.
const FEW_CHANGES: usize = 64;

const THREADS_OF_FEW_CHANGES: usize = 2;

/// On how many threads a phase with so many changes is.
fn threads_for(changes: usize) -> usize
    ensures positive { 0 < result }
{
    if changes < FEW_CHANGES {
        THREADS_OF_FEW_CHANGES
    } else {
        THREADS_OF_A_PHASE
    }
}

/// Lets the nodes make their rounds of a phase with so many changes on threads. Where a thread cannot start, its rounds are made
/// here.
pub(crate) fn run_nodes<R: Threads + Sync, G: Gate>(
    rt: &R,
    phase: &Phase<'_, G>,
    links: &[FreeLink],
    nodes: &mut [FreeNode],
    changes: usize,
)
    requires { All (AreOf links.now) nodes.old }
    ensures links { All (AreOf links.now) nodes.new }
    ensures numbers { numbers_of_nodes nodes.new ≡ numbers_of_nodes nodes.old }
    ensures steps { AllStepOn phase.now.plan.now phase.now.changes.now nodes.old nodes.new }
{
    let size = nodes.len().div_ceil(threads_for(changes)).max(1);
    let rounds = ROUNDS_OF_A_CHANGE.saturating_mul(changes as u64);
    thread::for_each_chunk_mut(
        rt,
        nodes,
        size,
        &|_start: usize, some: &mut [FreeNode]|
            requires { IsSync G.row × All (AreOf links.now) some.now }
            ensures { All (AreOf links.entry.now) some.exit.now
                × (numbers_of_nodes some.exit.now ≡ numbers_of_nodes some.entry.now)
                × AllStepOn phase.entry.now.plan.now phase.entry.now.changes.now some.entry.now
                some.exit.now }
        { make_rounds(phase, links, some, rounds) },
    );
}
