//! Runs one phase over links without a lock, and ends it on the caller's thread.

ghost use Rattle.std.specs.Prelude.{◌≡◌, All, IfOk, IfSome, length};
ghost use Rattle.pm_phase.specs.Ends.{AreOf};
ghost use Rattle.pm_phase.specs.Nodes.{numbers_of_parts, numbers_of_nodes};
ghost use Rattle.pm_phase.specs.Telling.{AllStepOn};
ghost use Rattle.pm_phase.specs.Running.{HasRun};
ghost use Rattle.pm_phase.specs.Logs.{IsLogOfLink};

use crate::closing::close_links;
use crate::node::{FreeNode, NodePart};
use crate::opening::open_links;
use crate::threads::run_nodes;
use crate::turns::{Phase, take_round};
use pm_cells::{FreeLink, LinkLog};
use pm_device::Next;
use pm_nodes::Gate;
use pm_plan::Plan;
use std::alloc::{AllocError, Global};
use std::sync::atomic::AtomicU64;
use std::thread::Threads;

/// What a phase over links came to.
#[derive(Drop)]
pub struct PhaseRun {
    /// The nodes after the phase, by their numbers.
    pub parts: Vec<NodePart>,
    /// What was put on each link and taken from it, by the numbers of the nodes below the links, from 1; none if an end of the
    /// link did not come back.
    pub links: Vec<Option<LinkLog>>,
}

/// Lets the nodes make the changes of a phase on threads, and tells the gate of each turn. What the threads leave is taken to
/// its end on this one.
///
/// The parts are those of the nodes by their numbers, from 0 on, as the phase before gave them; the changes are those of each
/// node in their order, and so many in all. An error comes only for want of memory.
pub fn run_phase<R: Threads + Sync, G: Gate>(
    rt: &R,
    alloc: Global,
    plan: &Plan,
    gate: &G,
    parts: Vec<NodePart>,
    changes: &[Vec<Next>],
    count: usize,
) -> Result<PhaseRun, AllocError>
    ensures parts { IfOk result (λ run.
        numbers_of_parts run.parts.items ≡ numbers_of_parts parts.items) }
    ensures ran { IfOk result (HasRun plan.now changes.now parts.items) }
    ensures each_link { IfOk result (λ run. length run.links.items ≡ length plan.now.entries) }
    ensures logs { IfOk result (λ run. All (λ log. IfSome log IsLogOfLink) run.links.items) }
{
    let (links, places, nodes) = open_links(alloc, plan, parts, count.saturating_add(1))?;
    let moved = AtomicU64::new(0);
    let phase = Phase {
        alloc,
        plan,
        changes,
        gate,
        moved: &moved,
    };
    let mut nodes = nodes;
    run_nodes(rt, &phase, &links, nodes.as_mut_slice(), count);
    take_to_end(&phase, &links, nodes.as_mut_slice());
    close_links(alloc, links, places, nodes)
}

/// Makes rounds of all nodes until none moves a message.
#[tactic(auto, using(crate::proofs::StepsOn::all_trans, crate::proofs::StepsOn::all_refl))]
fn take_to_end<G: Gate>(phase: &Phase<'_, G>, links: &[FreeLink], nodes: &mut [FreeNode])
    requires { All (AreOf links.now) nodes.old }
    ensures links { All (AreOf links.now) nodes.new }
    ensures numbers { numbers_of_nodes nodes.new ≡ numbers_of_nodes nodes.old }
    ensures steps { AllStepOn phase.now.plan.now phase.now.changes.now nodes.old nodes.new }
{
    for _ in 0..phase.plan.bound() {
        if !take_round(phase, links, nodes) {
            break;
        }
    }
}
