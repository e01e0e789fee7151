//! A cluster in the hand of a test. Each call is there once, in a function that promises nothing, so no fact of a call
//! follows a test around.

ghost use Rattle.std.specs.Prelude.{◌≡◌, true};
ghost use Rattle.pm_market.specs.Lists.{IsLeaf};
ghost use Rattle.pm_plan.specs.Market.{plan_lists};

use pm_cluster::{ActFault, Cluster};
use pm_device::Next;
use pm_market::{Act, Line, Move};
use pm_plan::{LimitedLine, MemberLine, PhaseEnd, Plan};
use pm_session::Held;
use pm_tree::NodeId;
use std::alloc::Global;
use std::process::Abort;

/// A phase's end: price, step and total; the members and the limited concentrators.
#[derive(Clone, Copy)]
pub struct End {
    pub at: (i64, u32, i64),
    pub members: &'static [MemberLine],
    pub limited: &'static [LimitedLine],
}

pub fn open<'p, R: Abort>(rt: &R, alloc: Global, plan: &'p Plan) -> Cluster<'p> {
    Cluster::open(alloc, plan).expect(rt, "memory")
}

/// Makes an act, if it is legal.
pub fn make<R: Abort>(rt: &R, cluster: &mut Cluster, act: Act) -> Option<Line> {
    match cluster.act(act) {
        Ok(line) => Some(line),
        Err(ActFault::Illegal) => None,
        Err(ActFault::NoMemory) => panic!(rt; "no memory"),
    }
}

/// The line of the move of an act's form with this number, and of the step and the number that a device then holds.
pub fn line_of(act: Act, number: u32, held: Option<(u32, u32)>) -> Line {
    let what = match act {
        Act::Change { device } => Move::Change { device, number },
        Act::Learn { child } => Move::Learn { child, number },
        Act::Publish { node } => Move::Publish { node, number },
        Act::Clear => Move::Clear { index: number },
        Act::Pass { node } => {
            let index = number;
            Move::Pass { node, index }
        }
        Act::Close => Move::Close { phase: number },
    };
    Line { what, held }
}

/// How many acts a cluster has: five of each node.
pub fn act_count(cluster: &Cluster) -> u32 {
    let nodes = cluster.plan().tree().len().saturating_add(1);
    nodes.saturating_mul(5)
}

/// The act in a place, counted from 0, except the closing of a phase.
pub fn act_at(place: u32) -> Act {
    let node = place / 5;
    match place % 5 {
        0 => Act::Change { device: node },
        1 => Act::Learn { child: node },
        2 => Act::Publish { node },
        3 => Act::Pass { node },
        _ => Act::Clear,
    }
}

pub fn next_node(cluster: &Cluster) -> Option<u32> {
    Some(cluster.next_node()?.0)
}

/// One node move of a node, if it has one.
#[tactic(auto, using(pm_cluster::proofs::Parents::nodes_are))]
pub fn step<R: Abort>(rt: &R, cluster: &mut Cluster, node: u32) -> Option<Line> {
    assert!(rt; node <= cluster.plan().tree().len());
    cluster.step(NodeId(node)).expect(rt, "memory")
}

/// Steps of the lowest node that has one, until no node has one. False if that node has no move, or some node always has one.
pub fn rest<R: Abort>(rt: &R, cluster: &mut Cluster) -> bool {
    for _move in 0..1000u32 {
        match next_node(cluster) {
            None => return true,
            Some(node) if step(rt, cluster, node).is_some() => {}
            Some(_) => return false,
        }
    }
    false
}

pub fn close(cluster: &mut Cluster) -> bool {
    cluster.close()
}

/// Whether a node is a device of the plan.
#[tactic(auto, using(pm_cluster::proofs::Parents::leaf_is, pm_cluster::proofs::Parents::nodes_are))]
fn is_leaf(plan: &Plan, node: u32) -> bool
    ensures { result ≡ true → IsLeaf (plan_lists plan.now) node }
{
    node <= plan.tree().len() && plan.tree().is_leaf(NodeId(node))
}

pub fn held<R: Abort>(rt: &R, cluster: &Cluster, device: u32) -> Option<Held> {
    assert!(rt; is_leaf(cluster.plan(), device));
    cluster.held(NodeId(device))
}

/// How many changes a device made, and the next.
pub fn changes<R: Abort>(rt: &R, cluster: &Cluster, device: u32) -> (u32, Option<Next>) {
    assert!(rt; is_leaf(cluster.plan(), device));
    (cluster.count(NodeId(device)), cluster.next(NodeId(device)))
}

fn is_end(end: &PhaseEnd, due: End) -> bool {
    (end.price(), end.step(), end.total()) == due.at
        && end.members() == due.members
        && end.limited() == due.limited
}

/// Whether the cluster is idle, and its end is this.
fn tells<R: Abort>(rt: &R, alloc: Global, cluster: &Cluster, due: End) -> bool {
    cluster.idle() && is_end(&cluster.phase_end(alloc).expect(rt, "memory"), due)
}

/// Whether the cluster is idle, and writes this end into a given one.
#[tactic(auto, using(pm_cluster::proofs::Parents::nodes_are))]
fn writes<R: Abort>(rt: &R, alloc: Global, cluster: &Cluster, due: End) -> bool {
    assert!(rt; cluster.idle());
    let mut end = PhaseEnd::vacant(alloc, cluster.plan()).expect(rt, "memory");
    cluster.phase_end_into(&mut end);
    is_end(&end, due)
}

/// Whether both calls give this end of an idle cluster.
pub fn ends_so<R: Abort>(rt: &R, alloc: Global, cluster: &Cluster, due: End) -> bool {
    tells(rt, alloc, cluster, due) && writes(rt, alloc, cluster, due)
}
