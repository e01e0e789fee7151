//! Opens a cluster on a plan, with all the memory that its moves need.

ghost use Rattle.std.specs.Prelude.{◌≡◌, ℕ, ◌+◌, ◌<◌, ◌≤◌, length, replicate, IfOk, map, Some, None};
ghost use Rattle.pm_base.specs.Limits.{AreSteps};
ghost use Rattle.pm_base.specs.Rows.{rows_of};
ghost use Rattle.pm_market.specs.Lists.{IsLeaf, IsConcentrator};
ghost use Rattle.pm_tree.specs.Entries.{children_of};
ghost use Rattle.pm_concentrator.specs.Concentrators.{IsNewConcentrator};
ghost use Rattle.pm_stands.specs.Core.{limits_at};
ghost use Rattle.pm_plan.specs.Plans.{node as planned_node, start_of as planned_start, phases, end_cut};
ghost use Rattle.pm_market.specs.State.{start};
ghost use Rattle.pm_plan.specs.Market.{plan_lists};
ghost use Rattle.pm_plan.specs.Kept.{IsPlan};
ghost use Rattle.pm_session.specs.Links.{new_session};
ghost use Rattle.pm_stands.specs.Stands.{StandsFor};
ghost use Rattle.pm_cluster.specs.Opening.{AreNewRows, IsNewAt, AreNewConcentrators, AreStarts, AreFirstDue};

use crate::cluster::Cluster;
use crate::tree::is_concentrator;
use pm_auctioneer::Auctioneer;
use pm_bid::{ArrayBid, uncounted};
use pm_concentrator::Concentrator;
use pm_device::DeviceState;
use pm_plan::{Plan, is_device};
use pm_session::{Link, Port};
use pm_tree::NodeId;
use std::alloc::{AllocError, Global};

impl<'p> Cluster<'p> {
    /// Opens a cluster on a plan, before the first phase: no device made a change, and nobody sent anything. It takes the
    /// memory of all moves. The answer is an error only if an allocation fails.
    pub fn open(alloc: Global, plan: &'p Plan) -> Result<Cluster<'p>, AllocError>
        ensures plan { IfOk result (λ c. c.plan ≡ plan.now) }
        ensures sound { IsPlan plan.now }
        ensures start { IfOk result (λ c. StandsFor plan.now c.core start) }
    {
        let many = plan.tree().len() as usize + 1;
        let steps = plan.basis().steps();
        Ok(Cluster {
            plan,
            counts: vec![in alloc; 0u32; many]?,
            states: starts(alloc, plan)?,
            members: vec![in alloc; false; many]?,
            due: first_due(alloc, plan)?,
            powers: vec![in alloc; 0i64; many]?,
            closed: 0,
            links: rows(alloc, plan)?,
            concentrators: concentrators(alloc, plan)?,
            auctioneer: Auctioneer::new(alloc, plan.tree().children(NodeId(0)).len(), steps)?,
            ports: ports(alloc, many)?,
            spare: ArrayBid::zero(alloc, steps, &mut uncounted())?,
        })
    }
}

/// The state of each device before its first change.
fn starts(alloc: Global, plan: &Plan) -> Result<Vec<DeviceState>, AllocError>
    ensures starts { IfOk result (λ v. AreStarts plan.now (map (λ state. state.0) v.items)) }
{
    let mut states = Vec::new(alloc);
    for number in 0..plan.tree().len() + 1 {
        states.push(start_of(plan, NodeId(number)))?;
    }
    Ok(states)
}

/// The state of a device before its first change; 0 for any other node.
#[tactic(auto, using(crate::proofs::Parents::leaf_is, crate::proofs::Parents::nodes_are))]
fn start_of(plan: &Plan, node: NodeId) -> DeviceState
    ensures start { IsLeaf (plan_lists plan.now) node.0 →
        planned_start (planned_node plan.now node.0) ≡ Some result.0 }
{
    if !is_device(plan, node) {
        return DeviceState(0);
    }
    plan.start(node)
}

/// How many changes of each device belong to the first phase, if there is one.
fn first_due(alloc: Global, plan: &Plan) -> Result<Vec<u32>, AllocError>
    ensures due { IfOk result (λ v. AreFirstDue plan.now v.items) }
{
    let mut due = Vec::new(alloc);
    for number in 0..plan.tree().len() + 1 {
        due.push(first_due_of(plan, NodeId(number)))?;
    }
    Ok(due)
}

/// How many changes of a device belong to the first phase, if there is one; 0 for any other node.
#[tactic(auto, using(crate::proofs::Parents::leaf_is, crate::proofs::Parents::nodes_are))]
fn first_due_of(plan: &Plan, node: NodeId) -> u32
    ensures due { 0 < phases plan.now → IsLeaf (plan_lists plan.now) node.0 →
        result ≡ end_cut plan.now 1 node.0 }
{
    if plan.phases() == 0 || !is_device(plan, node) {
        return 0;
    }
    plan.changes_of(1, node)
}

/// A port for each node.
fn ports(alloc: Global, many: usize) -> Result<Vec<Port>, AllocError>
    ensures ports { IfOk result (λ v. v.items ≡ replicate many
        (record { joined = None; given = None })) }
{
    let mut ports = Vec::new(alloc);
    for _node in 0..many {
        ports.push(Port::new())?;
    }
    Ok(ports)
}

/// The links of each node to its children.
fn rows(alloc: Global, plan: &Plan) -> Result<Vec<Vec<Link>>, AllocError>
    ensures rows { IfOk result (λ v. AreNewRows plan.now (rows_of v.items)) }
{
    let mut rows = Vec::new(alloc);
    for number in 0..plan.tree().len() + 1 {
        let children = plan.tree().children(NodeId(number)).len();
        rows.push(row(alloc, children, plan.basis().steps())?)?;
    }
    Ok(rows)
}

/// So many new links.
fn row(alloc: Global, children: usize, steps: usize) -> Result<Vec<Link>, AllocError>
    requires steps { AreSteps steps }
    ensures links { IfOk result (λ v. v.items ≡ replicate children (new_session steps)) }
{
    let mut links = Vec::new(alloc);
    for _child in 0..children {
        links.push(Link::new(alloc, steps)?)?;
    }
    Ok(links)
}

/// A concentrator for each node that is one.
fn concentrators(alloc: Global, plan: &Plan) -> Result<Vec<Option<Concentrator>>, AllocError>
    ensures concentrators { IfOk result (λ v. AreNewConcentrators plan.now v.items) }
{
    let mut concentrators = Vec::new(alloc);
    for number in 0..plan.tree().len() + 1 {
        concentrators.push(concentrator(alloc, plan, NodeId(number))?)?;
    }
    Ok(concentrators)
}

/// The concentrator of a node; None if the node is a device or the auctioneer.
fn concentrator(
    alloc: Global,
    plan: &Plan,
    node: NodeId,
) -> Result<Option<Concentrator>, AllocError>
    ensures new { IfOk result (IsNewAt plan.now node.0) }
{
    if !is_concentrator(plan, node) {
        return Ok(None);
    }
    Ok(Some(new_concentrator(alloc, plan, node)?))
}

/// The concentrator of a node that is one, with the plan's limits.
fn new_concentrator(alloc: Global, plan: &Plan, node: NodeId) -> Result<Concentrator, AllocError>
    requires concentrator { IsConcentrator (plan_lists plan.now) node.0 }
    ensures new { IfOk result (IsNewConcentrator (length (children_of plan.now.entries node.0))
        plan.now.basis.steps (limits_at plan.now node.0)) }
{
    let children = plan.tree().children(node).len();
    let steps = plan.basis().steps();
    let Some((floor, ceiling)) = plan.limits(node) else {
        return Concentrator::new(alloc, children, steps);
    };
    Concentrator::limited(alloc, children, steps, floor, ceiling)
}
