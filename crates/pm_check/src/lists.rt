//! Makes the market of cuts that a plan describes.

ghost use Rattle.std.specs.Prelude.{◌≡◌, ◌-◌, ◌≤◌, true, length, map, replicate, IfOk};
ghost use Rattle.std.specs.List.{range_with_len};
ghost use Rattle.pm_base.specs.Rows.{rows_of};
ghost use Rattle.pm_tree.specs.Entries.{parents_of, leaves_of};
ghost use Rattle.pm_market.specs.State.{start};
ghost use Rattle.pm_market.specs.Market.{market_lists, market_state};
ghost use Rattle.pm_plan.specs.Devices.{member_after};
ghost use Rattle.pm_plan.specs.Plans.{is_leaf, phases, change_count, end_cut, node_numbers};
ghost use Rattle.pm_plan.specs.Market.{members_of, plan_lists};

use pm_market::Market;
use pm_plan::{Plan, Planned};
use pm_tree::NodeId;
use std::alloc::{AllocError, Global};

/// The market of cuts that a plan stands for, before the first move.
pub(crate) fn market_of(alloc: Global, plan: &Plan) -> Result<Market, AllocError>
    ensures lists { IfOk result (λ market. market_lists market ≡ plan_lists plan.now) }
    ensures start { IfOk result (λ market. market_state market ≡ start) }
{
    let parents = parents_of(alloc, plan)?;
    let leaves = leaves_of(alloc, plan)?;
    let members = members_of(alloc, plan)?;
    let ends = ends_of(alloc, plan)?;
    Market::new(alloc, parents, leaves, members, ends)
}

/// The parent of each node.
fn parents_of(alloc: Global, plan: &Plan) -> Result<Vec<u32>, AllocError>
    ensures parents { IfOk result (λ parents. parents.items ≡ parents_of plan.now.entries) }
    ensures one_each { IfOk result (λ parents. length parents.items ≡ length plan.now.entries) }
{
    let tree = plan.tree();
    let mut parents = Vec::new(alloc);
    for at in 0..tree.len() {
        parents.push(tree.parent(NodeId(at + 1)).0)?;
    }
    Ok(parents)
}

/// Which nodes are devices.
fn leaves_of(alloc: Global, plan: &Plan) -> Result<Vec<bool>, AllocError>
    ensures leaves { IfOk result (λ leaves. leaves.items ≡ leaves_of plan.now.entries) }
    ensures one_each { IfOk result (λ leaves. length leaves.items ≡ length plan.now.entries) }
{
    let tree = plan.tree();
    let mut leaves = Vec::new(alloc);
    for at in 0..tree.len() {
        leaves.push(tree.is_leaf(NodeId(at + 1)))?;
    }
    Ok(leaves)
}

/// Whether each node is a member after each of its changes.
fn members_of(alloc: Global, plan: &Plan) -> Result<Vec<Vec<bool>>, AllocError>
    ensures { IfOk result (λ rows. rows_of rows.items
        ≡ map (members_of plan.now) (node_numbers plan.now)) }
{
    let mut rows = Vec::new(alloc);
    for at in 0..plan.tree().len() {
        rows.push(members_row(alloc, plan, NodeId(at + 1))?)?;
    }
    Ok(rows)
}

/// Whether a node is a member after each of its changes; only a device makes any.
fn members_row(alloc: Global, plan: &Plan, node: NodeId) -> Result<Vec<bool>, AllocError>
    requires { node.0 ≤ length plan.now.nodes }
    ensures { IfOk result (λ row. row.items ≡ members_of plan.now node.0) }
{
    if plan.tree().is_leaf(node) {
        device_row(alloc, plan, node)
    } else {
        Ok(Vec::new(alloc))
    }
}

/// Whether a device is a member after each of its changes.
fn device_row(alloc: Global, plan: &Plan, device: NodeId) -> Result<Vec<bool>, AllocError>
    requires { is_leaf plan.now device.0 ≡ true }
    ensures { IfOk result (λ row. row.items ≡ members_of plan.now device.0) }
{
    let mut row = Vec::new(alloc);
    let mut member = false;
    for at in 0..change_count(plan, device) {
        let what = plan.planned(device, at + 1).unwrap();
        member = member_after(member, what);
        row.push(member)?;
    }
    Ok(row)
}

/// Whether a device is a member after a change.
fn member_after(before: bool, what: Planned) -> bool
    ensures { result ≡ member_after before what }
{
    match what {
        Planned::Join => true,
        Planned::Leave => false,
        Planned::Set { .. } | Planned::Tick { .. } => before,
    }
}

/// How many changes a device makes.
fn change_count(plan: &Plan, device: NodeId) -> u32
    requires { is_leaf plan.now device.0 ≡ true }
    ensures { result ≡ change_count plan.now device.0 }
{
    let mut count = 0;
    for phase in 1..plan.phases() + 1 {
        count += plan.changes_of(phase, device);
    }
    count
}

/// For each phase the number of changes of each node at its end.
fn ends_of(alloc: Global, plan: &Plan) -> Result<Vec<Vec<u32>>, AllocError>
    ensures { IfOk result (λ rows. rows_of rows.items
        ≡ map (λ p. map (end_cut plan.now p) (node_numbers plan.now))
        (range_with_len 1 (phases plan.now))) }
{
    let mut rows = Vec::new(alloc);
    let mut before = no_changes(alloc, plan.tree().len() as usize)?;
    for at in 0..plan.phases() {
        let row = ends_row(alloc, plan, at + 1, &before)?;
        before = Vec::from_slice(alloc, &row)?;
        rows.push(row)?;
    }
    Ok(rows)
}

fn no_changes(alloc: Global, many: usize) -> Result<Vec<u32>, AllocError>
    ensures { IfOk result (λ counts. counts.items ≡ replicate many 0) }
{
    vec![in alloc; 0; many]
}

/// The number of changes of each node at the end of a phase, if `before` has those at the end of the phase before.
fn ends_row(alloc: Global, plan: &Plan, phase: u32, before: &[u32]) -> Result<Vec<u32>, AllocError>
    requires first { 1 ≤ phase }
    requires last { phase ≤ phases plan.now }
    requires before { before.now ≡ map (end_cut plan.now (phase - 1)) (node_numbers plan.now) }
    ensures { IfOk result (λ row. row.items ≡ map (end_cut plan.now phase)
        (node_numbers plan.now)) }
{
    let mut row = Vec::new(alloc);
    for at in 0..plan.tree().len() {
        let made = phase_changes(plan, phase, NodeId(at + 1));
        row.push(before[at as usize] + made)?;
    }
    Ok(row)
}

/// How many changes a node makes in a phase; only a device makes any.
fn phase_changes(plan: &Plan, phase: u32, node: NodeId) -> u32
    requires first { 1 ≤ phase }
    requires last { phase ≤ phases plan.now }
    requires node { node.0 ≤ length plan.now.nodes }
    ensures { result ≡ end_cut plan.now phase node.0 - end_cut plan.now (phase - 1) node.0 }
{
    if plan.tree().is_leaf(node) {
        plan.changes_of(phase, node)
    } else {
        0
    }
}
