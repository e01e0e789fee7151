//! Takes the nodes of a file in order: devices, concentrators, and their limits.

ghost use Rattle.std.specs.Prelude.{◌≡◌, ◌+◌, ◌<◌, ◌≤◌, ◌^◌, length, map, OnOk};
ghost use Rattle.pm_tree.specs.Entries.{parents_of, leaves_of};
ghost use Rattle.pm_tree.specs.Shape.{IsTree};
ghost use Rattle.pm_plan.specs.Parts.{node_part};
ghost use Rattle.pm_plan.specs.Building.{add_node, are_limits};
ghost use Rattle.pm_plan.specs.Refusals.{Makes};
ghost use Rattle.pm_base.specs.Outcomes.{fold_from};
ghost use Rattle.pm_base.specs.Limits.{most_nodes};

use crate::building::states::take_state;
use crate::draft::Draft;
use crate::node::{Device, Node};
use crate::parts::NodeSpec;
use crate::refusal::{Cause, Place, PlanFault, Refusal};
use pm_base::{Limits, SUM_LIMIT};
use pm_device::DeviceState;
use pm_tree::NodeId;
use std::alloc::Global;

/// Takes the nodes in order, from node 1 on.
pub(crate) fn add_nodes(
    alloc: Global,
    draft: &mut Draft,
    specs: &[NodeSpec],
) -> Result<(), PlanFault>
    requires lawful { IsTree (parents_of draft.old.entries) (leaves_of draft.old.entries) }
    requires first { length draft.old.nodes ≡ 0 }
    requires one_each { length specs.now ≡ length draft.old.entries }
    requires few { length specs.now ≤ most_nodes }
    requires arrays { length draft.old.arrays ≡ 0 }
    ensures made { Makes result draft.new
        (fold_from 1 add_node draft.old (map node_part specs.now)) }
    ensures entries { OnOk result (draft.new.entries ≡ draft.old.entries) }
    ensures nodes { OnOk result (length draft.new.nodes ≡ length draft.new.entries) }
    ensures arrays { OnOk result (length draft.new.arrays ≤ most_nodes) }
{
    let mut number = 0;
    for spec in specs {
        number += 1;
        add_node(alloc, draft, number, spec)?;
    }
    Ok(())
}

/// Takes the node with this number, which is the next one.
#[tactic(auto, unfolding(crate::specs::Building::add_node))]
fn add_node(alloc: Global, draft: &mut Draft, number: u32, spec: &NodeSpec) -> Result<(), PlanFault>
    requires lawful { IsTree (parents_of draft.old.entries) (leaves_of draft.old.entries) }
    requires next { number ≡ length draft.old.nodes + 1 }
    requires inside { number ≤ length draft.old.entries }
    requires few { length draft.old.arrays < 2 ^ 63 }
    ensures made { Makes result draft.new (add_node number draft.old (node_part spec.now)) }
    ensures entries { OnOk result (draft.new.entries ≡ draft.old.entries) }
    ensures nodes { OnOk result (length draft.new.nodes ≡ length draft.old.nodes + 1) }
    ensures arrays { OnOk result (length draft.new.arrays ≤ length draft.old.arrays + 1) }
{
    let place = Place::Node { number };
    match spec {
        NodeSpec::Concentrator => Ok(draft.push_node(Node::Concentrator)?),
        NodeSpec::Limited { floor, ceiling } => {
            let limits = Limits {
                floor: *floor,
                ceiling: *ceiling,
            };
            if !are_limits(limits) {
                return Err(PlanFault::Refused(Refusal::at(Cause::OutsideLimits, place)));
            }
            if !draft.is_under_no_limit(NodeId(number)) {
                return Err(PlanFault::Refused(Refusal::at(Cause::LimitedTwice, place)));
            }
            Ok(draft.push_node(Node::Limited(limits))?)
        }
        NodeSpec::Device { kind, start } => {
            if !kind.valid() {
                return Err(PlanFault::Refused(Refusal::at(Cause::OutsideLimits, place)));
            }
            let state = take_state(alloc, draft, place, *kind, start)?;
            let device = Device::new(alloc, *kind, DeviceState(state));
            Ok(draft.push_node(Node::Device(device))?)
        }
    }
}

/// Whether these are a floor and a ceiling.
fn are_limits(limits: Limits) -> bool
    ensures { result ≡ are_limits limits }
{
    (-SUM_LIMIT..=0).contains(&limits.floor) && (0..=SUM_LIMIT).contains(&limits.ceiling)
}
