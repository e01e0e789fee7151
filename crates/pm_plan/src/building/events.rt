//! Takes the joins, leaves and states of a phase, each checked against the plan so far.

ghost use Rattle.std.specs.Prelude.{◌≡◌, ◌+◌, ◌<◌, ◌≤◌, ◌^◌, true, length, map, OnOk, IfOk, IfSome};
ghost use Rattle.pm_plan.specs.Parts.{event_part, state_part, join, state, leave};
ghost use Rattle.pm_plan.specs.Plans.{node as planned_node, is_device};
ghost use Rattle.pm_plan.specs.Building.{add_event, event_of, device_named, member_named, stranger_named};
ghost use Rattle.pm_plan.specs.Refusals.{Makes};
ghost use Rattle.pm_base.specs.Outcomes.{fold_from};
ghost use Rattle.pm_base.specs.Limits.{most_events};

use crate::building::states::take_state;
use crate::draft::Draft;
use crate::parts::{EventSpec, StateSpec};
use crate::planned::Planned;
use crate::refusal::{Cause, Place, PlanFault, Refusal};
use pm_device::DeviceState;
use pm_tree::Tree;
use std::alloc::Global;

/// Takes the events of a phase in order, from event 1 on.
pub(crate) fn add_events(
    alloc: Global,
    draft: &mut Draft,
    phase: u32,
    specs: &[EventSpec],
) -> Result<(), PlanFault>
    requires whole { length draft.old.nodes ≡ length draft.old.entries }
    requires few { length specs.now ≤ most_events }
    requires arrays { length draft.old.arrays + most_events < 2 ^ 63 }
    ensures made { Makes result draft.new
        (fold_from 1 (add_event phase) draft.old (map event_part specs.now)) }
    ensures entries { OnOk result (draft.new.entries ≡ draft.old.entries) }
    ensures nodes { OnOk result (length draft.new.nodes ≡ length draft.old.nodes) }
    ensures arrays { OnOk result (length draft.new.arrays
        ≤ length draft.old.arrays + length specs.now) }
{
    let mut number = 0;
    for spec in specs {
        number += 1;
        add_event(alloc, draft, Place::Event { phase, number }, phase, spec)?;
    }
    Ok(())
}

/// Takes one event of a phase.
fn add_event(
    alloc: Global,
    draft: &mut Draft,
    place: Place,
    phase: u32,
    spec: &EventSpec,
) -> Result<(), PlanFault>
    requires whole { length draft.old.nodes ≡ length draft.old.entries }
    requires few { length draft.old.arrays < 2 ^ 63 }
    ensures made { Makes result draft.new (event_of place phase draft.old (event_part spec.now)) }
    ensures entries { OnOk result (draft.new.entries ≡ draft.old.entries) }
    ensures nodes { OnOk result (length draft.new.nodes ≡ length draft.old.nodes) }
    ensures arrays { OnOk result (length draft.new.arrays ≤ length draft.old.arrays + 1) }
{
    match spec {
        EventSpec::Join { device } => add_join(draft, place, phase, device.as_str()),
        EventSpec::State { device, value } => {
            add_state(alloc, draft, place, phase, device.as_str(), value)
        }
        EventSpec::Leave { device } => add_leave(draft, place, phase, device.as_str()),
    }
}

/// Takes the join of a device.
#[tactic(auto, unfolding(crate::specs::Building::event_of))]
fn add_join(draft: &mut Draft, place: Place, phase: u32, name: &str) -> Result<(), PlanFault>
    requires whole { length draft.old.nodes ≡ length draft.old.entries }
    ensures made { Makes result draft.new (event_of place phase draft.old (join name.now)) }
    ensures entries { draft.new.entries ≡ draft.old.entries }
    ensures nodes { length draft.new.nodes ≡ length draft.old.nodes }
    ensures arrays { draft.new.arrays ≡ draft.old.arrays }
{
    let device = stranger_named(draft, place, name)?;
    Ok(draft.plan(device, phase, Planned::Join)?)
}

/// Takes the leave of a device.
#[tactic(auto, unfolding(crate::specs::Building::event_of))]
fn add_leave(draft: &mut Draft, place: Place, phase: u32, name: &str) -> Result<(), PlanFault>
    requires whole { length draft.old.nodes ≡ length draft.old.entries }
    ensures made { Makes result draft.new (event_of place phase draft.old (leave name.now)) }
    ensures entries { draft.new.entries ≡ draft.old.entries }
    ensures nodes { length draft.new.nodes ≡ length draft.old.nodes }
    ensures arrays { draft.new.arrays ≡ draft.old.arrays }
{
    let device = member_named(draft, place, name)?;
    Ok(draft.plan(device, phase, Planned::Leave)?)
}

/// Takes the state that is set for a device.
#[tactic(auto, unfolding(crate::specs::Building::event_of))]
fn add_state(
    alloc: Global,
    draft: &mut Draft,
    place: Place,
    phase: u32,
    name: &str,
    value: &StateSpec,
) -> Result<(), PlanFault>
    requires whole { length draft.old.nodes ≡ length draft.old.entries }
    requires few { length draft.old.arrays < 2 ^ 63 }
    ensures made { Makes result draft.new
        (event_of place phase draft.old (state name.now (state_part value.now))) }
    ensures entries { OnOk result (draft.new.entries ≡ draft.old.entries) }
    ensures nodes { OnOk result (length draft.new.nodes ≡ length draft.old.nodes) }
    ensures arrays { OnOk result (length draft.new.arrays ≤ length draft.old.arrays + 1) }
{
    let device = member_named(draft, place, name)?;
    let kind = draft.kind(device);
    let number = take_state(alloc, draft, place, kind, value)?;
    let state = DeviceState(number);
    Ok(draft.plan(device, phase, Planned::Set { state })?)
}

/// The device of a name, which has to be a member.
#[tactic(auto, unfolding(crate::specs::Building::member_named))]
fn member_named(draft: &Draft, place: Place, name: &str) -> Result<u32, Refusal>
    requires { length draft.now.nodes ≡ length draft.now.entries }
    ensures device { result ≡ member_named place draft.now name.now }
    ensures planned { IfOk result (λ d. is_device (planned_node draft.now d) ≡ true) }
    ensures inside { IfOk result (λ d. (1 ≤ d) × (d ≤ length draft.now.nodes)) }
{
    let Some(device) = device_named(&draft.tree, name) else {
        return Err(Refusal::at(Cause::UnknownDevice, place));
    };
    if !draft.is_member(device) {
        return Err(Refusal::at(Cause::NotJoined, place));
    }
    Ok(device)
}

/// The device of a name, which has to be no member.
#[tactic(auto, unfolding(crate::specs::Building::stranger_named))]
fn stranger_named(draft: &Draft, place: Place, name: &str) -> Result<u32, Refusal>
    requires { length draft.now.nodes ≡ length draft.now.entries }
    ensures device { result ≡ stranger_named place draft.now name.now }
    ensures inside { IfOk result (λ d. (1 ≤ d) × (d ≤ length draft.now.nodes)) }
{
    let Some(device) = device_named(&draft.tree, name) else {
        return Err(Refusal::at(Cause::UnknownDevice, place));
    };
    if draft.is_member(device) {
        return Err(Refusal::at(Cause::JoinedAlready, place));
    }
    Ok(device)
}

/// The device of a name, if there is one.
fn device_named(tree: &Tree, name: &str) -> Option<u32>
    ensures device { result ≡ device_named tree.now name.now }
    ensures inside { IfSome result (λ d. (1 ≤ d) × (d ≤ length tree.now)) }
{
    let node = tree.find(name)?;
    if tree.is_leaf(node) {
        Some(node.0)
    } else {
        None
    }
}
