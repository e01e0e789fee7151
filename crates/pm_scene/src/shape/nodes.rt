//! Reads the nodes of a file: kinds, parameters, starts and parents.

ghost use Rattle.std.specs.Prelude.{◌≡◌, map, IfOk};
ghost use Rattle.serde_json.specs.View.{view};
ghost use Rattle.pm_plan.specs.Parts.{state_part, node_part};
ghost use Rattle.pm_base.specs.Outcomes.{Gives};
ghost use Rattle.pm_plan.specs.Refusals.{refusal_in};
ghost use Rattle.pm_scene.specs.Nodes.{kind_at, parent_in, node_of, nodes_of, named_part, manual_start, kind_part, start_part};

use super::states::{read_demand, read_points};
use crate::forms::{StartForm, start_form};
use crate::kinds::{KindName, device_kind, kind_named, node_row};
use crate::members::check_members;
use crate::values::{text_at, whole_at};
use pm_plan::{Cause, NodeSpec, Place, PlanFault, Refusal, StateSpec};
use serde_json::Value;
use std::alloc::{AllocError, Global};

/// A node with its name and the name of its parent.
#[derive(Drop)]
pub(crate) struct NamedNode {
    pub(crate) name: String,
    pub(crate) parent: String,
    pub(crate) spec: NodeSpec,
}

/// The start of a manual device.
fn read_manual_start(alloc: Global, form: StartForm, value: &Value) -> Result<StateSpec, AllocError>
    ensures { IfOk result (λ s. state_part s ≡ manual_start form (view value.now)) }
{
    match form {
        StartForm::Demand => read_demand(alloc, value),
        StartForm::Points => read_points(alloc, value),
    }
}

/// The start of a device.
fn read_start(alloc: Global, kind: KindName, value: &Value) -> Result<StateSpec, AllocError>
    ensures { IfOk result (λ s. state_part s ≡ start_part kind (view value.now)) }
{
    match kind {
        KindName::Manual => read_manual_start(alloc, start_form(value), value),
        _ => Ok(StateSpec::Number(whole_at(value, "start"))),
    }
}

/// What a node of a kind is.
fn read_spec(alloc: Global, kind: KindName, value: &Value) -> Result<NodeSpec, AllocError>
    ensures { IfOk result (λ s. node_part s ≡ kind_part kind (view value.now)) }
{
    match kind {
        KindName::Concentrator => Ok(NodeSpec::Concentrator),
        KindName::Limited => Ok(NodeSpec::Limited {
            floor: whole_at(value, "floor"),
            ceiling: whole_at(value, "ceiling"),
        }),
        _ => Ok(NodeSpec::Device {
            kind: device_kind(kind, value),
            start: read_start(alloc, kind, value)?,
        }),
    }
}

/// The kind that a node names, by whether limited concentrators are known.
#[tactic(auto, unfolding(crate::specs::Nodes::kind_at))]
fn read_kind(knows_limited: bool, place: Place, value: &Value) -> Result<KindName, Refusal>
    ensures { result ≡ kind_at knows_limited place (view value.now) }
{
    if value.as_object().is_none() {
        return Err(Refusal::at(Cause::WrongType, place));
    }
    let Some(member) = value.get("kind") else {
        return Err(Refusal::at(Cause::MissingMember, place));
    };
    let Some(text) = member.as_str() else {
        return Err(Refusal::at(Cause::WrongType, place));
    };
    let Some(kind) = kind_named(text) else {
        return Err(Refusal::at(Cause::UnknownKind, place));
    };
    if kind == KindName::Limited && !knows_limited {
        return Err(Refusal::at(Cause::UnknownKind, place));
    }
    Ok(kind)
}

/// The name of a node's parent.
fn parent_in(kind: KindName, value: &Value) -> &str
    ensures { result.now ≡ parent_in kind (view value.now) }
{
    if kind == KindName::Objective {
        "auctioneer"
    } else {
        text_at(value, "parent")
    }
}

/// A node of the file.
#[tactic(auto, unfolding(crate::specs::Nodes::node_of))]
fn read_node(
    alloc: Global,
    knows_limited: bool,
    place: Place,
    value: &Value,
) -> Result<NamedNode, PlanFault>
    ensures { Gives refusal_in named_part result (node_of knows_limited place (view value.now)) }
{
    let kind = read_kind(knows_limited, place, value)?;
    check_members(value, node_row(kind, value), place)?;
    let name = String::from_str(alloc, text_at(value, "name"))?;
    let parent = String::from_str(alloc, parent_in(kind, value))?;
    let spec = read_spec(alloc, kind, value)?;
    Ok(NamedNode { name, parent, spec })
}

/// The nodes of the file, counted from 1.
pub(super) fn read_nodes(
    alloc: Global,
    knows_limited: bool,
    values: &[Value],
) -> Result<Vec<NamedNode>, PlanFault>
    ensures { Gives refusal_in (λ v. map named_part v.items) result
        (nodes_of knows_limited (map view values.now)) }
{
    let mut nodes = Vec::new(alloc);
    let mut number: u32 = 0;
    for value in values {
        number = number.saturating_add(1);
        nodes.push(read_node(alloc, knows_limited, Place::Node { number }, value)?)?;
    }
    Ok(nodes)
}
