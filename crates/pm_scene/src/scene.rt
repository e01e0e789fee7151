//! Reads a cluster file: the plan of its bytes, or the first refusal.

ghost use Rattle.std.specs.Prelude.{map};
ghost use Rattle.serde_json.specs.View.{view};
ghost use Rattle.pm_plan.specs.Building.{checked_plan};
ghost use Rattle.pm_plan.specs.Parts.{AreNodesOf, node_part, phase_part};
ghost use Rattle.pm_plan.specs.Refusals.{need, refusal_in};
ghost use Rattle.pm_plan.specs.declared.refusal.Place.TheVariants.{Document};
ghost use Rattle.pm_base.specs.Outcomes.{Gives};
ghost use Rattle.pm_scene.specs.Values.{json_value};
ghost use Rattle.pm_scene.specs.Shape.{shape_value};
ghost use Rattle.pm_scene.specs.Scene.{plan_of, scene};

use crate::shape::{Shape, read_shape};
use crate::tree::{parts_of, read_tree};
use pm_basis::Basis;
use pm_plan::{Cause, NodeSpec, PhaseSpec, Place, Plan, PlanFault, Refusal};
use pm_tree::Tree;
use serde_json::Value;
use std::alloc::Global;

/// The plan of a cluster file, or the first refusal that the three passes meet: the shape, the tree, the plan. Want of
/// memory may be answered at any file.
#[tactic(auto, unfolding(crate::specs::Scene::scene))]
pub fn read_scene(alloc: Global, bytes: &[u8]) -> Result<Plan, PlanFault>
    ensures scene { Gives refusal_in (λ p. p) result (scene bytes.now) }
{
    let document = read_document(alloc, bytes)?;
    let shape = read_shape(alloc, &document)?;
    make_plan(alloc, shape)
}

/// The value of the bytes.
fn read_document(alloc: Global, bytes: &[u8]) -> Result<Value, PlanFault>
    ensures { Gives refusal_in view result (need Cause.Unreadable Document (json_value bytes.now)) }
{
    match Value::from_slice(alloc, bytes) {
        Ok(value) => Ok(value),
        Err(error) => {
            if error.is_memory() {
                Err(PlanFault::NoMemory)
            } else {
                Err(PlanFault::Refused(Refusal::at(Cause::Unreadable, Place::Document)))
            }
        }
    }
}

/// The plan of a shape.
#[tactic(auto, unfolding(crate::specs::Scene::plan_of))]
fn make_plan(alloc: Global, shape: Shape) -> Result<Plan, PlanFault>
    ensures { Gives refusal_in (λ p. p) result (plan_of (shape_value shape)) }
{
    let parts = parts_of(alloc, shape.nodes)?;
    let tree = read_tree(alloc, parts.entries)?;
    plan_of_parts(alloc, shape.basis, tree, parts.specs, shape.phases)
}

/// The plan of its parts.
fn plan_of_parts(
    alloc: Global,
    basis: Basis,
    tree: Tree,
    nodes: Vec<NodeSpec>,
    phases: Vec<PhaseSpec>,
) -> Result<Plan, PlanFault>
    requires { AreNodesOf tree (map node_part nodes.items) }
    ensures { Gives refusal_in (λ p. p) result
        (checked_plan basis tree (map node_part nodes.items) (map phase_part phases.items)) }
{
    Ok(Plan::new(alloc, basis, tree, nodes, phases)?)
}
