//! Reads the shape of the whole document: version, basis, nodes and phases.

ghost use Rattle.std.specs.Prelude.{◌≡◌, MatchResult, Ok, Err};
ghost use Rattle.serde_json.specs.View.{view};
ghost use Rattle.serde_json.specs.Find.{get};
ghost use Rattle.pm_plan.specs.Refusals.{need, check, refusal_in};
ghost use Rattle.pm_plan.specs.declared.refusal.Place.TheVariants.{Document};
ghost use Rattle.pm_base.specs.Outcomes.{Gives};
ghost use Rattle.pm_scene.specs.Shape.{is_version, head_of, shape_of, shape_value};

use super::basis::read_basis;
use super::nodes::{NamedNode, read_nodes};
use super::phases::read_phases;
use crate::members::check_members;
use crate::rows::document_row;
use crate::values::{elements_at, whole_at};
use pm_basis::Basis;
use pm_plan::{Cause, PhaseSpec, Place, PlanFault, Refusal};
use serde_json::Value;
use std::alloc::Global;

/// What a file holds.
#[derive(Drop)]
pub(crate) struct Shape {
    pub(crate) basis: Basis,
    pub(crate) nodes: Vec<NamedNode>,
    pub(crate) phases: Vec<PhaseSpec>,
}

/// A member of the document.
fn member_at<'a>(value: &'a Value, name: &str) -> Result<&'a Value, Refusal>
    ensures { MatchResult result
        (λ v. need Cause.MissingMember Document (get name.now (view value.now)) ≡ Ok (view v.now))
        (λ e. need Cause.MissingMember Document (get name.now (view value.now)) ≡ Err e) }
{
    value
        .get(name)
        .ok_or(Refusal::at(Cause::MissingMember, Place::Document))
}

/// Refuses a version other than 1 and 2.
fn check_version(version: i64) -> Result<(), Refusal>
    ensures { result ≡ check Cause.UnknownVersion Document (is_version version) }
{
    if version == 1 || version == 2 {
        Ok(())
    } else {
        Err(Refusal::at(Cause::UnknownVersion, Place::Document))
    }
}

/// Checks the members and the version of a document, and gives its basis.
fn read_head(value: &Value) -> Result<Basis, PlanFault>
    ensures { Gives refusal_in (λ basis. basis) result (head_of (view value.now)) }
{
    check_members(value, document_row(), Place::Document)?;
    check_version(whole_at(value, "version"))?;
    read_basis(member_at(value, "basis")?)
}

/// The shape of a document.
#[tactic(auto, unfolding(crate::specs::Shape::shape_of))]
pub(crate) fn read_shape(alloc: Global, value: &Value) -> Result<Shape, PlanFault>
    ensures { Gives refusal_in shape_value result (shape_of (view value.now)) }
{
    let basis = read_head(value)?;
    let version = whole_at(value, "version");
    let nodes = read_nodes(alloc, version == 2, elements_at(value, "nodes"))?;
    let phases = read_phases(alloc, elements_at(value, "phases"))?;
    Ok(Shape {
        basis,
        nodes,
        phases,
    })
}
