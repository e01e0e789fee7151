//! Reads the market basis of a file.

ghost use Rattle.serde_json.specs.View.{view};
ghost use Rattle.pm_base.specs.Outcomes.{Gives};
ghost use Rattle.pm_plan.specs.Refusals.{refusal_in};
ghost use Rattle.pm_scene.specs.Shape.{basis_of};

use crate::members::check_members;
use crate::rows::basis_row;
use crate::values::whole_at;
use pm_basis::Basis;
use pm_plan::{Cause, Place, PlanFault, Refusal};
use serde_json::Value;

/// The basis of the file.
#[tactic(auto, unfolding(crate::specs::Shape::basis_of))]
pub(super) fn read_basis(value: &Value) -> Result<Basis, PlanFault>
    ensures { Gives refusal_in (λ b. b) result (basis_of (view value.now)) }
{
    check_members(value, basis_row(), Place::Basis)?;
    let min = whole_at(value, "min");
    let max = whole_at(value, "max");
    let steps = whole_at(value, "steps");
    match Basis::new(min, max, steps) {
        Ok(basis) => Ok(basis),
        Err(_) => Err(PlanFault::Refused(Refusal::at(Cause::BadBasis, Place::Basis))),
    }
}
