//! Reads the demand or the points of a manual device.

ghost use Rattle.std.specs.Prelude.{◌≡◌, IfOk};
ghost use Rattle.serde_json.specs.View.{view};
ghost use Rattle.pm_plan.specs.Parts.{state_part};
ghost use Rattle.pm_scene.specs.Nodes.{points_in, array_in};

use crate::values::{elements_at, pairs_of, wholes_of};
use pm_plan::StateSpec;
use serde_json::Value;
use std::alloc::{AllocError, Global};

/// The demand of an object.
pub(super) fn read_demand(alloc: Global, value: &Value) -> Result<StateSpec, AllocError>
    ensures { IfOk result (λ s. state_part s ≡ array_in (view value.now)) }
{
    let demands = wholes_of(alloc, elements_at(value, "demand"))?;
    Ok(StateSpec::Array(demands))
}

/// The points of an object.
pub(super) fn read_points(alloc: Global, value: &Value) -> Result<StateSpec, AllocError>
    ensures { IfOk result (λ s. state_part s ≡ points_in (view value.now)) }
{
    let points = pairs_of(alloc, elements_at(value, "points"))?;
    Ok(StateSpec::Points(points))
}
