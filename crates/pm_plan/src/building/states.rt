//! Takes a state that a file writes, and makes the bid that it gives a manual device.

ghost use Rattle.std.specs.Prelude.{◌≡◌, ◌+◌, ◌<◌, ◌≤◌, ◌^◌, length, OnOk};
ghost use Rattle.pm_bid.specs.Checks.{checked_bid};
ghost use Rattle.pm_points.specs.Checks.{checked_points};
ghost use Rattle.pm_plan.specs.Parts.{state_part};
ghost use Rattle.pm_plan.specs.Building.{item_of_bid, item_of_points, array_or_refuse, points_or_refuse, manual_bid, manual_state, is_manual, state_of};
ghost use Rattle.pm_plan.specs.Refusals.{MakesValue, refusal_in};
ghost use Rattle.pm_base.specs.Outcomes.{Gives};

use crate::draft::Draft;
use crate::parts::StateSpec;
use crate::refusal::{Cause, Place, PlanFault, Refusal};
use pm_basis::Basis;
use pm_bid::{ArrayBid, BidFault, uncounted};
use pm_device::{DeviceState, Kind};
use pm_points::{PointBid, PointFault};
use std::alloc::Global;

/// The number of the state that is written for a device of this kind. A manual device's bid joins the arrays.
#[tactic(auto, unfolding(crate::specs::Building::state_of))]
pub(crate) fn take_state(
    alloc: Global,
    draft: &mut Draft,
    place: Place,
    kind: Kind,
    spec: &StateSpec,
) -> Result<i64, PlanFault>
    requires few { length draft.old.arrays < 2 ^ 63 }
    ensures made { MakesValue result draft.new
        (state_of place kind draft.old (state_part spec.now)) }
    ensures nodes { OnOk result (draft.new.nodes ≡ draft.old.nodes) }
    ensures entries { OnOk result (draft.new.entries ≡ draft.old.entries) }
    ensures arrays { OnOk result (length draft.new.arrays ≤ length draft.old.arrays + 1) }
{
    if is_manual(kind) {
        return take_manual(alloc, draft, place, spec);
    }
    match spec {
        StateSpec::Number(number) => {
            if kind.fits(DeviceState(*number)) {
                Ok(*number)
            } else {
                Err(PlanFault::Refused(Refusal::at(Cause::UnfitState, place)))
            }
        }
        StateSpec::Array(_) | StateSpec::Points(_) => {
            Err(PlanFault::Refused(Refusal::at(Cause::UnfitState, place)))
        }
    }
}

/// Whether a device of this kind is manual.
fn is_manual(kind: Kind) -> bool
    ensures { result ≡ is_manual kind }
{
    match kind {
        Kind::Manual => true,
        _ => false,
    }
}

/// The number of a manual device's bid, which joins the arrays.
#[tactic(auto, unfolding(crate::specs::Building::manual_state))]
fn take_manual(
    alloc: Global,
    draft: &mut Draft,
    place: Place,
    spec: &StateSpec,
) -> Result<i64, PlanFault>
    requires few { length draft.old.arrays < 2 ^ 63 }
    ensures made { MakesValue result draft.new
        (manual_state place draft.old (state_part spec.now)) }
    ensures nodes { OnOk result (draft.new.nodes ≡ draft.old.nodes) }
    ensures entries { OnOk result (draft.new.entries ≡ draft.old.entries) }
    ensures arrays { OnOk result (length draft.new.arrays ≤ length draft.old.arrays + 1) }
{
    let bid = manual_bid(alloc, &draft.basis, place, spec)?;
    Ok(draft.push_array(bid)?)
}

/// The bid that is written for a manual device.
fn manual_bid(
    alloc: Global,
    basis: &Basis,
    place: Place,
    spec: &StateSpec,
) -> Result<ArrayBid, PlanFault>
    ensures { Gives refusal_in (λ bid. bid) result
        (manual_bid place basis.now (state_part spec.now)) }
{
    match spec {
        StateSpec::Number(_) => Err(PlanFault::Refused(Refusal::at(Cause::UnfitState, place))),
        StateSpec::Array(demands) => bid_of_demands(alloc, basis, place, demands),
        StateSpec::Points(points) => bid_of_points(alloc, basis, place, points),
    }
}

/// The bid of a demand for each step.
fn bid_of_demands(
    alloc: Global,
    basis: &Basis,
    place: Place,
    demands: &[i64],
) -> Result<ArrayBid, PlanFault>
    ensures { Gives refusal_in (λ bid. bid) result
        (array_or_refuse place (checked_bid basis.now.steps demands.now)) }
{
    let demands = demands.to_vec(alloc)?;
    match ArrayBid::new(demands, basis.steps(), &mut uncounted()) {
        Ok(bid) => Ok(bid),
        Err(fault) => Err(PlanFault::Refused(refused_bid(place, fault))),
    }
}

/// The bid of points.
fn bid_of_points(
    alloc: Global,
    basis: &Basis,
    place: Place,
    points: &[(i64, i64)],
) -> Result<ArrayBid, PlanFault>
    ensures { Gives refusal_in (λ bid. bid) result
        (points_or_refuse basis.now place (checked_points basis.now points.now)) }
{
    let points = points.to_vec(alloc)?;
    match PointBid::new(points, basis) {
        Ok(bid) => Ok(bid.to_array(basis)?),
        Err(fault) => Err(PlanFault::Refused(refused_points(place, fault))),
    }
}

/// The refusal of demands: the item is the length that was wrong, else the first step at fault.
fn refused_bid(place: Place, fault: BidFault) -> Refusal
    ensures { result ≡ record { code = 17; place = place; item = Some (item_of_bid fault) } }
{
    let item = match fault {
        BidFault::WrongLength { have } => have,
        BidFault::Rising { at } | BidFault::TooLarge { at } => at,
    };
    Refusal::of_item(Cause::BadArray, place, item as u64)
}

/// The refusal of points. The item is 0 if there are no points, their number if there are too many, otherwise the
/// first point at fault.
fn refused_points(place: Place, fault: PointFault) -> Refusal
    ensures { result ≡ record { code = 18; place = place; item = Some (item_of_points fault) } }
{
    let item = match fault {
        PointFault::NoPoints => 0,
        PointFault::TooMany { have } => have,
        PointFault::PriceFalls { at }
        | PointFault::Rising { at }
        | PointFault::TooLarge { at }
        | PointFault::PriceOutside { at } => at,
    };
    Refusal::of_item(Cause::BadPoints, place, item as u64)
}
