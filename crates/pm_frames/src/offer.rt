//! Reads what a device's control offers: the power at each step, points, or a state.

ghost use Rattle.std.specs.Prelude.{◌≡◌, ◌+◌, ◌*◌, ◌∷◌, [], length, IfOk, IsTrue, Some};
ghost use Rattle.std.specs.List.{AllByRecursion};
ghost use Rattle.pm_io.specs.Causes.{HasCause};
ghost use Rattle.pm_base.specs.Limits.{AreSteps};
ghost use Rattle.pm_basis.specs.Prices.{IsBasis};
ghost use Rattle.pm_bid.specs.Checks.{checked_bid};
ghost use Rattle.pm_device.specs.Kinds.{is_valid, state_fits};
ghost use Rattle.pm_points.specs.Points.{array_of_points};
ghost use Rattle.pm_points.specs.Checks.{checked_points};
ghost use Rattle.pm_strategy.specs.Strategies.{bid_of};
ghost use Rattle.pm_wire.specs.Spelling.{IsOne};
ghost use Rattle.pm_frames.specs.Kinds.{offer_kind, state_kind};
ghost use Rattle.pm_frames.specs.Places.{basis_at, steps_at, IsOpen, IsNodePlace};
ghost use Rattle.pm_frames.specs.Offers.{IsOffer};
ghost use Rattle.pm_frames.specs.OfferForms.{point_list_bytes, points_size, PointFits, IsPointBidOf};
ghost use Rattle.pm_frames.specs.DeviceFrames.{device_framing};

use crate::device::DeviceFrame;
use crate::form::OfferForm;
use crate::kinds::POINTS;
use crate::place::{NodePlace, Stage};
use pm_basis::Basis;
use pm_bid::{ArrayBid, uncounted};
use pm_device::{DeviceState, Kind};
use pm_io::Memory;
use pm_points::PointBid;
use pm_strategy::fill_bid;
use pm_wire::{read_demands, read_i32, zero_bid};
use std::alloc::AllocError;

/// The most points of an offer.
const MOST_POINTS: u8 = 64;

/// How many bytes a frame of this kind has, if it is of points.
pub(crate) fn size_points(kind: u8) -> Option<usize>
    ensures { result ≡ points_size kind }
{
    if kind <= POINTS {
        return None;
    }
    if kind > POINTS + MOST_POINTS {
        return None;
    }
    Some(1 + 8 * usize::from(kind - POINTS))
}

/// The bid of the demands that the bytes are, or None where they are no bid of so many steps.
pub(crate) fn read_offered<M: Memory>(
    memory: &mut M,
    steps: usize,
    bytes: &[u8],
) -> Result<Option<ArrayBid>, AllocError>
    requires steps { AreSteps steps }
    requires size { length bytes.now ≡ 4 * steps }
    ensures one { IfOk result (IsOffer steps bytes.now) }
    ensures cause { HasCause (M.refusals memory.old) (M.refusals memory.new) result }
{
    let demands = read_demands(memory, steps, bytes)?;
    match ArrayBid::new(demands, steps, &mut uncounted()) {
        Ok(demand) => Ok(Some(demand)),
        Err(_) => Ok(None),
    }
}

/// Reads the fields of Offer.
pub(crate) fn read_offer<M: Memory>(
    memory: &mut M,
    place: NodePlace,
    body: &[u8],
) -> Result<Option<DeviceFrame>, AllocError>
    requires place { IsNodePlace place }
    requires open { IsOpen place.stage }
    requires size { length body.now ≡ 4 * steps_at place.stage }
    ensures one { IfOk result (IsOne device_framing place (offer_kind ∷ body.now)) }
    ensures cause { HasCause (M.refusals memory.old) (M.refusals memory.new) result }
{
    match read_offered(memory, place.stage.steps(), body)? {
        Some(demand) => Ok(Some(DeviceFrame::Offer {
            form: OfferForm::Array,
            demand,
        })),
        None => Ok(None),
    }
}

/// The points that the bytes are, eight bytes each.
fn read_point_list<M: Memory>(
    memory: &mut M,
    count: usize,
    bytes: &[u8],
) -> Result<Vec<(i64, i64)>, AllocError>
    requires { length bytes.now ≡ 8 * count }
    ensures bytes { IfOk result (λ points. bytes.now ≡ point_list_bytes points.items) }
    ensures fit { IfOk result (λ points. AllByRecursion PointFits points.items) }
    ensures count { IfOk result (λ points. length points.items ≡ count) }
    ensures cause { HasCause (M.refusals memory.old) (M.refusals memory.new) result }
{
    let mut points = memory.list(count)?;
    let mut rest = bytes;
    for _point in 0..count {
        let (price, middle) = read_i32(rest);
        let (demand, after) = read_i32(middle);
        let Ok(()) = points.push((price, demand)) else {
            unreachable!()
        };
        rest = after;
    }
    Ok(points)
}

/// Makes the array that of a point bid over a basis: the demand at the price of each step.
fn fill_array(bid: &PointBid, basis: &Basis, array: &mut ArrayBid)
    requires steps { length array.old ≡ basis.now.steps }
    ensures array { array.new ≡ array_of_points bid.now basis.now }
    ensures sound { IsBasis basis.now }
{
    let steps = basis.steps();
    let mut counter = uncounted();
    for step in 0..steps {
        let demand = bid.demand_at(basis.price(step));
        array.set(step, demand, &mut counter);
    }
}

/// The array of a point bid over a basis, which is a bid.
fn array_of<M: Memory>(
    memory: &mut M,
    bid: &PointBid,
    basis: &Basis,
) -> Result<ArrayBid, AllocError>
    requires { checked_points basis.now bid.now ≡ Ok bid.now }
    ensures array { IfOk result (λ array. array ≡ array_of_points bid.now basis.now) }
    ensures bid { IfOk result (λ array. checked_bid (length array) array ≡ Ok array) }
    ensures cause { HasCause (M.refusals memory.old) (M.refusals memory.new) result }
{
    let mut array = zero_bid(memory, basis.steps())?;
    fill_array(bid, basis, &mut array);
    Ok(array)
}

/// The point bid of these points over a basis, or None where they are none.
fn point_bid(points: Vec<(i64, i64)>, basis: &Basis) -> Option<PointBid>
    ensures { IsPointBidOf basis.now points.items result }
{
    match PointBid::new(points, basis) {
        Ok(bid) => Some(bid),
        Err(_) => None,
    }
}

/// The basis that Hello had.
fn basis_of(stage: Stage) -> Basis
    requires { IsOpen stage }
    ensures { basis_at stage ≡ Some result }
{
    match stage {
        Stage::Start => unreachable!(),
        Stage::Opened { basis } | Stage::Running { basis } => basis,
    }
}

/// Reads the fields of Points.
pub(crate) fn read_points<M: Memory>(
    memory: &mut M,
    place: NodePlace,
    kind: u8,
    body: &[u8],
) -> Result<Option<DeviceFrame>, AllocError>
    requires open { IsOpen place.stage }
    requires size { points_size kind ≡ Some (length body.now + 1) }
    ensures one { IfOk result (IsOne device_framing place (kind ∷ body.now)) }
    ensures cause { HasCause (M.refusals memory.old) (M.refusals memory.new) result }
{
    let basis = basis_of(place.stage);
    let listed = read_point_list(memory, usize::from(kind - POINTS), body)?;
    let Some(points) = point_bid(listed, &basis) else {
        return Ok(None);
    };
    let demand = array_of(memory, &points, &basis)?;
    Ok(Some(DeviceFrame::Offer {
        form: OfferForm::Points(points),
        demand,
    }))
}

/// The bid of a device of this kind in this state.
fn bid_in_state<M: Memory>(
    memory: &mut M,
    kind: &Kind,
    state: DeviceState,
    steps: usize,
) -> Result<ArrayBid, AllocError>
    requires valid { IsTrue (is_valid kind.now) }
    requires fits { IsTrue (state_fits kind.now state.0) }
    requires steps { AreSteps steps }
    ensures demand { IfOk result (λ demand. demand ≡ bid_of kind.now state.0 [] steps) }
    ensures bid { IfOk result (λ demand. checked_bid (length demand) demand ≡ Ok demand) }
    ensures cause { HasCause (M.refusals memory.old) (M.refusals memory.new) result }
{
    let mut demand = zero_bid(memory, steps)?;
    let arrays: [ArrayBid; 0] = [];
    fill_bid(kind, state, &arrays, &mut demand);
    Ok(demand)
}

/// Reads the fields of State.
pub(crate) fn read_state<M: Memory>(
    memory: &mut M,
    place: NodePlace,
    body: &[u8],
) -> Result<Option<DeviceFrame>, AllocError>
    requires place { IsNodePlace place }
    requires open { IsOpen place.stage }
    requires size { length body.now ≡ 4 }
    ensures one { IfOk result (IsOne device_framing place (state_kind ∷ body.now)) }
    ensures cause { HasCause (M.refusals memory.old) (M.refusals memory.new) result }
{
    let (number, _rest) = read_i32(body);
    let state = DeviceState(number);
    let Some(kind) = place.kind else {
        return Ok(None);
    };
    if !kind.fits(state) {
        return Ok(None);
    }
    let demand = bid_in_state(memory, &kind, state, place.stage.steps())?;
    Ok(Some(DeviceFrame::Offer {
        form: OfferForm::State(state),
        demand,
    }))
}
