//! Writes the frames of a node. The caller has made room for them, so no allocation fails.

ghost use Rattle.std.specs.Prelude.{◌≡◌, ◌+◌, ◌*◌, ◌≤◌, ◌<◌, ◌^◌, ◌++◌, length, vec_len, vec_capacity};
ghost use Rattle.std.specs.Prelude.{FitsSigned, IfSome};
ghost use Rattle.std.specs.Option.{option_copied};
ghost use Rattle.std.specs.Int.{w16, w32, to_be_bytes};
ghost use Rattle.pm_base.specs.Limits.{most_nodes, demand_limit};
ghost use Rattle.pm_bid.specs.Bids.{AllWithinLimit};
ghost use Rattle.pm_wire.specs.Answers.{answer_bytes};
ghost use Rattle.pm_relay.specs.Relays.{AreRelayLimits};
ghost use Rattle.pm_session.specs.Prices.{head_at};
ghost use Rattle.pm_wire.specs.Kinds.{bid_head_size, gone_size};
ghost use Rattle.pm_wire.specs.Frames.{frame_bytes, signed_bytes, demand_bytes};
ghost use Rattle.pm_wire.specs.declared.frame.Frame.{Frame};
ghost use Rattle.pm_frames.specs.Kinds.{price_size, dropped_size, too_much_size, other_basis_size, out_of_limits_size, setpoint_size};
ghost use Rattle.pm_frames.specs.Stored.{relay_resume_size, root_resume_size, number_bytes, relay_resume_bytes, root_resume_bytes, newest_bytes};
ghost use Rattle.pm_frames.specs.Answers.{window_full_bytes, not_caught_up_bytes, out_of_numbers_bytes, dropped_bytes, setpoint_bytes};
ghost use Rattle.pm_frames.specs.Answers.{too_much_bytes, other_basis_bytes, out_of_limits_bytes};
ghost use Rattle.pm_frames.specs.LimitsFrames.{limits_bytes};
ghost use Rattle.pm_frames.specs.NamedBases.{basis_bytes};
ghost use Rattle.pm_frames.specs.ParentFrames.{price_bytes, price_bytes_for, prices_bytes};
ghost use Rattle.pm_frames.specs.Terms.{giver_number};

use crate::kinds::{
    BID, DROPPED, GONE, NOT_CAUGHT_UP, OTHER_BASIS, OUT_OF_LIMITS, OUT_OF_NUMBERS, PRICE, RESUME,
    RESUME_GONE, SETPOINT, TOO_MUCH, WINDOW_FULL,
};
use crate::terms::RelayTerms;
use pm_base::Limits;
use pm_basis::Basis;
use pm_bid::{ArrayBid, uncounted};
use pm_control::{AgentResume, Setpoint};
use pm_relay::Resume;
use pm_session::{PriceUpdate, Prices};
use pm_wire::Reply;

/// Appends an answer that `serve` has too.
pub fn write_reply(reply: Reply, out: &mut Vec<u8>)
    requires room { vec_len out.old + length (answer_bytes reply) ≤ vec_capacity out.old }
    ensures written { out.new.items ≡ out.old.items ++ answer_bytes reply }
    ensures capacity { vec_capacity out.old ≤ vec_capacity out.new }
{
    let Ok(()) = reply.write(out) else {
        unreachable!()
    };
}

/// Appends these bytes.
fn append(bytes: &[u8], out: &mut Vec<u8>)
    requires room { vec_len out.old + length bytes.now ≤ vec_capacity out.old }
    ensures written { out.new.items ≡ out.old.items ++ bytes.now }
    ensures capacity { vec_capacity out.old ≤ vec_capacity out.new }
{
    let Ok(()) = out.extend_from_slice(bytes) else {
        unreachable!()
    };
}

/// Appends a field of two bytes.
fn write_u16(number: u16, out: &mut Vec<u8>)
    requires room { vec_len out.old + 2 ≤ vec_capacity out.old }
    ensures written { out.new.items ≡ out.old.items ++ to_be_bytes w16 number }
    ensures capacity { vec_capacity out.old ≤ vec_capacity out.new }
{
    append(&number.to_be_bytes(), out);
}

/// Appends a field of four bytes.
fn write_u32(number: u32, out: &mut Vec<u8>)
    requires room { vec_len out.old + 4 ≤ vec_capacity out.old }
    ensures written { out.new.items ≡ out.old.items ++ to_be_bytes w32 number }
    ensures capacity { vec_capacity out.old ≤ vec_capacity out.new }
{
    append(&number.to_be_bytes(), out);
}

/// Appends a power in watts, a signed field of four bytes.
fn write_i32(power: i64, out: &mut Vec<u8>)
    requires fits { FitsSigned w32 power }
    requires room { vec_len out.old + 4 ≤ vec_capacity out.old }
    ensures written { out.new.items ≡ out.old.items ++ signed_bytes power }
    ensures capacity { vec_capacity out.old ≤ vec_capacity out.new }
{
    let power = power as i32;
    append(&power.to_be_bytes(), out);
}

/// Appends a basis.
fn write_basis(basis: &Basis, out: &mut Vec<u8>)
    requires room { vec_len out.old + 10 ≤ vec_capacity out.old }
    ensures written { out.new.items ≡ out.old.items ++ basis_bytes basis.now }
    ensures capacity { vec_capacity out.old ≤ vec_capacity out.new }
{
    write_i32(basis.min(), out);
    write_i32(basis.max(), out);
    write_u16(basis.steps() as u16, out);
}

/// Appends a relay's limits.
fn write_limits(limits: &Limits, out: &mut Vec<u8>)
    requires small { AreRelayLimits limits.now }
    requires room { vec_len out.old + 8 ≤ vec_capacity out.old }
    ensures written { out.new.items ≡ out.old.items ++ limits_bytes limits.now }
    ensures capacity { vec_capacity out.old ≤ vec_capacity out.new }
{
    write_i32(limits.floor, out);
    write_i32(limits.ceiling, out);
}

/// Appends the numbers of the children.
fn write_numbers(numbers: &[u32], out: &mut Vec<u8>)
    requires room { vec_len out.old + 4 * length numbers.now ≤ vec_capacity out.old }
    ensures written { out.new.items ≡ out.old.items ++ number_bytes numbers.now }
    ensures capacity { vec_capacity out.old ≤ vec_capacity out.new }
{
    for number in numbers {
        write_u32(*number, out);
    }
}

/// Appends demands in watts, each within ±1,000,000,000.
fn write_demands(demand: &ArrayBid, out: &mut Vec<u8>)
    requires small { AllWithinLimit demand_limit demand.now }
    requires room { vec_len out.old + 4 * length demand.now ≤ vec_capacity out.old }
    ensures written { out.new.items ≡ out.old.items ++ demand_bytes demand.now }
    ensures capacity { vec_capacity out.old ≤ vec_capacity out.new }
{
    for step in 0..demand.steps() {
        write_i32(demand.at(step, &mut uncounted()), out);
    }
}

/// Appends the bid of a child: its number, and its demand in watts at each step.
pub fn write_bid(child: u16, number: u32, demand: &ArrayBid, out: &mut Vec<u8>)
    requires small { AllWithinLimit demand_limit demand.now }
    requires room { vec_len out.old + bid_head_size + 4 * length demand.now ≤ vec_capacity out.old }
    ensures written { out.new.items ≡ out.old.items
        ++ frame_bytes (Frame.Bid child number demand.now) }
    ensures capacity { vec_capacity out.old ≤ vec_capacity out.new }
{
    append(&[BID], out);
    write_u16(child, out);
    write_u32(number, out);
    write_demands(demand, out);
}

/// Appends that a child has no bid any more, under this number.
pub fn write_gone(child: u16, number: u32, out: &mut Vec<u8>)
    requires room { vec_len out.old + gone_size ≤ vec_capacity out.old }
    ensures written { out.new.items ≡ out.old.items ++ frame_bytes (Frame.Gone child number) }
    ensures capacity { vec_capacity out.old ≤ vec_capacity out.new }
{
    append(&[GONE], out);
    write_u16(child, out);
    write_u32(number, out);
}

/// Appends the price for a child: the number of its bid, the index of the clearing, and the step of the basis.
fn write_price(child: u16, price: PriceUpdate, basis: &Basis, out: &mut Vec<u8>)
    requires step { price.step < 2 ^ 16 }
    requires room { vec_len out.old + price_size ≤ vec_capacity out.old }
    ensures written { out.new.items ≡ out.old.items
        ++ price_bytes child price.number price.index price.step basis.now }
    ensures capacity { vec_capacity out.old ≤ vec_capacity out.new }
{
    append(&[PRICE], out);
    write_u16(child, out);
    write_u32(price.number, out);
    write_u32(price.index, out);
    write_u16(price.step as u16, out);
    write_basis(basis, out);
}

/// Appends the price for the child in a place, unless it is gone. In a frame the children count from 1.
fn write_price_for(clearing: &Prices<'_>, place: usize, basis: &Basis, out: &mut Vec<u8>)
    requires place { place < length clearing.now.heads.now }
    requires children { length clearing.now.heads.now + 1 < 2 ^ 16 }
    requires step { clearing.now.step < 2 ^ 16 }
    requires room { vec_len out.old + price_size ≤ vec_capacity out.old }
    ensures written { out.new.items ≡ out.old.items ++ price_bytes_for basis.now
        clearing.now.index clearing.now.step (place + 1) (head_at clearing.now.heads.now place) }
    ensures capacity { vec_capacity out.old ≤ vec_capacity out.new }
{
    if let Some(price) = clearing.for_child(place) {
        write_price((place + 1) as u16, price, basis, out);
    }
}

/// Appends the price for each child that is not gone, by their places. The step is one of this basis.
pub fn write_prices(clearing: &Prices<'_>, basis: &Basis, out: &mut Vec<u8>)
    requires children { length clearing.now.heads.now + 1 < 2 ^ 16 }
    requires step { clearing.now.step < 2 ^ 16 }
    requires room { vec_len out.old + price_size * length clearing.now.heads.now
        ≤ vec_capacity out.old }
    ensures written { out.new.items ≡ out.old.items ++ prices_bytes basis.now
        clearing.now.index clearing.now.step 1 clearing.now.heads.now }
    ensures capacity { vec_capacity out.old ≤ vec_capacity out.new }
{
    for place in 0..clearing.children() {
        write_price_for(clearing, place, basis, out);
    }
}

/// Appends what a relay of these terms keeps over a restart, in a market of this basis.
pub fn write_relay_resume(resume: &Resume<'_>, terms: &RelayTerms, basis: &Basis, out: &mut Vec<u8>)
    requires children { length resume.now.numbers.now ≡ most_nodes }
    requires limits { AreRelayLimits resume.now.limits }
    requires first { AreRelayLimits terms.now.limits }
    requires room { vec_len out.old + relay_resume_size ≤ vec_capacity out.old }
    ensures written { out.new.items ≡ out.old.items ++ relay_resume_bytes (record {
      last = resume.now.last;
      answered = resume.now.answered;
      index = resume.now.index;
      basis = basis.now;
      first = terms.now.limits;
      giver = giver_number terms.now.giver;
      limits = resume.now.limits;
      numbers = resume.now.numbers.now;
    }) }
    ensures capacity { vec_capacity out.old ≤ vec_capacity out.new }
{
    append(&[RESUME], out);
    write_u32(resume.last, out);
    write_u32(resume.answered, out);
    write_u32(resume.index, out);
    write_basis(basis, out);
    write_limits(&terms.limits, out);
    write_u16(terms.giver_number(), out);
    write_limits(&resume.limits, out);
    write_numbers(resume.numbers, out);
}

/// Appends what an auctioneer keeps over a restart, in a market of this basis.
pub fn write_root_resume(last: u32, basis: &Basis, numbers: &[u32], out: &mut Vec<u8>)
    requires children { length numbers.now ≡ most_nodes }
    requires room { vec_len out.old + root_resume_size ≤ vec_capacity out.old }
    ensures written { out.new.items ≡ out.old.items ++ root_resume_bytes (record {
      last = last;
      basis = basis.now;
      numbers = numbers.now;
    }) }
    ensures capacity { vec_capacity out.old ≤ vec_capacity out.new }
{
    append(&[RESUME], out);
    write_u32(last, out);
    write_basis(basis, out);
    write_numbers(numbers, out);
}

/// Appends what a device's agent keeps over a restart, in a market of this basis.
pub fn write_agent_resume(resume: &AgentResume<'_>, basis: &Basis, out: &mut Vec<u8>)
    requires small { IfSome (option_copied resume.now.newest)
        (λ demand. AllWithinLimit demand_limit demand) }
    requires room { vec_len out.old + length (newest_bytes resume.now.number resume.now.index
        basis.now (option_copied resume.now.newest)) ≤ vec_capacity out.old }
    ensures written { out.new.items ≡ out.old.items
        ++ newest_bytes resume.now.number resume.now.index basis.now
        (option_copied resume.now.newest) }
    ensures capacity { vec_capacity out.old ≤ vec_capacity out.new }
{
    match resume.newest {
        Some(demand) => {
            append(&[RESUME], out);
            write_u32(resume.number, out);
            write_u32(resume.index, out);
            write_basis(basis, out);
            write_demands(demand, out);
        }
        None => {
            append(&[RESUME_GONE], out);
            write_u32(resume.number, out);
            write_u32(resume.index, out);
            write_basis(basis, out);
        }
    }
}

/// Appends that a price was not taken.
pub fn write_dropped(number: u32, index: u32, out: &mut Vec<u8>)
    requires room { vec_len out.old + dropped_size ≤ vec_capacity out.old }
    ensures written { out.new.items ≡ out.old.items ++ dropped_bytes number index }
    ensures capacity { vec_capacity out.old ≤ vec_capacity out.new }
{
    append(&[DROPPED], out);
    write_u32(number, out);
    write_u32(index, out);
}

/// Appends that a child's Bid of this number is beyond its bound.
pub fn write_too_much(child: u16, number: u32, out: &mut Vec<u8>)
    requires room { vec_len out.old + too_much_size ≤ vec_capacity out.old }
    ensures written { out.new.items ≡ out.old.items ++ too_much_bytes child number }
    ensures capacity { vec_capacity out.old ≤ vec_capacity out.new }
{
    append(&[TOO_MUCH], out);
    write_u16(child, out);
    write_u32(number, out);
}

/// Appends that a price is of another basis.
pub fn write_other_basis(number: u32, index: u32, out: &mut Vec<u8>)
    requires room { vec_len out.old + other_basis_size ≤ vec_capacity out.old }
    ensures written { out.new.items ≡ out.old.items ++ other_basis_bytes number index }
    ensures capacity { vec_capacity out.old ≤ vec_capacity out.new }
{
    append(&[OTHER_BASIS], out);
    write_u32(number, out);
    write_u32(index, out);
}

/// Appends that no step of the sum in the relay's bid of this number is within its limits.
pub fn write_out_of_limits(number: u32, out: &mut Vec<u8>)
    requires room { vec_len out.old + out_of_limits_size ≤ vec_capacity out.old }
    ensures written { out.new.items ≡ out.old.items ++ out_of_limits_bytes number }
    ensures capacity { vec_capacity out.old ≤ vec_capacity out.new }
{
    append(&[OUT_OF_LIMITS], out);
    write_u32(number, out);
}

/// Appends the power in watts that a device's control is to take.
pub fn write_setpoint(setpoint: Setpoint, out: &mut Vec<u8>)
    requires step { setpoint.step < 2 ^ 16 }
    requires power { FitsSigned w32 setpoint.power }
    requires room { vec_len out.old + setpoint_size ≤ vec_capacity out.old }
    ensures written { out.new.items ≡ out.old.items
        ++ setpoint_bytes setpoint.number setpoint.index setpoint.step setpoint.power }
    ensures capacity { vec_capacity out.old ≤ vec_capacity out.new }
{
    append(&[SETPOINT], out);
    write_u32(setpoint.number, out);
    write_u32(setpoint.index, out);
    write_u16(setpoint.step as u16, out);
    write_i32(setpoint.power, out);
}

/// Appends that eight numbers are unanswered.
pub fn write_window_full(out: &mut Vec<u8>)
    requires room { vec_len out.old + 1 ≤ vec_capacity out.old }
    ensures written { out.new.items ≡ out.old.items ++ window_full_bytes }
    ensures capacity { vec_capacity out.old ≤ vec_capacity out.new }
{
    append(&[WINDOW_FULL], out);
}

/// Appends that some child was not heard again since the restart.
pub fn write_not_caught_up(out: &mut Vec<u8>)
    requires room { vec_len out.old + 1 ≤ vec_capacity out.old }
    ensures written { out.new.items ≡ out.old.items ++ not_caught_up_bytes }
    ensures capacity { vec_capacity out.old ≤ vec_capacity out.new }
{
    append(&[NOT_CAUGHT_UP], out);
}

/// Appends that no number is left.
pub fn write_out_of_numbers(out: &mut Vec<u8>)
    requires room { vec_len out.old + 1 ≤ vec_capacity out.old }
    ensures written { out.new.items ≡ out.old.items ++ out_of_numbers_bytes }
    ensures capacity { vec_capacity out.old ≤ vec_capacity out.new }
{
    append(&[OUT_OF_NUMBERS], out);
}
