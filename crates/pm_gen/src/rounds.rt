//! The phases of a demo: all devices join, then rounds of a tick and drawn leaves and joins.

ghost use Rattle.std.specs.Prelude.{◌≡◌, ℕ, ◌<◌, ◌≤◌, ◌+◌, ◌-◌, ◌++◌, [], ◌∷◌, List, pos, false, true, not};
ghost use Rattle.std.specs.Prelude.{if◌then◌else◌, length, map, replicate, slice_index_or, slice_set, IfOk, OnOk};
ghost use Rattle.std.specs.List.{range_with_len};
ghost use Rattle.pm_plan.specs.Parts.{event_part, phase_part, join as join_part, leave as leave_part, events as events_part, tick as tick_part};
ghost use Rattle.pm_gen.specs.Nodes.{device_name};
ghost use Rattle.pm_gen.specs.Rounds.{joined_flags, turns, round_len, round_picks, rounds, demo_phases, seed_after};

use crate::draws::Draws;
use crate::names::device_name;
use pm_plan::{EventSpec, PhaseSpec};
use std::alloc::{AllocError, Global};

/// The minutes of each tick.
const TICK_MINUTES: i64 = 15;

/// How many rounds follow the first phase.
const ROUNDS: u32 = 10;

/// The event by which a device joins.
fn join(alloc: Global, number: u32) -> Result<EventSpec, AllocError>
    ensures { IfOk result (λ event. event_part event ≡ join_part (device_name number)) }
{
    Ok(EventSpec::Join {
        device: device_name(alloc, number)?,
    })
}

/// The event by which a device leaves.
fn leave(alloc: Global, number: u32) -> Result<EventSpec, AllocError>
    ensures { IfOk result (λ event. event_part event ≡ leave_part (device_name number)) }
{
    Ok(EventSpec::Leave {
        device: device_name(alloc, number)?,
    })
}

/// The events by which all devices join in order.
fn join_all(alloc: Global, size: u32) -> Result<Vec<EventSpec>, AllocError>
    ensures { IfOk result (λ events. map event_part events.items
        ≡ map (λ i. join_part (device_name i)) (range_with_len 1 size)) }
{
    let mut events = Vec::new(alloc);
    for place in 0..size {
        events.push(join(alloc, place + 1)?)?;
    }
    Ok(events)
}

/// The event that turns a device round, which is at this place from 0: it leaves if it is joined, otherwise it joins.
fn turn_event(alloc: Global, members: &mut [bool], place: usize) -> Result<EventSpec, AllocError>
    requires inside { place < length members.old }
    requires few { length members.old ≤ 200 }
    ensures event { IfOk result (λ event. event_part event
        ≡ (if slice_index_or members.old place false then leave_part (device_name (1 + place))
        else join_part (device_name (1 + place)))) }
    ensures members { members.new ≡ slice_set members.old place
        (not (slice_index_or members.old place false)) }
{
    let is_joined = members[place];
    members[place] = !is_joined;
    let number = 1 + place as u32;
    if is_joined {
        leave(alloc, number)
    } else {
        join(alloc, number)
    }
}

/// The events of a round: each turns a drawn device round. `members` says whether device 1, 2, .. is joined.
fn turn_round(
    alloc: Global,
    draws: &mut Draws,
    members: &mut [bool],
) -> Result<Vec<EventSpec>, AllocError>
    requires some { 0 < length members.old }
    requires few { length members.old ≤ 200 }
    ensures events { (earlier : List ℕ) → members.old ≡ joined_flags (length members.old) earlier →
        IfOk result (λ events. map event_part events.items
        ≡ turns earlier (round_picks (length members.old) draws.old.seed)) }
    ensures members { (earlier : List ℕ) → members.old ≡ joined_flags (length members.old) earlier →
        OnOk result (members.new ≡ joined_flags (length members.old)
        (earlier ++ round_picks (length members.old) draws.old.seed)) }
    ensures seed { OnOk result (draws.new.seed ≡ seed_after
        (round_len (length members.old)) draws.old.seed) }
    ensures size { length members.new ≡ length members.old }
{
    let mut events = Vec::new(alloc);
    for _ in 0..members.len() / 10 + 1 {
        let place = draws.draw(members.len() as u32) as usize;
        events.push(turn_event(alloc, members, place)?)?;
    }
    Ok(events)
}

/// Adds a round: a tick, and then its events.
fn push_round(
    alloc: Global,
    draws: &mut Draws,
    members: &mut [bool],
    phases: &mut Vec<PhaseSpec>,
) -> Result<(), AllocError>
    requires some { 0 < length members.old }
    requires few { length members.old ≤ 200 }
    ensures phases { (earlier : List ℕ) → members.old ≡ joined_flags (length members.old) earlier →
        OnOk result (map phase_part phases.new.items ≡ map phase_part phases.old.items
        ++ tick_part (pos 15)
        ∷ events_part (turns earlier (round_picks (length members.old) draws.old.seed)) ∷ []) }
    ensures members { (earlier : List ℕ) → members.old ≡ joined_flags (length members.old) earlier →
        OnOk result (members.new ≡ joined_flags (length members.old)
        (earlier ++ round_picks (length members.old) draws.old.seed)) }
    ensures seed { OnOk result (draws.new.seed ≡ seed_after
        (round_len (length members.old)) draws.old.seed) }
    ensures size { length members.new ≡ length members.old }
{
    phases.push(PhaseSpec::Tick {
        minutes: TICK_MINUTES,
    })?;
    phases.push(PhaseSpec::Events(turn_round(alloc, draws, members)?))?;
    Ok(())
}

/// Adds all rounds, if all devices are joined.
fn push_rounds(
    alloc: Global,
    draws: &mut Draws,
    members: &mut [bool],
    phases: &mut Vec<PhaseSpec>,
) -> Result<(), AllocError>
    requires some { 0 < length members.old }
    requires few { length members.old ≤ 200 }
    requires joined { members.old ≡ joined_flags (length members.old)
        (range_with_len 1 (length members.old)) }
    ensures { OnOk result (map phase_part phases.new.items ≡ map phase_part phases.old.items
        ++ rounds 10 (length members.old) (range_with_len 1 (length members.old)) draws.old.seed) }
{
    for _ in 0..ROUNDS {
        push_round(alloc, draws, members, phases)?;
    }
    Ok(())
}

/// Flags of so many devices, all joined.
fn all_joined(alloc: Global, size: u32) -> Result<Vec<bool>, AllocError>
    ensures { IfOk result (λ members. members.items ≡ replicate size true) }
{
    Ok(vec![in alloc; true; size as usize]?)
}

/// The phases of a cluster of so many devices.
#[tactic(auto, unfolding(crate::specs::Rounds::demo_phases))]
pub(crate) fn make_phases(
    alloc: Global,
    draws: &mut Draws,
    size: u32,
) -> Result<Vec<PhaseSpec>, AllocError>
    requires some { 0 < size }
    requires few { size ≤ 200 }
    ensures { IfOk result (λ phases. map phase_part phases.items
        ≡ demo_phases size draws.old.seed) }
{
    let mut members = all_joined(alloc, size)?;
    let mut phases = Vec::new(alloc);
    phases.push(PhaseSpec::Events(join_all(alloc, size)?))?;
    push_rounds(alloc, draws, &mut members, &mut phases)?;
    Ok(phases)
}
