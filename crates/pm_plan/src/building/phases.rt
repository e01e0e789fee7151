//! Takes the phases of a file in order: lists of events and ticks.

ghost use Rattle.std.specs.Prelude.{◌≡◌, ◌+◌, ◌*◌, ◌<◌, ◌≤◌, ◌^◌, length, map, OnOk};
ghost use Rattle.pm_plan.specs.Parts.{phase_part};
ghost use Rattle.pm_plan.specs.Kept.{are_minutes};
ghost use Rattle.pm_plan.specs.Building.{add_phase, phase_of};
ghost use Rattle.pm_plan.specs.Refusals.{Makes};
ghost use Rattle.pm_base.specs.Outcomes.{fold_from};
ghost use Rattle.pm_base.specs.Limits.{most_phases, most_nodes, most_events};

use crate::building::events::add_events;
use crate::draft::Draft;
use crate::parts::PhaseSpec;
use crate::refusal::{Cause, Place, PlanFault, Refusal};
use pm_base::MOST_EVENTS;
use std::alloc::Global;

/// The most minutes of a tick, which are a day.
const MINUTES_LIMIT: i64 = 1440;

/// Takes the phases in order, from phase 1 on.
pub(crate) fn add_phases(
    alloc: Global,
    draft: &mut Draft,
    specs: &[PhaseSpec],
) -> Result<(), PlanFault>
    requires whole { length draft.old.nodes ≡ length draft.old.entries }
    requires few { length specs.now ≤ most_phases }
    requires arrays { length draft.old.arrays ≤ most_nodes }
    ensures { Makes result draft.new (fold_from 1 add_phase draft.old (map phase_part specs.now)) }
{
    let mut number = 0;
    for spec in specs {
        number += 1;
        add_phase(alloc, draft, number, spec)?;
    }
    Ok(())
}

/// Takes the phase with this number.
#[tactic(auto, unfolding(crate::specs::Building::add_phase))]
fn add_phase(
    alloc: Global,
    draft: &mut Draft,
    number: u32,
    spec: &PhaseSpec,
) -> Result<(), PlanFault>
    requires whole { length draft.old.nodes ≡ length draft.old.entries }
    requires few { length draft.old.arrays + most_events < 2 ^ 63 }
    ensures made { Makes result draft.new (add_phase number draft.old (phase_part spec.now)) }
    ensures entries { OnOk result (draft.new.entries ≡ draft.old.entries) }
    ensures nodes { OnOk result (length draft.new.nodes ≡ length draft.old.nodes) }
    ensures arrays { OnOk result (length draft.new.arrays ≤ length draft.old.arrays + most_events) }
{
    take_phase(alloc, draft, number, spec)?;
    if !draft.has_few_changes() {
        return Err(PlanFault::Refused(Refusal::at(Cause::RunTooLarge, Place::Phase { number })));
    }
    Ok(())
}

/// Takes the phase with this number, whatever the number of all changes after it.
#[tactic(auto, unfolding(crate::specs::Building::phase_of))]
fn take_phase(
    alloc: Global,
    draft: &mut Draft,
    number: u32,
    spec: &PhaseSpec,
) -> Result<(), PlanFault>
    requires whole { length draft.old.nodes ≡ length draft.old.entries }
    requires few { length draft.old.arrays + most_events < 2 ^ 63 }
    ensures made { Makes result draft.new (phase_of number draft.old (phase_part spec.now)) }
    ensures entries { OnOk result (draft.new.entries ≡ draft.old.entries) }
    ensures nodes { OnOk result (length draft.new.nodes ≡ length draft.old.nodes) }
    ensures arrays { OnOk result (length draft.new.arrays ≤ length draft.old.arrays + most_events) }
{
    let place = Place::Phase { number };
    match spec {
        PhaseSpec::Tick { minutes } => {
            if !are_minutes(*minutes) {
                return Err(PlanFault::Refused(Refusal::at(Cause::OutsideLimits, place)));
            }
            Ok(draft.tick(number, *minutes)?)
        }
        PhaseSpec::Events(events) => {
            if MOST_EVENTS < events.len() {
                return Err(PlanFault::Refused(Refusal::at(Cause::RunTooLarge, place)));
            }
            add_events(alloc, draft, number, events)?;
            Ok(draft.push_phase(None)?)
        }
    }
}

/// Whether a tick may have so many minutes.
fn are_minutes(minutes: i64) -> bool
    ensures { result ≡ are_minutes minutes }
{
    (1..=MINUTES_LIMIT).contains(&minutes)
}
