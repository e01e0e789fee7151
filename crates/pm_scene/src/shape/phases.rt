//! Reads the phases of a file: their events and ticks.

ghost use Rattle.std.specs.Prelude.{◌≡◌, map, IfOk};
ghost use Rattle.serde_json.specs.View.{view};
ghost use Rattle.pm_plan.specs.Parts.{state_part, event_part, phase_part};
ghost use Rattle.pm_base.specs.Outcomes.{Gives};
ghost use Rattle.pm_plan.specs.Refusals.{refusal_in};
ghost use Rattle.pm_scene.specs.Phases.{value_in, event_in, events_of, phase_in, phases_of, event_shape, phase_shape};

use super::states::{read_demand, read_points};
use crate::forms::{EventForm, PhaseForm, ValueForm, event_form, phase_form, value_form};
use crate::members::check_members;
use crate::rows::{event_row, phase_row};
use crate::values::{elements_at, text_at, whole_at};
use pm_plan::{EventSpec, PhaseSpec, Place, PlanFault, StateSpec};
use serde_json::Value;
use std::alloc::{AllocError, Global};

/// The state that an event sets.
fn read_value(alloc: Global, form: ValueForm, value: &Value) -> Result<StateSpec, AllocError>
    ensures { IfOk result (λ s. state_part s ≡ value_in form (view value.now)) }
{
    match form {
        ValueForm::Value => Ok(StateSpec::Number(whole_at(value, "value"))),
        ValueForm::Demand => read_demand(alloc, value),
        ValueForm::Points => read_points(alloc, value),
    }
}

/// What an event of a form says.
fn read_spec(alloc: Global, form: EventForm, value: &Value) -> Result<EventSpec, AllocError>
    ensures { IfOk result (λ e. event_part e ≡ event_in form (view value.now)) }
{
    match form {
        EventForm::Join => Ok(EventSpec::Join {
            device: String::from_str(alloc, text_at(value, "join"))?,
        }),
        EventForm::Leave => Ok(EventSpec::Leave {
            device: String::from_str(alloc, text_at(value, "leave"))?,
        }),
        EventForm::State => Ok(EventSpec::State {
            device: String::from_str(alloc, text_at(value, "state"))?,
            value: read_value(alloc, value_form(value), value)?,
        }),
    }
}

/// An event of the file.
#[tactic(auto, unfolding(crate::specs::Phases::event_shape))]
fn read_event(alloc: Global, phase: u32, number: u32, value: &Value) -> Result<EventSpec, PlanFault>
    ensures { Gives refusal_in event_part result
        (event_shape (Place.Event phase number) (view value.now)) }
{
    let place = Place::Event { phase, number };
    let form = event_form(value);
    check_members(value, event_row(form, value), place)?;
    Ok(read_spec(alloc, form, value)?)
}

/// The events of a phase, counted from 1.
fn read_events(alloc: Global, phase: u32, values: &[Value]) -> Result<Vec<EventSpec>, PlanFault>
    ensures { Gives refusal_in (λ v. map event_part v.items) result
        (events_of phase (map view values.now)) }
{
    let mut events = Vec::new(alloc);
    let mut number: u32 = 0;
    for value in values {
        number = number.saturating_add(1);
        events.push(read_event(alloc, phase, number, value)?)?;
    }
    Ok(events)
}

/// What a phase of a form holds.
#[tactic(auto, unfolding(crate::specs::Phases::phase_in))]
fn read_form(
    alloc: Global,
    phase: u32,
    form: PhaseForm,
    value: &Value,
) -> Result<PhaseSpec, PlanFault>
    ensures { Gives refusal_in phase_part result (phase_in phase form (view value.now)) }
{
    match form {
        PhaseForm::Tick => Ok(PhaseSpec::Tick {
            minutes: whole_at(value, "tick"),
        }),
        PhaseForm::Events => {
            let events = read_events(alloc, phase, elements_at(value, "events"))?;
            Ok(PhaseSpec::Events(events))
        }
    }
}

/// A phase of the file.
#[tactic(auto, unfolding(crate::specs::Phases::phase_shape))]
fn read_phase(alloc: Global, number: u32, value: &Value) -> Result<PhaseSpec, PlanFault>
    ensures { Gives refusal_in phase_part result (phase_shape number (view value.now)) }
{
    let form = phase_form(value);
    check_members(value, phase_row(form), Place::Phase { number })?;
    read_form(alloc, number, form, value)
}

/// The phases of the file, counted from 1.
pub(super) fn read_phases(alloc: Global, values: &[Value]) -> Result<Vec<PhaseSpec>, PlanFault>
    ensures { Gives refusal_in (λ v. map phase_part v.items) result
        (phases_of (map view values.now)) }
{
    let mut phases = Vec::new(alloc);
    let mut number: u32 = 0;
    for value in values {
        number = number.saturating_add(1);
        phases.push(read_phase(alloc, number, value)?)?;
    }
    Ok(phases)
}
