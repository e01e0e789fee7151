//! The forms that a file chooses among by its words and members, such as those of events and states.

ghost use Rattle.std.specs.Prelude.{◌≡◌};
ghost use Rattle.serde_json.specs.View.{view};
ghost use Rattle.pm_scene.specs.Forms.{start_form, phase_form, event_form, value_form};

use crate::values::has_member;
use serde_json::Value;

/// The form of a manual device's start.
#[derive(Clone, Copy)]
pub(crate) enum StartForm {
    Demand,
    Points,
}

/// The form of a phase.
#[derive(Clone, Copy)]
pub(crate) enum PhaseForm {
    Events,
    Tick,
}

/// The form of an event.
#[derive(Clone, Copy)]
pub(crate) enum EventForm {
    Join,
    Leave,
    State,
}

/// The form of a state event's value.
#[derive(Clone, Copy)]
pub(crate) enum ValueForm {
    Value,
    Demand,
    Points,
}

/// The form of a manual device's start: `demand` goes before `points`.
pub(crate) fn start_form(value: &Value) -> StartForm
    ensures { result ≡ start_form (view value.now) }
{
    if has_member(value, "demand") {
        StartForm::Demand
    } else if has_member(value, "points") {
        StartForm::Points
    } else {
        StartForm::Demand
    }
}

/// The form of a phase: `events` goes before `tick`.
pub(crate) fn phase_form(value: &Value) -> PhaseForm
    ensures { result ≡ phase_form (view value.now) }
{
    if has_member(value, "events") {
        PhaseForm::Events
    } else if has_member(value, "tick") {
        PhaseForm::Tick
    } else {
        PhaseForm::Events
    }
}

/// The form of an event: `join` goes before `leave`, and this before `state`.
pub(crate) fn event_form(value: &Value) -> EventForm
    ensures { result ≡ event_form (view value.now) }
{
    if has_member(value, "join") {
        EventForm::Join
    } else if has_member(value, "leave") {
        EventForm::Leave
    } else if has_member(value, "state") {
        EventForm::State
    } else {
        EventForm::Join
    }
}

/// The form of a state event's value: `value` goes before `demand`, and this before `points`.
pub(crate) fn value_form(value: &Value) -> ValueForm
    ensures { result ≡ value_form (view value.now) }
{
    if has_member(value, "value") {
        ValueForm::Value
    } else if has_member(value, "demand") {
        ValueForm::Demand
    } else if has_member(value, "points") {
        ValueForm::Points
    } else {
        ValueForm::Value
    }
}
