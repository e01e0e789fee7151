//! The tables of members: what each object of a cluster file must have.

ghost use Rattle.std.specs.Prelude.{◌≡◌, map};
ghost use Rattle.serde_json.specs.View.{view};
ghost use Rattle.pm_scene.specs.Members.{row_of};
ghost use Rattle.pm_scene.specs.Forms.{value_form};
ghost use Rattle.pm_scene.specs.Rows.{document_row, basis_row, phase_row, event_row, state_row};

use crate::forms::{EventForm, PhaseForm, ValueForm, value_form};
use crate::members::{Form, Member};
use serde_json::Value;

const JOIN: Member = Member("join", Form::Text);

const LEAVE: Member = Member("leave", Form::Text);

const STATE: Member = Member("state", Form::Text);

const VERSION: Member = Member("version", Form::Whole);

const MIN: Member = Member("min", Form::Whole);

const MAX: Member = Member("max", Form::Whole);

const STEPS: Member = Member("steps", Form::Whole);

const TICK: Member = Member("tick", Form::Whole);

const VALUE: Member = Member("value", Form::Whole);

const NODES: Member = Member("nodes", Form::Array);

const PHASES: Member = Member("phases", Form::Array);

const EVENTS: Member = Member("events", Form::Array);

const BASIS: Member = Member("basis", Form::Object);

pub(crate) const DEMAND: Member = Member("demand", Form::Wholes);

pub(crate) const POINTS: Member = Member("points", Form::Pairs);

static DOCUMENT: [Member; 4] = [VERSION, BASIS, NODES, PHASES];

static PRICES: [Member; 3] = [MIN, MAX, STEPS];

static EVENTS_PHASE: [Member; 1] = [EVENTS];

static TICK_PHASE: [Member; 1] = [TICK];

static JOIN_EVENT: [Member; 1] = [JOIN];

static LEAVE_EVENT: [Member; 1] = [LEAVE];

static STATE_VALUE: [Member; 2] = [STATE, VALUE];

static STATE_DEMAND: [Member; 2] = [STATE, DEMAND];

static STATE_POINTS: [Member; 2] = [STATE, POINTS];

/// The members of a document.
pub(crate) fn document_row() -> &'static [Member]
    ensures { map row_of result.now ≡ document_row }
{
    &DOCUMENT
}

/// The members of a basis.
pub(crate) fn basis_row() -> &'static [Member]
    ensures { map row_of result.now ≡ basis_row }
{
    &PRICES
}

/// The members of a phase of a form.
pub(crate) fn phase_row(form: PhaseForm) -> &'static [Member]
    ensures { map row_of result.now ≡ phase_row form }
{
    match form {
        PhaseForm::Events => &EVENTS_PHASE,
        PhaseForm::Tick => &TICK_PHASE,
    }
}

/// The members of a state event, by the form of its value.
fn state_row(form: ValueForm) -> &'static [Member]
    ensures { map row_of result.now ≡ state_row form }
{
    match form {
        ValueForm::Value => &STATE_VALUE,
        ValueForm::Demand => &STATE_DEMAND,
        ValueForm::Points => &STATE_POINTS,
    }
}

/// The members of an event of a form.
pub(crate) fn event_row(form: EventForm, value: &Value) -> &'static [Member]
    ensures { map row_of result.now ≡ event_row form (view value.now) }
{
    match form {
        EventForm::Join => &JOIN_EVENT,
        EventForm::Leave => &LEAVE_EVENT,
        EventForm::State => state_row(value_form(value)),
    }
}
