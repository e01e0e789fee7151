//! The kinds of nodes: their names in the file, the members of each, and the kind of device that these give.

ghost use Rattle.std.specs.Prelude.{◌≡◌, map};
ghost use Rattle.serde_json.specs.View.{view};
ghost use Rattle.pm_scene.specs.Members.{row_of};
ghost use Rattle.pm_scene.specs.Kinds.{kind_named, manual_row, node_row, device_kind};

use crate::forms::{StartForm, start_form};
use crate::members::{Form, Member};
use crate::rows::{DEMAND, POINTS};
use crate::values::whole_at;
use pm_device::Kind;
use serde_json::Value;

/// The kind that a node's text names.
#[derive(Clone, Copy, PartialEq, Eq)]
pub(crate) enum KindName {
    Concentrator,
    Limited,
    Freezer,
    HeatPump,
    Cogeneration,
    Battery,
    Solar,
    Load,
    Objective,
    Manual,
}

/// The kind that a text names.
pub(crate) fn kind_named(text: &str) -> Option<KindName>
    ensures { result ≡ kind_named text.now }
{
    match text {
        "concentrator" => Some(KindName::Concentrator),
        "limited" => Some(KindName::Limited),
        "freezer" => Some(KindName::Freezer),
        "heat_pump" => Some(KindName::HeatPump),
        "cogeneration" => Some(KindName::Cogeneration),
        "battery" => Some(KindName::Battery),
        "solar" => Some(KindName::Solar),
        "load" => Some(KindName::Load),
        "objective" => Some(KindName::Objective),
        "manual" => Some(KindName::Manual),
        _ => None,
    }
}

const NAME: Member = Member("name", Form::Text);

const KIND: Member = Member("kind", Form::Text);

const PARENT: Member = Member("parent", Form::Text);

const FLOOR: Member = Member("floor", Form::Whole);

const CEILING: Member = Member("ceiling", Form::Whole);

const LOW: Member = Member("low", Form::Whole);

const HIGH: Member = Member("high", Form::Whole);

const POWER: Member = Member("power", Form::Whole);

const WARM: Member = Member("warm", Form::Whole);

const COOL: Member = Member("cool", Form::Whole);

const LOSS: Member = Member("loss", Form::Whole);

const GAIN: Member = Member("gain", Form::Whole);

const CAPACITY: Member = Member("capacity", Form::Whole);

const CHARGE: Member = Member("charge", Form::Whole);

const DISCHARGE: Member = Member("discharge", Form::Whole);

const SPREAD: Member = Member("spread", Form::Whole);

const START: Member = Member("start", Form::Whole);

static CONCENTRATOR: [Member; 3] = [NAME, KIND, PARENT];

static LIMITED: [Member; 5] = [NAME, KIND, PARENT, FLOOR, CEILING];

static FREEZER: [Member; 9] = [NAME, KIND, PARENT, LOW, HIGH, POWER, WARM, COOL, START];

static HEATER: [Member; 9] = [NAME, KIND, PARENT, LOW, HIGH, POWER, LOSS, GAIN, START];

static BATTERY: [Member; 8] = [
    NAME, KIND, PARENT, CAPACITY, CHARGE, DISCHARGE, SPREAD, START,
];

static PLAIN: [Member; 4] = [NAME, KIND, PARENT, START];

static OBJECTIVE: [Member; 3] = [NAME, KIND, START];

static MANUAL_DEMAND: [Member; 4] = [NAME, KIND, PARENT, DEMAND];

static MANUAL_POINTS: [Member; 4] = [NAME, KIND, PARENT, POINTS];

/// The members of a manual device, by the form of its start.
fn manual_row(form: StartForm) -> &'static [Member]
    ensures { map row_of result.now ≡ manual_row form }
{
    match form {
        StartForm::Demand => &MANUAL_DEMAND,
        StartForm::Points => &MANUAL_POINTS,
    }
}

/// The members of a node of a kind.
pub(crate) fn node_row(kind: KindName, value: &Value) -> &'static [Member]
    ensures { map row_of result.now ≡ node_row kind (view value.now) }
{
    match kind {
        KindName::Concentrator => &CONCENTRATOR,
        KindName::Limited => &LIMITED,
        KindName::Freezer => &FREEZER,
        KindName::HeatPump => &HEATER,
        KindName::Cogeneration => &HEATER,
        KindName::Battery => &BATTERY,
        KindName::Solar => &PLAIN,
        KindName::Load => &PLAIN,
        KindName::Objective => &OBJECTIVE,
        KindName::Manual => manual_row(start_form(value)),
    }
}

/// The kind of a device with its parameters.
pub(crate) fn device_kind(kind: KindName, value: &Value) -> Kind
    ensures { result ≡ device_kind kind (view value.now) }
{
    match kind {
        KindName::Freezer => Kind::Freezer {
            low: whole_at(value, "low"),
            high: whole_at(value, "high"),
            power: whole_at(value, "power"),
            warm: whole_at(value, "warm"),
            cool: whole_at(value, "cool"),
        },
        KindName::HeatPump => Kind::HeatPump {
            low: whole_at(value, "low"),
            high: whole_at(value, "high"),
            power: whole_at(value, "power"),
            loss: whole_at(value, "loss"),
            gain: whole_at(value, "gain"),
        },
        KindName::Cogeneration => Kind::Cogeneration {
            low: whole_at(value, "low"),
            high: whole_at(value, "high"),
            power: whole_at(value, "power"),
            loss: whole_at(value, "loss"),
            gain: whole_at(value, "gain"),
        },
        KindName::Battery => Kind::Battery {
            capacity: whole_at(value, "capacity"),
            charge: whole_at(value, "charge"),
            discharge: whole_at(value, "discharge"),
            spread: whole_at(value, "spread"),
        },
        KindName::Solar => Kind::Solar,
        KindName::Load => Kind::Load,
        KindName::Objective => Kind::Objective,
        KindName::Concentrator | KindName::Limited | KindName::Manual => Kind::Manual,
    }
}
