//! Tests that a JSON object has exactly the members of its table, each of its form.

ghost use Rattle.std.specs.Prelude.{◌≡◌, map, string_bytes};
ghost use Rattle.std.specs.List.{list_all, list_any};
ghost use Rattle.std.specs.Str.{bytes_eq};
ghost use Rattle.std.specs.BTreeMap.{keys};
ghost use Rattle.serde_json.specs.View.{view, members_view};
ghost use Rattle.serde_json.specs.Data.{object as object_of};
ghost use Rattle.pm_scene.specs.Values.{has_member};
ghost use Rattle.pm_scene.specs.Members.{is_whole, is_pair, has_form, has_form_at, has_all, has_only, have_forms, members_check, row_of};

use crate::values::{elements, has_member, whole};
use pm_plan::{Cause, Place, Refusal};
use serde_json::{Map, Value};

/// What a member has to be.
#[derive(Clone, Copy)]
pub(crate) enum Form {
    /// A whole number.
    Whole,
    /// A text.
    Text,
    /// An array of any elements.
    Array,
    /// An object.
    Object,
    /// An array of whole numbers.
    Wholes,
    /// An array of arrays of exactly two whole numbers.
    Pairs,
}

/// A member that an object has to have: its name and its form.
#[derive(Clone, Copy)]
pub(crate) struct Member(pub(crate) &'static str, pub(crate) Form);

fn is_whole(value: &Value) -> bool
    ensures { result ≡ is_whole (view value.now) }
{
    whole(value).is_some()
}

fn is_pair(value: &Value) -> bool
    ensures { result ≡ is_pair (view value.now) }
{
    match elements(value) {
        [first, second] => is_whole(first) && is_whole(second),
        _ => false,
    }
}

fn each_whole(values: &[Value]) -> bool
    ensures { result ≡ list_all (λ v. is_whole (view v)) values.now }
{
    values.iter().all(|value| is_whole(value))
}

fn are_wholes(values: &[Value]) -> bool
    ensures { result ≡ list_all is_whole (map view values.now) }
{
    each_whole(values)
}

fn each_pair(values: &[Value]) -> bool
    ensures { result ≡ list_all (λ v. is_pair (view v)) values.now }
{
    values.iter().all(|value| is_pair(value))
}

fn are_pairs(values: &[Value]) -> bool
    ensures { result ≡ list_all is_pair (map view values.now) }
{
    each_pair(values)
}

fn has_form(form: Form, value: &Value) -> bool
    ensures { result ≡ has_form form (view value.now) }
{
    match form {
        Form::Whole => is_whole(value),
        Form::Text => value.as_str().is_some(),
        Form::Array => value.as_array().is_some(),
        Form::Object => value.as_object().is_some(),
        Form::Wholes => value.as_array().is_some() && are_wholes(elements(value)),
        Form::Pairs => value.as_array().is_some() && are_pairs(elements(value)),
    }
}

fn each_there(value: &Value, members: &[Member]) -> bool
    ensures { result ≡ list_all (λ m. has_member m.0.now (view value.now)) members.now }
{
    members.iter().all(|member| has_member(value, member.0))
}

/// Whether each listed member is there.
fn has_all(value: &Value, members: &[Member]) -> bool
    ensures { result ≡ has_all (map row_of members.now) (view value.now) }
{
    each_there(value, members)
}

fn is_listed(name: &str, members: &[Member]) -> bool
    ensures { result ≡ list_any (λ m. bytes_eq name.now m.0.now) members.now }
{
    members.iter().any(|member| name == member.0)
}

fn each_listed(object: &Map<String, Value>, members: &[Member]) -> bool
    ensures { result ≡ list_all (λ k. list_any (λ m. bytes_eq (string_bytes k) m.0.now) members.now)
        (keys object.now) }
{
    object.keys().all(|key| is_listed(key.as_str(), members))
}

/// Whether each member is listed.
fn has_only(object: &Map<String, Value>, members: &[Member]) -> bool
    ensures { result ≡ has_only (map row_of members.now)
        (object_of (members_view object.now.entries)) }
{
    each_listed(object, members)
}

/// Whether the member of a name has its form; yes if it is not there.
fn has_form_at(value: &Value, member: &Member) -> bool
    ensures { result ≡ has_form_at (row_of member.now) (view value.now) }
{
    match value.get(member.0) {
        Some(inner) => has_form(member.1, inner),
        None => true,
    }
}

fn each_of_form(value: &Value, members: &[Member]) -> bool
    ensures { result ≡ list_all (λ m. has_form_at (row_of m) (view value.now)) members.now }
{
    members.iter().all(|member| has_form_at(value, member))
}

/// Whether each listed member that is there has its form.
fn have_forms(value: &Value, members: &[Member]) -> bool
    ensures { result ≡ have_forms (map row_of members.now) (view value.now) }
{
    each_of_form(value, members)
}

/// Checks that the value is an object which has these members and no others, each of its form. The order of the
/// refusals: a listed member is missing, another one is there, one has the wrong form.
#[tactic(auto, unfolding(crate::specs::Members::members_check))]
pub(crate) fn check_members(value: &Value, members: &[Member], place: Place) -> Result<(), Refusal>
    ensures { result ≡ members_check (map row_of members.now) place (view value.now) }
{
    let Some(object) = value.as_object() else {
        return Err(Refusal::at(Cause::WrongType, place));
    };
    if !has_all(value, members) {
        return Err(Refusal::at(Cause::MissingMember, place));
    }
    if !has_only(object, members) {
        return Err(Refusal::at(Cause::UnknownMember, place));
    }
    if !have_forms(value, members) {
        return Err(Refusal::at(Cause::WrongType, place));
    }
    Ok(())
}
