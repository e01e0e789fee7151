//! Reads numbers, texts and lists out of JSON values.

ghost use Rattle.std.specs.Prelude.{◌≡◌, map, IfOk};
ghost use Rattle.serde_json.specs.View.{view};
ghost use Rattle.pm_scene.specs.Values.{whole, elements, has_member, whole_at, text_at, elements_at, whole_or_zero, wholes_of, pair_of, pairs_of};

use serde_json::Value;
use std::alloc::{AllocError, Global};

/// A whole number.
pub(crate) fn whole(value: &Value) -> Option<i64>
    ensures { result ≡ whole (view value.now) }
{
    value.as_i64()
}

/// The elements of an array, no elements if it is no array.
pub(crate) fn elements(value: &Value) -> &[Value]
    ensures { map view result.now ≡ elements (view value.now) }
{
    match value.as_array() {
        Some(array) => array.as_slice(),
        None => &[],
    }
}

/// Whether an object has a member of this name.
pub(crate) fn has_member(value: &Value, name: &str) -> bool
    ensures { result ≡ has_member name.now (view value.now) }
{
    value.get(name).is_some()
}

/// A member that is a whole number, 0 if there is no such member.
pub(crate) fn whole_at(value: &Value, name: &str) -> i64
    ensures { result ≡ whole_at name.now (view value.now) }
{
    match value.get(name) {
        Some(member) => member.as_i64().unwrap_or(0),
        None => 0,
    }
}

/// A member that is a text, empty if there is no such member.
pub(crate) fn text_at<'a>(value: &'a Value, name: &str) -> &'a str
    ensures { result.now ≡ text_at name.now (view value.now) }
{
    match value.get(name) {
        Some(member) => member.as_str().unwrap_or(""),
        None => "",
    }
}

/// The elements of a member that is an array, no elements if there is no such member.
pub(crate) fn elements_at<'a>(value: &'a Value, name: &str) -> &'a [Value]
    ensures { map view result.now ≡ elements_at name.now (view value.now) }
{
    match value.get(name) {
        Some(member) => elements(member),
        None => &[],
    }
}

fn whole_or_zero(value: &Value) -> i64
    ensures { result ≡ whole_or_zero (view value.now) }
{
    whole(value).unwrap_or(0)
}

fn each_whole(alloc: Global, values: &[Value]) -> Result<Vec<i64>, AllocError>
    ensures { IfOk result (λ v. v.items ≡ map (λ x. whole_or_zero (view x)) values.now) }
{
    values
        .iter()
        .map(|value| whole_or_zero(value))
        .collect(alloc)
}

/// Whole numbers.
pub(crate) fn wholes_of(alloc: Global, values: &[Value]) -> Result<Vec<i64>, AllocError>
    ensures { IfOk result (λ v. v.items ≡ wholes_of (map view values.now)) }
{
    each_whole(alloc, values)
}

/// A pair of whole numbers.
fn pair_of(value: &Value) -> (i64, i64)
    ensures { result ≡ pair_of (view value.now) }
{
    match elements(value) {
        [first, second] => (whole_or_zero(first), whole_or_zero(second)),
        _ => (0, 0),
    }
}

fn each_pair(alloc: Global, values: &[Value]) -> Result<Vec<(i64, i64)>, AllocError>
    ensures { IfOk result (λ v. v.items ≡ map (λ x. pair_of (view x)) values.now) }
{
    values.iter().map(|value| pair_of(value)).collect(alloc)
}

/// Pairs of whole numbers.
pub(crate) fn pairs_of(alloc: Global, values: &[Value]) -> Result<Vec<(i64, i64)>, AllocError>
    ensures { IfOk result (λ v. v.items ≡ pairs_of (map view values.now)) }
{
    each_pair(alloc, values)
}
