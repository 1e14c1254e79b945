// Texts of a JSON value.
ghost use Rattle.std.specs.Prelude.{◌≡◌, IfOk, map};
ghost use Rattle.std.specs.Option.{option_map};
ghost use Rattle.serde_json.specs.Find.{as_array, as_str, get};
ghost use Rattle.serde_json.specs.View.{items_view, view};
ghost use Rattle.aso_rules.specs.Json.{all_found, is_true, list_of};
ghost use Rattle.aso_rules.specs.Written.{affix_of, both_texts, pair_in, pair_of, replace_of, texts_of};

use aso_num::{List, NoMemory, Text};
use serde_json::Value;
use std::alloc::Global;

/// A text with a memory of its own.
pub fn copied(alloc: Global, text: &str) -> Result<Text, NoMemory>
    ensures { IfOk result (λ t. t ≡ text.now) }
{
    let mut copy = String::new(alloc);
    copy.push_str(text)?;
    Ok(Text::of(copy))
}

/// The text that a value is.
pub fn text(alloc: Global, value: &Value) -> Result<Option<Text>, NoMemory>
    ensures { IfOk result (λ t. t ≡ as_str (view value.now)) }
{
    match value.as_str() {
        Some(text) => Ok(Some(copied(alloc, text)?)),
        None => Ok(None),
    }
}

/// The items of a list.
pub fn items(value: &Value) -> Option<&[Value]>
    ensures { option_map (λ vs. items_view vs.now) result ≡ as_array (view value.now) }
{
    match value.as_array() {
        Some(values) => Some(values.as_slice()),
        None => None,
    }
}

fn all_texts(alloc: Global, values: &[Value]) -> Result<Option<List<Text>>, NoMemory>
    ensures { IfOk result (λ ts. ts ≡ all_found (λ v. as_str (view v)) values.now) }
{
    let mut found = Vec::new(alloc);
    for value in values {
        match text(alloc, value)? {
            Some(text) => found.push(text)?,
            None => return Ok(None),
        }
    }
    Ok(Some(List::of(found)))
}

/// The texts of a list.
pub fn texts(alloc: Global, value: &Value) -> Result<Option<List<Text>>, NoMemory>
    ensures { IfOk result (λ ts. ts ≡ texts_of (view value.now)) }
{
    match items(value) {
        Some(values) => all_texts(alloc, values),
        None => Ok(None),
    }
}

/// The text of a field that stands before or behind each name.
pub fn affix(alloc: Global, value: &Value, field: &str) -> Result<Option<Text>, NoMemory>
    ensures { IfOk result (λ t. t ≡ affix_of (get field.now (view value.now))) }
{
    match value.get(field) {
        Some(said) => text(alloc, said),
        None => Ok(Some(copied(alloc, "")?)),
    }
}

fn both_texts(alloc: Global, from: &Value, to: &Value) -> Result<Option<(Text, Text)>, NoMemory>
    ensures { IfOk result (λ p. p ≡ both_texts (view from.now) (view to.now)) }
{
    let Some(from) = text(alloc, from)? else {
        return Ok(None);
    };
    match text(alloc, to)? {
        Some(to) => Ok(Some((from, to))),
        None => Ok(None),
    }
}

fn pair_in(alloc: Global, values: &[Value]) -> Result<Option<(Text, Text)>, NoMemory>
    ensures { IfOk result (λ p. p ≡ pair_in (map view values.now)) }
{
    match values {
        [from, to] => both_texts(alloc, from, to),
        _ => Ok(None),
    }
}

fn pair(alloc: Global, value: &Value) -> Result<Option<(Text, Text)>, NoMemory>
    ensures { IfOk result (λ p. p ≡ pair_of (view value.now)) }
{
    match items(value) {
        Some(values) => pair_in(alloc, values),
        None => Ok(None),
    }
}

fn pairs(alloc: Global, values: &[Value]) -> Result<Option<List<(Text, Text)>>, NoMemory>
    ensures { IfOk result (λ ps. ps ≡ all_found (λ v. pair_of (view v)) values.now) }
{
    let mut found = Vec::new(alloc);
    for value in values {
        match pair(alloc, value)? {
            Some(pair) => found.push(pair)?,
            None => return Ok(None),
        }
    }
    Ok(Some(List::of(found)))
}

fn list_of_pairs(alloc: Global, value: &Value) -> Result<Option<List<(Text, Text)>>, NoMemory>
    ensures { IfOk result (λ ps. ps ≡ list_of pair_of (view value.now)) }
{
    match items(value) {
        Some(values) => pairs(alloc, values),
        None => Ok(None),
    }
}

/// The pairs of what is replaced and by what, in a field that may be left out.
pub fn replace(
    alloc: Global,
    value: &Value,
    field: &str,
) -> Result<Option<List<(Text, Text)>>, NoMemory>
    ensures { IfOk result (λ ps. ps ≡ replace_of (get field.now (view value.now))) }
{
    match value.get(field) {
        Some(said) => list_of_pairs(alloc, said),
        None => Ok(Some(List::of(Vec::new(alloc)))),
    }
}

/// The value is `true`.
pub fn is_true(value: &Value) -> bool
    ensures { result ≡ is_true (view value.now) }
{
    match value {
        Value::Bool(mark) => *mark,
        _ => false,
    }
}
