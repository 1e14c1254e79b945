// The fields of an object.
ghost use Rattle.std.specs.Prelude.{◌≡◌, option_map};
ghost use Rattle.serde_json.specs.View.{members_view, view};
ghost use Rattle.aso_outjson.specs.Fields.{first_other, may, need, no_others, object_in};
ghost use Rattle.aso_outjson.specs.Gives.{Gives};
ghost use Rattle.aso_outjson.specs.Words.{is_field};

use crate::object::Object;
use crate::part::Part;
use crate::trouble::Trouble;
use serde_json::{Map, Value};
use std::alloc::Global;

/// A field that must be there.
pub fn need<T: Part + Drop>(alloc: Global, value: &Value, name: &str) -> Result<T, Trouble>
    ensures { Gives result (need T.reads name.now (view value.now)) }
{
    match value.get(name) {
        Some(said) => match T::read(alloc, said) {
            Ok(part) => Ok(part),
            Err(trouble) => Err(trouble.under(alloc, name)),
        },
        None => Err(Trouble::here(alloc).under(alloc, name)),
    }
}

/// A field that may be left out.
pub fn may<T: Part + Drop>(
    alloc: Global,
    value: &Value,
    name: &str,
    default: T,
) -> Result<T, Trouble>
    ensures { Gives result (may T.reads default name.now (view value.now)) }
{
    match value.get(name) {
        Some(said) => match T::read(alloc, said) {
            Ok(part) => Ok(part),
            Err(trouble) => Err(trouble.under(alloc, name)),
        },
        None => Ok(default),
    }
}

/// The value is an object.
pub fn object(alloc: Global, value: &Value) -> Result<(), Trouble>
    ensures { Gives result (object_in (view value.now)) }
{
    match value.as_object() {
        Some(_fields) => Ok(()),
        None => Err(Trouble::here(alloc)),
    }
}

fn is_field(object: Object, name: &str) -> bool
    ensures { result ≡ is_field object name.now }
{
    match object {
        Object::Outline => {
            name == "app" || name == "db" || name == "dimensions" || name == "attributes"
        }
        Object::Dimension => name == "name" || name == "aggregate" || name == "hierarchies",
        Object::Hierarchy => name == "kind" || name == "root",
        Object::Attribute => name == "name" || name == "base" || name == "root",
        Object::Member => {
            name == "name"
                || name == "shared"
                || name == "label_only"
                || name == "op"
                || name == "solve"
                || name == "formula"
                || name == "attributes"
                || name == "children"
        }
    }
}

fn first_other(fields: &Map<String, Value>, object: Object) -> Option<&str>
    ensures { option_map (λ name. name.now) result ≡ first_other (is_field object) (members_view fields.now.entries) }
{
    for (name, _value) in fields.iter() {
        if !is_field(object, name.as_str()) {
            return Some(name.as_str());
        }
    }
    None
}

/// No field has a name that the object doesn't know.
pub fn no_others(alloc: Global, value: &Value, object: Object) -> Result<(), Trouble>
    ensures { Gives result (no_others (is_field object) (view value.now)) }
{
    let Some(fields) = value.as_object() else {
        return Err(Trouble::here(alloc));
    };
    match first_other(fields, object) {
        Some(name) => Err(Trouble::here(alloc).under(alloc, name)),
        None => Ok(()),
    }
}
