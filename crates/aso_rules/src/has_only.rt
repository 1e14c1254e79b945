// Objects without a field that they may not have.
ghost use Rattle.std.specs.Prelude.{◌≡◌};
ghost use Rattle.serde_json.specs.View.{members_view, view};
ghost use Rattle.aso_rules.specs.Json.{are_names, has_only};
ghost use Rattle.aso_rules.specs.Written.{is_field};

use crate::fields::Fields;
use serde_json::{Map, Value};

fn is_field(fields: Fields, name: &str) -> bool
    ensures { result ≡ is_field fields name.now }
{
    match fields {
        Fields::OfFile => {
            name == "delimiter" || name == "header_records" || name == "columns" || name == "fixed"
        }
        Fields::OfDimension => {
            name == "dimension" || name == "prefix" || name == "suffix" || name == "replace"
        }
        Fields::OfAmounts => name == "data",
        Fields::OfIgnored => name == "ignore",
    }
}

fn are_fields(map: &Map<String, Value>, fields: Fields) -> bool
    ensures { result ≡ are_names (is_field fields) (members_view map.now.entries) }
{
    for (name, _value) in map.iter() {
        if !is_field(fields, name.as_str()) {
            return false;
        }
    }
    true
}

/// The value is an object, and each of its fields is one of these.
pub fn has_only(value: &Value, fields: Fields) -> bool
    ensures { result ≡ has_only (is_field fields) (view value.now) }
{
    match value {
        Value::Object(map) => are_fields(map, fields),
        _ => false,
    }
}
