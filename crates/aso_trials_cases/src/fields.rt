// The fields of a case.
use crate::fault::CaseFault;
use serde_json::Value;

/// The field of a case that it must have.
pub fn field<'a>(case: &'a Value, name: &'static str) -> Result<&'a Value, CaseFault> {
    match case.get(name) {
        Some(value) => Ok(value),
        None => Err(CaseFault::Field { name }),
    }
}

/// The field of a case, where it has it.
pub fn optional<'a>(case: &'a Value, name: &str) -> Option<&'a Value> {
    case.get(name)
}

/// Whether the field is there and true.
pub fn is_set(case: &Value, name: &str) -> bool {
    case.get(name).and_then(Value::as_bool).unwrap_or(false)
}

/// The items of a list.
pub fn list(value: &Value) -> Result<&[Value], CaseFault> {
    match value {
        Value::Array(items) => Ok(items.as_slice()),
        _ => Err(CaseFault::Value),
    }
}
