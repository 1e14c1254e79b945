// Numbers of a case.
use crate::fault::CaseFault;
use serde_json::Value;

/// A whole number below 2^64.
pub fn number(value: &Value) -> Result<u64, CaseFault> {
    match value.as_u64() {
        Some(n) => Ok(n),
        None => Err(CaseFault::Value),
    }
}

/// A whole number within 128 bits: a JSON number, or a string of decimal digits with or without a sign.
pub fn integer(value: &Value) -> Result<i128, CaseFault> {
    match value {
        Value::String(digits) => match digits.parse::<i128>() {
            Ok(n) => Ok(n),
            Err(_) => Err(CaseFault::Value),
        },
        _ => match value.as_i64() {
            Some(n) => Ok(i128::from(n)),
            None => Err(CaseFault::Value),
        },
    }
}
