// Further numbers and texts of a case.
use aso_trials_cases::{CaseFault, list, number};
use serde_json::Value;
use std::alloc::Global;

/// A whole number below 2^128: a JSON number, or a string of decimal digits.
pub fn unsigned(value: &Value) -> Result<u128, CaseFault> {
    match value {
        Value::String(digits) => match digits.parse::<u128>() {
            Ok(n) => Ok(n),
            Err(_) => Err(CaseFault::Value),
        },
        _ => Ok(u128::from(number(value)?)),
    }
}

/// A whole number below 2^32.
pub fn small(value: &Value) -> Result<u32, CaseFault> {
    match u32::try_from(number(value)?) {
        Ok(n) => Ok(n),
        Err(_) => Err(CaseFault::Value),
    }
}

/// A word of 64 bits, as a string of hexadecimal digits.
pub fn word(value: &Value) -> Result<u64, CaseFault> {
    let Value::String(digits) = value else {
        return Err(CaseFault::Value);
    };
    match u64::from_str_radix(digits, 16) {
        Ok(n) => Ok(n),
        Err(_) => Err(CaseFault::Value),
    }
}

/// The whole numbers of a list.
pub fn numbers(alloc: Global, value: &Value) -> Result<Vec<u64>, CaseFault> {
    let mut all = Vec::new(alloc);
    for item in list(value)? {
        all.push(number(item)?)?;
    }
    Ok(all)
}

/// The text that some bytes spell.
pub fn spelled(bytes: &[u8]) -> Result<&str, CaseFault> {
    match std::str::from_utf8(bytes) {
        Ok(text) => Ok(text),
        Err(_) => Err(CaseFault::Value),
    }
}
