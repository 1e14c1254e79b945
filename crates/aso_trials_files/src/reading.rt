// Numbers of cases that are smaller than 2^64.
use aso_trials_cases::{CaseFault, field, list, number};
use serde_json::Value;
use std::alloc::Global;

pub fn small_number(value: &Value) -> Result<u32, CaseFault> {
    match u32::try_from(number(value)?) {
        Ok(number) => Ok(number),
        Err(_) => Err(CaseFault::Value),
    }
}

pub fn small_numbers(alloc: Global, value: &Value) -> Result<Vec<u32>, CaseFault> {
    let mut all = Vec::new(alloc);
    for item in list(value)? {
        all.push(small_number(item)?)?;
    }
    Ok(all)
}

/// A place in a list, by the name of its field.
pub fn place(case: &Value, name: &'static str) -> Result<usize, CaseFault> {
    Ok(small_number(field(case, name)?)? as usize)
}

/// How many bits the keys of a case have.
pub fn bits_of(case: &Value) -> Result<u16, CaseFault> {
    match u16::try_from(number(field(case, "bits")?)?) {
        Ok(bits) => Ok(bits),
        Err(_) => Err(CaseFault::Value),
    }
}
