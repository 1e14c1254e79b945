// A file of cases.
use crate::fault::CaseFault;
use serde_json::Value;
use std::fs;
use std::rt::Files;

/// The cases of a file, in order.
pub fn cases<R: Files + AllocGlobal>(rt: &R, path: &str) -> Result<Vec<Value>, CaseFault> {
    let bytes = fs::read(rt, path)?;
    match Value::from_slice(rt.alloc(), &bytes) {
        Ok(Value::Array(items)) => Ok(items),
        _ => Err(CaseFault::NoList),
    }
}
