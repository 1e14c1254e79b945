// Records that stand for a store, or for none.
use crate::spelling::record_of;
use aso_stage::recover;
use aso_trials_cases::{CaseFault, field};
use serde_json::Value;
use std::alloc::Global;

/// Whether the record of a row stands for a store.
pub fn told(alloc: Global, row: &Value) -> Result<String, CaseFault> {
    let found = record_of(alloc, field(row, "record")?)?;
    let is_store = recover(alloc, found)?.is_some();
    let said = if is_store { "a store" } else { "no store" };
    Ok(String::from_str(alloc, said)?)
}
