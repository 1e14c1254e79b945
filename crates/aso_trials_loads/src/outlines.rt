// The outlines of cases.
use aso_outjson::read;
use aso_outline::Outline;
use aso_trials_cases::{CaseFault, field, string};
use serde_json::Value;
use std::fs;
use std::rt::Files;

/// The outline in the file that the case names.
pub fn outline_of<R: Files + AllocGlobal>(rt: &R, case: &Value) -> Result<Outline, CaseFault> {
    let path = string(rt.alloc(), field(case, "outline")?)?;
    let text = fs::read(rt, path.as_str())?;
    match read(rt.alloc(), &text) {
        Ok(outline) => Ok(outline),
        Err(_fault) => Err(CaseFault::Value),
    }
}
