// Outlines that are printed, and read again.
use crate::frames::{outline_of, text_of};
use aso_outjson::print;
use aso_trials_cases::CaseFault;
use serde_json::Value;
use std::alloc::Global;

/// The text that an outline is printed as, and the one that the outline of that text is.
pub fn given(alloc: Global, frames: &[Value], case: &Value) -> Result<String, CaseFault> {
    let text = text_of(alloc, frames, case)?;
    let outline = outline_of(alloc, text.as_slice())?;
    let first = print(alloc, &outline)?;
    let again = outline_of(alloc, first.as_bytes())?;
    let second = print(alloc, &again)?;
    if first.as_str() == second.as_str() {
        return Ok(format!(in alloc; "{first}\nand again the same\n")?);
    }
    Ok(format!(in alloc; "{first}\nand again {second}\n")?)
}
