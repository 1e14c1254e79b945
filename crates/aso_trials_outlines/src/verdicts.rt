// Whether a text is an outline, and else its first fault.
use crate::frames::text_of;
use aso_outjson::{JsonFault, read};
use aso_outline::Outline;
use aso_trials_cases::CaseFault;
use serde_json::Value;
use std::alloc::Global;

/// An outline by the count of its members.
pub fn accepted(alloc: Global, outline: &Outline) -> Result<String, CaseFault> {
    let members = outline.members();
    Ok(format!(in alloc; "outline, members {members}")?)
}

/// The rule that is broken, and the first member that breaks it.
pub fn refused(alloc: Global, rule: u8, member: u32) -> Result<String, CaseFault> {
    Ok(format!(in alloc; "rule {rule} at member {member}")?)
}

fn fault(alloc: Global, fault: JsonFault) -> Result<String, CaseFault> {
    match fault {
        JsonFault::NotJson => Ok(String::from_str(alloc, "no JSON")?),
        JsonFault::Field { path } => Ok(format!(in alloc; "field \"{path}\"")?),
        JsonFault::Formula { member, at } => {
            Ok(format!(in alloc; "formula of member {member} at byte {at}")?)
        }
        JsonFault::Refused { rule, member } => refused(alloc, rule, member),
        JsonFault::NoMemory(_) => Err(CaseFault::NoMemory),
    }
}

/// What the text of a case is.
pub fn given(alloc: Global, frames: &[Value], case: &Value) -> Result<String, CaseFault> {
    let text = text_of(alloc, frames, case)?;
    match read(alloc, text.as_slice()) {
        Ok(outline) => accepted(alloc, &outline),
        Err(found) => fault(alloc, found),
    }
}
