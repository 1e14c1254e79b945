// The cases of a file, each over its outline: the Basic outline, a text in the case, or a file that the case names.
use crate::kinds::{Kind, told};
use crate::texts::spelled;
use aso_outtext::read;
use aso_samples::basic;
use aso_trials_cases::{CaseFault, cases, field, optional, string, text};
use serde_json::Value;
use std::alloc::Global;
use std::fs;
use std::rt::Files;

// The text of the case's outline, where it isn't the Basic one.
fn outline_text<R: Files + AllocGlobal>(
    rt: &R,
    case: &Value,
) -> Result<Option<Vec<u8>>, CaseFault> {
    if let Some(path) = optional(case, "outline_file") {
        let path = string(rt.alloc(), path)?;
        return Ok(Some(fs::read(rt, path.as_str())?));
    }
    match optional(case, "outline") {
        Some(outline) => Ok(Some(text(rt.alloc(), outline)?)),
        None => Ok(None),
    }
}

// What a case gives over the outline of a text, or what is printed of the text's refusal.
fn over_text(alloc: Global, kind: Kind, text: &[u8], case: &Value) -> Result<String, CaseFault> {
    match read(alloc, text) {
        Ok(outline) => told(alloc, kind, &outline, case),
        Err(fault) => {
            let refusal = fault.text(alloc)?;
            Ok(String::from_str(alloc, spelled(&refusal)?)?)
        }
    }
}

fn over(
    alloc: Global,
    kind: Kind,
    text: Option<Vec<u8>>,
    case: &Value,
) -> Result<String, CaseFault> {
    match text {
        Some(text) => over_text(alloc, kind, &text, case),
        None => told(alloc, kind, &basic(alloc)?, case),
    }
}

fn put_case<R: Files + AllocGlobal + Print>(
    rt: &R,
    kind: Kind,
    case: &Value,
) -> Result<(), CaseFault> {
    let title = string(rt.alloc(), field(case, "title")?)?;
    let text = outline_text(rt, case)?;
    let given = over(rt.alloc(), kind, text, case)?;
    Ok(println!(rt; "{title}: {given}")?)
}

/// Prints what each case of a file gives.
pub fn put_all<R: Files + AllocGlobal + Print>(
    rt: &R,
    kind: Kind,
    path: &str,
) -> Result<(), CaseFault> {
    println!(rt; "== {path}")?;
    let cases = cases(rt, path)?;
    for case in cases.as_slice() {
        put_case(rt, kind, case)?;
    }
    Ok(println!(rt; "")?)
}
