// The cases of a file: a title and a text each.
use crate::kinds::{Kind, told};
use aso_trials_cases::{CaseFault, cases, field, string, text};
use serde_json::Value;
use std::rt::Files;

// A title, and behind it one line or a grid.
fn put<R: Print>(rt: &R, title: &str, given: &str) -> Result<(), CaseFault> {
    if given.ends_with('\n') {
        Ok(println!(rt; "{title}:\n{given}")?)
    } else {
        Ok(println!(rt; "{title}: {given}")?)
    }
}

fn put_case<R: AllocGlobal + Print>(rt: &R, kind: Kind, case: &Value) -> Result<(), CaseFault> {
    let title = string(rt.alloc(), field(case, "title")?)?;
    let text = text(rt.alloc(), field(case, "text")?)?;
    let given = told(rt.alloc(), kind, &text)?;
    put(rt, title.as_str(), given.as_str())
}

/// Prints what each text of a file gives as a text of this kind.
pub fn put_all<R: Files + AllocGlobal + Print>(
    rt: &R,
    kind: Kind,
    path: &str,
) -> Result<(), CaseFault> {
    println!(rt; "== {path}")?;
    let cases = cases(rt, path)?;
    for case in cases.as_slice() {
        put_case(rt, kind, case)?;
    }
    Ok(println!(rt; "")?)
}
