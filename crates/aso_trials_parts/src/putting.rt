// The cases of a file: a title, and what the case gives.
use crate::parts::{Part, told};
use aso_trials_cases::{CaseFault, cases, field, string};
use serde_json::Value;
use std::rt::Files;

// A title, and behind it one line, or lines below it.
fn put<R: Print>(rt: &R, title: &str, given: &str) -> Result<(), CaseFault> {
    if given.ends_with('\n') {
        Ok(print!(rt; "{title}:\n{given}")?)
    } else {
        Ok(println!(rt; "{title}: {given}")?)
    }
}

fn put_case<R: AllocGlobal + Print>(rt: &R, part: Part, case: &Value) -> Result<(), CaseFault> {
    let title = string(rt.alloc(), field(case, "title")?)?;
    let given = told(rt.alloc(), part, case)?;
    put(rt, title.as_str(), given.as_str())
}

/// Prints what each case of a file gives as a case of this part.
pub fn put_all<R: Files + AllocGlobal + Print>(
    rt: &R,
    part: Part,
    path: &str,
) -> Result<(), CaseFault> {
    println!(rt; "== {path}")?;
    let cases = cases(rt, path)?;
    for case in cases.as_slice() {
        put_case(rt, part, case)?;
    }
    Ok(println!(rt; "")?)
}
