// The cases of a file, each with a title and the file of its outline.
use crate::outlines::outline_of;
use crate::{loads, rules};
use aso_trials_cases::{CaseFault, cases, field, string};
use serde_json::Value;
use std::rt::Files;

/// What cases try.
#[derive(Clone, Copy, Debug)]
pub enum Kind {
    /// A rules file.
    Rules,
    /// Data files, under the rules of one.
    Loads,
}

// What a case gives: a line behind its title, or some below it.
fn told<R: Files + AllocGlobal>(rt: &R, kind: Kind, case: &Value) -> Result<String, CaseFault> {
    let outline = outline_of(rt, case)?;
    match kind {
        Kind::Rules => rules::told(rt.alloc(), &outline, case),
        Kind::Loads => loads::told(rt.alloc(), &outline, case),
    }
}

fn put<R: Print>(rt: &R, title: &str, given: &str) -> Result<(), CaseFault> {
    if given.starts_with('\n') {
        Ok(println!(rt; "{title}:{given}")?)
    } else {
        Ok(println!(rt; "{title}: {given}")?)
    }
}

fn put_case<R: Files + AllocGlobal + Print>(
    rt: &R,
    kind: Kind,
    case: &Value,
) -> Result<(), CaseFault> {
    let title = string(rt.alloc(), field(case, "title")?)?;
    let given = told(rt, kind, case)?;
    put(rt, title.as_str(), given.as_str())
}

/// Prints what each case of a file gives.
pub fn put_all<R: Files + AllocGlobal + Print>(
    rt: &R,
    kind: Kind,
    path: &str,
) -> Result<(), CaseFault> {
    println!(rt; "== {path}")?;
    let cases = cases(rt, path)?;
    for case in cases.as_slice() {
        put_case(rt, kind, case)?;
    }
    Ok(println!(rt; "")?)
}
