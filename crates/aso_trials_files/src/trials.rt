// The cases of a file, each with a title.
use crate::kinds::{Kind, told};
use crate::stop::outcome;
use aso_cellfile::Steps;
use aso_trials_cases::{CaseFault, cases, field, string};
use serde_json::Value;
use std::rt::Files;
use std::sync::ledger::Ledger;

fn put<R: Print>(rt: &R, title: &str, given: &str) -> Result<(), CaseFault> {
    if given.starts_with('\n') {
        Ok(println!(rt; "{title}:{given}")?)
    } else {
        Ok(println!(rt; "{title}: {given}")?)
    }
}

fn put_case<L: Ledger, R: Files + AllocGlobal + Print>(
    rt: &R,
    kind: Kind,
    case: &Value,
    steps: &mut Steps<L>,
) -> Result<(), CaseFault> {
    let title = string(rt.alloc(), field(case, "title")?)?;
    let given = outcome(rt.alloc(), told(rt, kind, case, steps))?;
    put(rt, title.as_str(), given.as_str())
}

/// Prints what each case of a file gives.
pub fn put_all<L: Ledger, R: Files + AllocGlobal + Print>(
    rt: &R,
    kind: Kind,
    path: &str,
    steps: &mut Steps<L>,
) -> Result<(), CaseFault> {
    println!(rt; "== {path}")?;
    let cases = cases(rt, path)?;
    for case in cases.as_slice() {
        put_case(rt, kind, case, steps)?;
    }
    Ok(println!(rt; "")?)
}
