// What each case of a file gives.
use crate::{drafts, lookups, printed, verdicts};
use aso_trials_cases::{CaseFault, cases, field, string};
use serde_json::Value;
use std::alloc::Global;
use std::rt::Files;

/// What is tried at the cases of a file.
#[derive(Clone, Copy)]
pub enum Trial {
    /// Whether a text is an outline.
    Verdict,
    /// Whether rows are an outline.
    Draft,
    /// What an outline tells of its members.
    LookUps,
    /// How an outline is printed.
    Printed,
}

fn given(alloc: Global, frames: &[Value], trial: Trial, case: &Value) -> Result<String, CaseFault> {
    match trial {
        Trial::Verdict => verdicts::given(alloc, frames, case),
        Trial::Draft => drafts::given(alloc, case),
        Trial::LookUps => lookups::given(alloc, frames, case),
        Trial::Printed => printed::given(alloc, frames, case),
    }
}

/// A verdict stands behind its title, and what has more lines below it.
fn between(trial: Trial) -> &'static str {
    match trial {
        Trial::Verdict => ": ",
        Trial::Draft => ": ",
        Trial::LookUps => "\n",
        Trial::Printed => "\n",
    }
}

/// Prints the name of the file, and each title with what its case gives.
pub fn put_all<R: Files + AllocGlobal + Print>(
    rt: &R,
    frames: &[Value],
    trial: Trial,
    path: &str,
) -> Result<(), CaseFault> {
    print!(rt; "== {path}\n")?;
    let between = between(trial);
    for case in cases(rt, path)?.as_slice() {
        let title = string(rt.alloc(), field(case, "title")?)?;
        let given = given(rt.alloc(), frames, trial, case)?;
        print!(rt; "{title}{between}{given}\n")?;
    }
    Ok(())
}
