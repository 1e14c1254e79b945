// The cases of a file, each with its title and what it gives.
use crate::shown::put_escaped;
use crate::{devices, lines, records, stores, verdicts};
use aso_trials_cases::{CaseFault, cases, field, list, string};
use serde_json::Value;
use std::alloc::Global;
use std::fmt::Write;
use std::rt::Files;

/// What the cases of a file are.
#[derive(Clone, Copy)]
pub enum Kind {
    /// Steps over a device.
    Devices,
    /// A record, and bytes that are almost its spelling.
    Records,
    /// Rows of records that stand for stores, or for none.
    Stores,
    /// Rows of lines, and what they say.
    Lines,
    /// Rows of lines, and what they come to over a record.
    Verdicts,
}

// What a row of a case gives, on one line.
fn row_given(alloc: Global, kind: Kind, case: &Value, row: &Value) -> Result<String, CaseFault> {
    match kind {
        Kind::Stores => stores::told(alloc, row),
        Kind::Lines => lines::said(alloc, row),
        _ => verdicts::told(alloc, case, row),
    }
}

fn rows_given(alloc: Global, kind: Kind, case: &Value) -> Result<String, CaseFault> {
    let mut out = String::new(alloc);
    for row in list(field(case, "rows")?)? {
        let title = string(alloc, field(row, "title")?)?;
        let given = row_given(alloc, kind, case, row)?;
        write!(out, "  {title}: ")?;
        put_escaped(given.as_str(), &mut out)?;
        out.push('\n')?;
    }
    Ok(out)
}

fn given(alloc: Global, kind: Kind, case: &Value) -> Result<String, CaseFault> {
    match kind {
        Kind::Devices => devices::given(alloc, case),
        Kind::Records => records::given(alloc, case),
        _ => rows_given(alloc, kind, case),
    }
}

/// Prints the cases of a file.
pub fn put_all<R: Files + AllocGlobal + Print>(
    rt: &R,
    path: &str,
    kind: Kind,
) -> Result<(), CaseFault> {
    print!(rt; "# {path}\n")?;
    for case in cases(rt, path)?.as_slice() {
        let title = string(rt.alloc(), field(case, "title")?)?;
        let given = given(rt.alloc(), kind, case)?;
        print!(rt; "== {title}\n{given}")?;
    }
    Ok(())
}
