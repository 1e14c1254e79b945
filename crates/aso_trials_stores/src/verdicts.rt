// What lines come to over a record: a case has the text of the `outline`, the `record`, and the byte of the script `at` which its lines
// begin.
use crate::spelling::record_of;
use aso_machine::{Verdict, fits, judge};
use aso_outline::Outline;
use aso_outtext::read;
use aso_script::Line;
use aso_trials_cases::{CaseFault, field, number, text};
use serde_json::Value;
use std::alloc::{AllocError, Global};
use std::fmt::Write;
use std::str;

fn outline(alloc: Global, case: &Value) -> Result<Outline, CaseFault> {
    let text = text(alloc, field(case, "outline")?)?;
    match read(alloc, &text) {
        Ok(outline) => Ok(outline),
        Err(_) => Err(CaseFault::Value),
    }
}

fn put_commit(key: &[u32], amount: i128, out: &mut String) -> Result<(), AllocError> {
    for leaf in key {
        write!(out, "{leaf} ")?;
    }
    write!(out, "{amount}")
}

fn put_verdict(verdict: &Verdict, out: &mut String) -> Result<(), AllocError> {
    match verdict {
        Verdict::Refused { text } => out.push_str(str::from_utf8(text).unwrap_or("?")),
        Verdict::Grid {
            rows,
            columns,
            text,
        } => {
            write!(out, "{rows}x{columns} ")?;
            out.push_str(str::from_utf8(text).unwrap_or("?"))
        }
        Verdict::Commit { key, amount } => put_commit(key, *amount, out),
    }
}

/// What the line of a row comes to.
pub fn told(alloc: Global, case: &Value, row: &Value) -> Result<String, CaseFault> {
    let outline = outline(alloc, case)?;
    let saved = record_of(alloc, field(case, "record")?)?;
    if !fits(alloc, &outline, &saved)? {
        return Err(CaseFault::Value);
    }
    let at = number(field(case, "at")?)? as usize;
    let bytes = text(alloc, field(row, "line")?)?;
    let line = Line { at, bytes: &bytes };
    let verdict = judge(alloc, &outline, &saved, &line)?;
    let mut out = String::new(alloc);
    put_verdict(&verdict, &mut out)?;
    Ok(out)
}
