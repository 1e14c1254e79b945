// The spelling of a record: its bytes, what each front of them gives, and what they give with `changes`, each of `bytes` at a place.
use crate::devices::put_over;
use crate::outcomes::{Outcome, put_outcomes};
use crate::spelling::record_of;
use aso_catalog::{LeafCell, Record, RecordFault, decode, encode};
use aso_trials_cases::{CaseFault, field, list, number, optional, string, text};
use serde_json::Value;
use std::alloc::{AllocError, Global};
use std::fmt::Write;
use std::str;

fn put_cell(cell: &LeafCell, out: &mut String) -> Result<(), AllocError> {
    out.push_str(", cell")?;
    for leaf in cell.leaves.items() {
        write!(out, " {leaf}")?;
    }
    let amount = cell.amount;
    write!(out, " = {amount}")
}

/// The fields of a record.
pub fn put_record(r: &Record, out: &mut String) -> Result<(), AllocError> {
    let (layout, commit, dimensions) = (r.layout, r.commit, r.dimensions);
    let outline = str::from_utf8(r.outline.items()).unwrap_or("?");
    write!(out, "layout {layout}, commit {commit}, outline {outline}")?;
    write!(out, ", dimensions {dimensions}")?;
    for cell in r.cells.items() {
        put_cell(cell, out)?;
    }
    Ok(())
}

// What bytes give.
fn read(alloc: Global, bytes: &[u8]) -> Result<String, CaseFault> {
    let mut out = String::new(alloc);
    match decode(alloc, bytes) {
        Ok(found) => put_record(&found, &mut out)?,
        Err(RecordFault::Bad { .. }) => out.push_str("no record")?,
        Err(RecordFault::NoMemory) => return Err(CaseFault::NoMemory),
    }
    Ok(out)
}

fn put_hex(bytes: &[u8], out: &mut String) -> Result<(), AllocError> {
    out.push_str("  ")?;
    for byte in bytes {
        write!(out, "{byte:02x}")?;
    }
    out.push('\n')
}

fn put_fronts(alloc: Global, bytes: &[u8], out: &mut String) -> Result<(), CaseFault> {
    let mut all = Vec::new(alloc);
    for size in 0..bytes.len() {
        let text = read(alloc, &bytes[..size])?;
        let number = size as u64;
        all.push(Outcome { number, text })?;
    }
    let text = read(alloc, bytes)?;
    let number = bytes.len() as u64;
    all.push(Outcome { number, text })?;
    Ok(put_outcomes("front of", &all, out)?)
}

// The bytes with others written over them, or put behind them.
fn changed(alloc: Global, bytes: &[u8], change: &Value) -> Result<Vec<u8>, CaseFault> {
    let mut all = Vec::from_slice(alloc, bytes)?;
    let others = text(alloc, field(change, "bytes")?)?;
    match optional(change, "at") {
        Some(at) => put_over(&mut all, number(at)?, &others),
        None => all.extend_from_slice(&others)?,
    }
    Ok(all)
}

fn put_changes(
    alloc: Global,
    case: &Value,
    bytes: &[u8],
    out: &mut String,
) -> Result<(), CaseFault> {
    for change in list(field(case, "changes")?)? {
        let title = string(alloc, field(change, "title")?)?;
        let found = read(alloc, &changed(alloc, bytes, change)?)?;
        write!(out, "  {title}: {found}\n")?;
    }
    Ok(())
}

/// What a case of a record gives.
pub fn given(alloc: Global, case: &Value) -> Result<String, CaseFault> {
    let found = record_of(alloc, field(case, "record")?)?;
    let mut bytes = Vec::new(alloc);
    encode(&found, &mut bytes)?;
    let mut out = String::new(alloc);
    put_hex(&bytes, &mut out)?;
    put_fronts(alloc, &bytes, &mut out)?;
    put_changes(alloc, case, &bytes, &mut out)?;
    Ok(out)
}
