// Cell files byte by byte: as they are written, with other bytes in them, and cut short.
use crate::cells::cells_of;
use crate::counted::counted;
use crate::reading::{bits_of, place};
use crate::stop::{Stop, outcome};
use crate::writing::{bytes_of, cells_in, opened, shelf_of, written};
use aso_cellfile::Steps;
use aso_trials_cases::{CaseFault, field, text};
use serde_json::Value;
use std::alloc::Global;
use std::fmt::Write;
use std::sync::ledger::Ledger;

/// The bytes of a file of a case's cells.
pub fn told(alloc: Global, case: &Value) -> Result<String, Stop> {
    let cells = cells_of::<1>(alloc, case)?;
    let (mut shelf, file) = written(alloc, Vec::new(alloc), bits_of(case)?, &cells)?;
    let size = file.size();
    let mut out = format!(in alloc; "{size} bytes,")?;
    for byte in bytes_of(alloc, &mut shelf)?.as_slice() {
        write!(out, " {byte:02x}")?;
    }
    Ok(out)
}

// What bytes are: the file of the cells that are read of them, or another file that is read as those.
fn judged<L: Ledger>(
    alloc: Global,
    bits: u16,
    bytes: &[u8],
    steps: &mut Steps<L>,
) -> Result<String, Stop> {
    let mut shelf = shelf_of(alloc, bytes)?;
    let file = opened::<1>(alloc, &mut shelf, bits)?;
    let cells = cells_in(alloc, &mut shelf, &file, steps)?;
    let (mut again, _file) = written(alloc, Vec::new(alloc), bits, &cells)?;
    let told = if bytes_of(alloc, &mut again)?.as_slice() == bytes {
        "the file of its cells"
    } else {
        "another file than that of its cells"
    };
    Ok(String::from_str(alloc, told)?)
}

// Puts what the bytes are with each of the other values at a place.
fn put_changes<L: Ledger>(
    alloc: Global,
    bits: u16,
    bytes: &[u8],
    at: usize,
    values: &[u8],
    steps: &mut Steps<L>,
    outcomes: &mut Vec<String>,
) -> Result<(), CaseFault> {
    for value in values {
        let mut other = bytes.to_vec(alloc)?;
        let Some(spot) = other.get_mut(at) else {
            return Err(CaseFault::Value);
        };
        if *spot != *value {
            *spot = *value;
            outcomes.push(outcome(alloc, judged(alloc, bits, &other, steps))?)?;
        }
    }
    Ok(())
}

/// What a case's bytes are, where one of them has another value.
pub fn changes_told<L: Ledger>(
    alloc: Global,
    case: &Value,
    steps: &mut Steps<L>,
) -> Result<String, CaseFault> {
    let bits = bits_of(case)?;
    let bytes = text(alloc, field(case, "bytes")?)?;
    let values = text(alloc, field(case, "values")?)?;
    let mut outcomes = Vec::new(alloc);
    for at in place(case, "from")?..place(case, "to")? {
        put_changes(alloc, bits, &bytes, at, &values, steps, &mut outcomes)?;
    }
    Ok(counted(alloc, &outcomes)?)
}

/// What a case's bytes are, where they are cut to each size.
pub fn cuts_told<L: Ledger>(
    alloc: Global,
    case: &Value,
    steps: &mut Steps<L>,
) -> Result<String, CaseFault> {
    let bits = bits_of(case)?;
    let bytes = text(alloc, field(case, "bytes")?)?;
    let mut outcomes = Vec::new(alloc);
    for size in place(case, "from")?..place(case, "to")? {
        let Some(front) = bytes.get(..size) else {
            return Err(CaseFault::Value);
        };
        outcomes.push(outcome(alloc, judged(alloc, bits, front, steps))?)?;
    }
    Ok(counted(alloc, &outcomes)?)
}
