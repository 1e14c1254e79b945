// Cell files that are written of cells, and read again: block by block, and from some cells to others.
ghost use Rattle.std.specs.Prelude.{◌≤◌};

use crate::cells::cells_of;
use crate::reading::{bits_of, place};
use crate::stop::Stop;
use crate::writing::written;
use aso_cellfile::{CellFile, Steps};
use aso_disk::MemShelf;
use aso_runs::{Cell, Run};
use aso_trials_cases::{CaseFault, field, list, number, optional};
use aso_words::Words;
use serde_json::Value;
use std::alloc::{AllocError, Global};
use std::fmt::Write;
use std::sync::ledger::Ledger;

// Puts how many cells are read, and whether they are those that were written, from the first of them on.
fn put_part<const W: usize>(
    found: &[Cell<W>],
    cells: &[Cell<W>],
    first: usize,
    out: &mut String,
) -> Result<(), AllocError> {
    let count = found.len();
    let same = match cells.get(first..first.saturating_add(count)) {
        Some(part) => part == found,
        None => false,
    };
    let told = if same { "as written" } else { "as not written" };
    write!(out, " {count} from cell {first} on, {told}")
}

fn put_blocks<L: Ledger, const W: usize>(
    shelf: &mut MemShelf,
    file: &CellFile<MemShelf, W>,
    cells: &[Cell<W>],
    steps: &mut Steps<L>,
    out: &mut String,
) -> Result<(), Stop> {
    let mut first = 0usize;
    for n in 0..file.blocks() {
        match file.block(shelf, n, steps) {
            Ok(block) => {
                write!(out, "\n  block {n}:")?;
                put_part(&block, cells, first, out)?;
                first = first.saturating_add(block.len());
            }
            Err(fault) => return Err(Stop::Block(fault)),
        }
    }
    Ok(())
}

// The key of a cell, where there is one.
fn key_at<const W: usize>(cells: &[Cell<W>], at: usize) -> Option<Words<W>> {
    match cells.get(at) {
        Some(cell) => Some(cell.key),
        None => None,
    }
}

fn put_scan<L: Ledger, const W: usize>(
    alloc: Global,
    shelf: &mut MemShelf,
    file: &CellFile<MemShelf, W>,
    cells: &[Cell<W>],
    range: &Value,
    steps: &mut Steps<L>,
    out: &mut String,
) -> Result<(), Stop>
    requires some { 1 ≤ W }
    requires few { W ≤ 4 }
{
    let first = place(range, "from")?;
    let end = place(range, "to")?;
    let from = if first < end {
        key_at(cells, first).unwrap_or(Words::zero())
    } else {
        Words::zero()
    };
    let mut run = Run::empty(alloc);
    match file.scan(shelf, from, key_at(cells, end), &mut run, steps) {
        Ok(()) => {}
        Err(fault) => return Err(Stop::Scan(fault)),
    }
    write!(out, "\n  scan of {first} to before {end}:")?;
    Ok(put_part(run.cells(), cells, first, out)?)
}

fn told<L: Ledger, const W: usize>(
    alloc: Global,
    case: &Value,
    steps: &mut Steps<L>,
) -> Result<String, Stop>
    requires some { 1 ≤ W }
    requires few { W ≤ 4 }
{
    let cells = cells_of::<W>(alloc, case)?;
    let (mut shelf, file) = written(alloc, Vec::new(alloc), bits_of(case)?, &cells)?;
    let count = file.cells();
    let size = file.size();
    let mut out = format!(in alloc; "\n  cells {count}, bytes {size}")?;
    put_blocks(&mut shelf, &file, &cells, steps, &mut out)?;
    if let Some(ranges) = optional(case, "scans") {
        for range in list(ranges)? {
            put_scan(alloc, &mut shelf, &file, &cells, range, steps, &mut out)?;
        }
    }
    Ok(out)
}

/// What is read of a file of a case's cells.
pub fn file_told<L: Ledger>(
    alloc: Global,
    case: &Value,
    steps: &mut Steps<L>,
) -> Result<String, Stop> {
    match number(field(case, "words")?)? {
        1 => told::<L, 1>(alloc, case, steps),
        2 => told::<L, 2>(alloc, case, steps),
        _ => Err(Stop::Case(CaseFault::Value)),
    }
}
