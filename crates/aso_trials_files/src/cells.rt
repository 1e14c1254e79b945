// The cells of cases: a list of them, or so many whose keys and amounts change by equal steps.
ghost use Rattle.std.specs.Prelude.{◌≤◌};

use aso_runs::Cell;
use aso_trials_cases::{CaseFault, field, integer, list, number, optional};
use aso_words::Words;
use serde_json::Value;
use std::alloc::{AllocError, Global};
use std::fmt::Write;

/// A key, where the value is one that `W` words hold.
pub fn key<const W: usize>(value: &Value) -> Option<Words<W>>
    requires some { 1 ≤ W }
    requires few { W ≤ 4 }
{
    match integer(value) {
        Ok(number) if number >= 0 => Words::from_u128(number.unsigned_abs()),
        _ => None,
    }
}

fn cell<const W: usize>(value: &Value) -> Option<Cell<W>>
    requires some { 1 ≤ W }
    requires few { W ≤ 4 }
{
    let key = key(optional(value, "key")?)?;
    match integer(optional(value, "amount")?) {
        Ok(amount) => Some(Cell { key, amount }),
        Err(_fault) => None,
    }
}

fn listed<const W: usize>(alloc: Global, rows: &[Value]) -> Result<Vec<Cell<W>>, CaseFault>
    requires some { 1 ≤ W }
    requires few { W ≤ 4 }
{
    let mut cells = Vec::new(alloc);
    for row in rows {
        let Some(cell) = cell(row) else {
            return Err(CaseFault::Value);
        };
        cells.push(cell)?;
    }
    Ok(cells)
}

fn next<const W: usize>(cell: &Cell<W>, step: &Cell<W>) -> Option<Cell<W>> {
    let key = cell.key.plus(&step.key)?;
    let amount = cell.amount.checked_add(step.amount)?;
    Some(Cell { key, amount })
}

fn rising<const W: usize>(alloc: Global, case: &Value) -> Result<Vec<Cell<W>>, CaseFault>
    requires some { 1 ≤ W }
    requires few { W ≤ 4 }
{
    let Some(step) = cell(field(case, "step")?) else {
        return Err(CaseFault::Value);
    };
    let mut at = cell(field(case, "first")?);
    let mut cells = Vec::new(alloc);
    for _ in 0..number(field(case, "count")?)? {
        let Some(cell) = at else {
            return Err(CaseFault::Value);
        };
        cells.push(cell)?;
        at = next(&cell, &step);
    }
    Ok(cells)
}

/// The cells of a case.
pub fn cells_of<const W: usize>(alloc: Global, case: &Value) -> Result<Vec<Cell<W>>, CaseFault>
    requires some { 1 ≤ W }
    requires few { W ≤ 4 }
{
    match optional(case, "cells") {
        Some(rows) => listed(alloc, list(rows)?),
        None => rising(alloc, case),
    }
}

/// The keys of cells with their amounts in units.
pub fn put_cells<const W: usize>(cells: &[Cell<W>], out: &mut String) -> Result<(), AllocError> {
    for cell in cells {
        let key = cell.key.to_u128().unwrap_or(u128::MAX);
        let amount = cell.amount;
        write!(out, " {key} has {amount};")?;
    }
    Ok(())
}
