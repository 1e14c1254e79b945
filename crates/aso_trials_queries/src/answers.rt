// Queries over stored cells: their grids, or what is printed of a refusal.
ghost use Rattle.std.specs.Prelude.{IfOk};
ghost use Rattle.aso_query.specs.Answers.{IsReady};
ghost use Rattle.aso_sums.specs.Summing.{AreLeaves};

use crate::cells::key;
use crate::texts::{grid_told, names_in, spelled};
use aso_cellnames::wrong_in_cell;
use aso_mdx::{Query, SyntaxFault, read};
use aso_num::{Amount, Val, parse_amount};
use aso_outline::{Outline, Tuple};
use aso_query::{AskFault, Asked, answer, ask};
use aso_sums::Sums;
use aso_trials_cases::{CaseFault, field, optional, string, strings};
use serde_json::Value;
use std::alloc::Global;

// The leaves of a cell by its names.
fn leaves_of(alloc: Global, outline: &Outline, names: &str) -> Result<Vec<u32>, CaseFault>
    ensures { IfOk result (λ v. AreLeaves outline.now v.items) }
{
    let names = names_in(alloc, names)?;
    if wrong_in_cell(alloc, outline, &names)?.is_some() {
        return Err(CaseFault::Value);
    }
    key(alloc, outline, &names)
}

// The leaves and the amount of a cell, `Jan|NY|Sales=5`.
fn cell_of(alloc: Global, outline: &Outline, cell: &str) -> Result<(Vec<u32>, Amount), CaseFault>
    ensures { IfOk result (λ c. AreLeaves outline.now c.0.items) }
{
    let Some((names, amount)) = cell.split_once('=') else {
        return Err(CaseFault::Value);
    };
    let leaves = leaves_of(alloc, outline, names)?;
    match parse_amount(amount) {
        Ok(amount) => Ok((leaves, amount)),
        Err(_fault) => Err(CaseFault::Value),
    }
}

fn cells_of(alloc: Global, case: &Value) -> Result<Vec<String>, CaseFault> {
    match optional(case, "cells") {
        Some(cells) => strings(alloc, cells),
        None => Ok(Vec::new(alloc)),
    }
}

// The values of tuples over the case's cells.
fn stored(
    alloc: Global,
    outline: &Outline,
    tuples: &[Tuple],
    cells: &[String],
) -> Result<Vec<Val>, CaseFault> {
    let mut sums = Sums::new(alloc, outline, tuples)?;
    for cell in cells {
        match cell_of(alloc, outline, cell.as_str()) {
            Ok((leaves, amount)) => sums.add(alloc, outline, &leaves, amount)?,
            Err(fault) => return Err(fault),
        }
    }
    Ok(sums.into_values())
}

fn fault_told(alloc: Global, fault: &AskFault) -> Result<String, CaseFault> {
    match fault {
        AskFault::Refused(refusal) => {
            let text = refusal.text(alloc)?;
            Ok(String::from_str(alloc, spelled(&text)?)?)
        }
        AskFault::NoMemory(_e) => Err(CaseFault::NoMemory),
    }
}

fn over(
    alloc: Global,
    outline: &Outline,
    asked: Asked,
    cells: &[String],
) -> Result<String, CaseFault>
    requires { IsReady outline.now asked }
{
    let values = stored(alloc, outline, &asked.needs, cells)?;
    if values.len() != asked.needs.len() {
        return Err(CaseFault::Value);
    }
    match answer(alloc, outline, asked, values) {
        Ok(grid) => grid_told(alloc, grid.rows, grid.columns, &grid.text),
        Err(fault) => fault_told(alloc, &fault),
    }
}

fn answered(
    alloc: Global,
    outline: &Outline,
    query: &Query,
    case: &Value,
) -> Result<String, CaseFault> {
    let cells = cells_of(alloc, case)?;
    match ask(alloc, outline, query) {
        Ok(asked) => over(alloc, outline, asked, &cells),
        Err(fault) => fault_told(alloc, &fault),
    }
}

/// The grid of a case's query over its cells, what is printed of the refusal, or the byte at which the text is no query.
pub fn told(alloc: Global, outline: &Outline, case: &Value) -> Result<String, CaseFault> {
    let text = string(alloc, field(case, "query")?)?;
    match read(alloc, text.as_str()) {
        Ok(query) => answered(alloc, outline, &query, case),
        Err(SyntaxFault::Syntax { at }) => Ok(format!(in alloc; "byte {at}")?),
        Err(SyntaxFault::NoMemory(_e)) => Err(CaseFault::NoMemory),
    }
}
