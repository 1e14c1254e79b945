// Records that are folded to runs, and runs that are summed, over keys of two words.
ghost use Rattle.std.specs.Prelude.{◌<◌, ◌^◌};
ghost use Rattle.std.specs.Bool.{OnTrue};
ghost use Rattle.aso_runs.specs.Runs.{greatest, joined};
ghost use Rattle.aso_runs.specs.Cells.{entries_of};

use crate::reading::unsigned;
use aso_runs::{Cell, Run, fold_last, fold_sum, negate, sum_runs};
use aso_trials_cases::{CaseFault, field, integer, list, string};
use aso_words::Words;
use serde_json::Value;
use std::alloc::{AllocError, Global};
use std::fmt::Write;

fn records(alloc: Global, value: &Value) -> Result<Vec<Cell<2>>, CaseFault> {
    let mut all = Vec::new(alloc);
    for item in list(value)? {
        let number = unsigned(field(item, "key")?)?;
        let amount = integer(field(item, "amount")?)?;
        let Some(key) = Words::from_u128(number) else {
            return Err(CaseFault::Value);
        };
        all.push(Cell { key, amount })?;
    }
    Ok(all)
}

// Every amount is within 10^18.
fn are_small(cells: &[Cell<2>]) -> bool
    ensures { OnTrue result (greatest (entries_of cells.now) < 10 ^ 18) }
{
    match cells {
        [] => true,
        [first, rest @ ..] => {
            first.amount.unsigned_abs() < 1_000_000_000_000_000_000 && are_small(rest)
        }
    }
}

fn is_small(run: &Run<2>) -> bool
    ensures { OnTrue result (greatest run.now < 10 ^ 18) }
{
    are_small(run.cells())
}

fn are_runs_small(runs: &[Run<2>]) -> bool
    ensures { OnTrue result (greatest (joined runs.now) < 10 ^ 18) }
{
    match runs {
        [] => true,
        [first, rest @ ..] => is_small(first) && are_runs_small(rest),
    }
}

fn summed(records: Vec<Cell<2>>) -> Result<Run<2>, CaseFault> {
    if !are_small(&records) {
        return Err(CaseFault::Value);
    }
    Ok(fold_sum(records)?)
}

fn negated(run: &Run<2>) -> Result<Run<2>, CaseFault> {
    if !is_small(run) {
        return Err(CaseFault::Value);
    }
    Ok(negate(run)?)
}

fn put_run(run: &Run<2>, out: &mut String) -> Result<(), AllocError> {
    if run.cells().is_empty() {
        out.push_str("no cell")?;
    }
    for (place, cell) in run.cells().iter().enumerate() {
        if place > 0 {
            out.push_str(", ")?;
        }
        match cell.key.to_u128() {
            Some(key) => write!(out, "{key}: {}", cell.amount)?,
            None => out.push_str("a key past 128 bits")?,
        }
    }
    Ok(())
}

/// The run of records that are folded to the last or to the sum of each key, or to the last with the other sign.
pub fn fold_told(alloc: Global, case: &Value) -> Result<String, CaseFault> {
    let fold = string(alloc, field(case, "fold")?)?;
    let records = records(alloc, field(case, "records")?)?;
    let run = match fold.as_str() {
        "last" => fold_last(records)?,
        "sum" => summed(records)?,
        "negated" => negated(&fold_last(records)?)?,
        _ => return Err(CaseFault::Value),
    };
    let mut out = String::new(alloc);
    put_run(&run, &mut out)?;
    Ok(out)
}

/// The sum of runs, each of which is given by its records.
pub fn sum_told(alloc: Global, case: &Value) -> Result<String, CaseFault> {
    let mut runs = Vec::new(alloc);
    for run in list(field(case, "runs")?)? {
        runs.push(fold_last(records(alloc, run)?)?)?;
    }
    if !are_runs_small(&runs) {
        return Err(CaseFault::Value);
    }
    let mut out = String::new(alloc);
    put_run(&sum_runs(alloc, &runs)?, &mut out)?;
    Ok(out)
}
