// The stored values that a case gives.
ghost use Rattle.aso_calc.specs.Needs.{AreDistinct};

use crate::setting::Setting;
use crate::tuples::tuple;
use aso_calc::StoredValues;
use aso_num::{Val, parse_amount};
use aso_outline::Tuple;
use aso_trials_cases::{CaseFault, integer, list, optional};
use serde_json::Value;
use std::alloc::Global;

/// A tuple and its value.
#[derive(Debug, Drop)]
pub struct Row {
    at: Tuple,
    value: Val,
}

fn amount(text: &str) -> Result<i128, CaseFault> {
    match parse_amount(text) {
        Ok(amount) => Ok(i128::from(amount.units())),
        Err(_) => Err(CaseFault::Value),
    }
}

// An amount as a text, or whatever is in a range wider than that of amounts as `{"units": number}`.
fn units(value: &Value) -> Result<i128, CaseFault> {
    match value {
        Value::String(text) => amount(text.as_str()),
        _ => match optional(value, "units") {
            Some(units) => integer(units),
            None => Err(CaseFault::Value),
        },
    }
}

fn row_of(alloc: Global, setting: &Setting, value: &Value) -> Result<Row, CaseFault> {
    match list(value)? {
        [at, given] => Ok(Row {
            at: tuple(alloc, setting, at)?,
            value: Val::Num(units(given)?),
        }),
        _ => Err(CaseFault::Value),
    }
}

/// The rows of a case's `stored`, of a tuple and an amount each.
pub fn rows(alloc: Global, setting: &Setting, case: &Value) -> Result<Vec<Row>, CaseFault> {
    let mut all = Vec::new(alloc);
    if let Some(stored) = optional(case, "stored") {
        for value in list(stored)? {
            all.push(row_of(alloc, setting, value)?)?;
        }
    }
    Ok(all)
}

fn is_at(row: &Row, at: &Tuple) -> bool {
    row.at.base.items() == at.base.items() && row.at.attrs.items() == at.attrs.items()
}

// The value of the last row with the tuple. Else it is missing.
fn given(rows: &[Row], at: &Tuple) -> Val {
    let mut value = Val::Missing;
    for row in rows {
        if is_at(row, at) {
            value = row.value;
        }
    }
    value
}

/// The stored value for each of some tuples.
pub fn stored_at(alloc: Global, rows: &[Row], tuples: Vec<Tuple>) -> Result<StoredValues, CaseFault>
    requires { AreDistinct tuples.items }
{
    let mut values = Vec::new(alloc);
    for tuple in tuples.as_slice() {
        values.push(given(rows, tuple))?;
    }
    if values.len() != tuples.len() {
        return Err(CaseFault::Value);
    }
    Ok(StoredValues::new(alloc, tuples, values)?)
}
