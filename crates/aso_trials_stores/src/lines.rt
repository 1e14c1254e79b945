// What lines of scripts say.
use aso_machine::{Reading, read_line};
use aso_mdx::Query;
use aso_script::Addition;
use aso_trials_cases::{CaseFault, field, text};
use serde_json::Value;
use std::alloc::{AllocError, Global};
use std::fmt::Write;

fn put_addition(addition: &Addition, out: &mut String) -> Result<(), AllocError> {
    let amount = addition.amount.as_str();
    let (app, db) = (addition.app.as_str(), addition.db.as_str());
    write!(out, "{amount} to {app}.{db}")
}

fn put_query(query: &Query, out: &mut String) -> Result<(), AllocError> {
    let (app, db) = (query.app.as_str(), query.db.as_str());
    write!(out, "asks {app}.{db}")
}

/// What the line of a row says.
pub fn said(alloc: Global, row: &Value) -> Result<String, CaseFault> {
    let line = text(alloc, field(row, "line")?)?;
    let mut out = String::new(alloc);
    match read_line(alloc, &line)? {
        Reading::Adds(addition) => put_addition(&addition, &mut out)?,
        Reading::Asks(query) => put_query(&query, &mut out)?,
        Reading::Faulty { at } => write!(out, "byte {at}")?,
    }
    Ok(out)
}
