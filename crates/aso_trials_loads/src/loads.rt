// What the records of data files come to, one file behind the other, and the cells that they are combined to.
ghost use Rattle.aso_load.specs.Leaves.{StandAtLeaves};

use crate::buffers::{empty, put_combined, put_leaves};
use crate::rules::rules_of;
use aso_buffer::{Buffer, Kind};
use aso_load::{Loaded, Reject, load};
use aso_num::{Amount, List};
use aso_outline::Outline;
use aso_rules::Rules;
use aso_trials_cases::{CaseFault, field, list, optional, text};
use serde_json::Value;
use std::alloc::{AllocError, Global};
use std::fmt::Write;

/// How a case combines the amounts of one key: by their sum, if it doesn't say so.
fn kind_of(case: &Value) -> Result<Kind, CaseFault> {
    let Some(named) = optional(case, "combine") else {
        return Ok(Kind::Sum);
    };
    match named.as_str() {
        Some("sum") => Ok(Kind::Sum),
        Some("last") => Ok(Kind::Last),
        _ => Err(CaseFault::Value),
    }
}

fn put_amount(leaves: &List<u32>, amount: Amount, out: &mut String) -> Result<(), AllocError> {
    out.push_str("\n ")?;
    put_leaves(leaves, out)?;
    let units = amount.units();
    write!(out, " has {units}")
}

fn put_reject(reject: Reject, out: &mut String) -> Result<(), AllocError> {
    let row = reject.row;
    let reason = reject.reason;
    write!(out, "\n  record {row} is rejected for {reason}")
}

/// The amounts in units, each behind the ordinals of its leaves, the rejected records with their reasons, and how many are skipped.
fn put_loaded(loaded: &Loaded, out: &mut String) -> Result<(), AllocError> {
    for (leaves, amount) in loaded.amounts.items() {
        put_amount(leaves, *amount, out)?;
    }
    for reject in loaded.rejects.items() {
        put_reject(*reject, out)?;
    }
    let skipped = loaded.skipped;
    write!(out, "\n  {skipped} skipped")
}

/// Loads a data file, and puts its amounts behind the others.
fn put_file(
    alloc: Global,
    outline: &Outline,
    rules: &Rules,
    file: &Value,
    buffer: &mut Buffer,
    out: &mut String,
) -> Result<(), CaseFault>
    ensures { StandAtLeaves outline.now buffer.old.records → StandAtLeaves outline.now buffer.new.records }
{
    let text = text(alloc, file)?;
    let loaded = load(alloc, outline, rules, &text)?;
    put_loaded(&loaded, out)?;
    buffer.put(loaded.amounts.items())?;
    Ok(())
}

/// What the data files of a case come to under its rules.
pub fn told(alloc: Global, outline: &Outline, case: &Value) -> Result<String, CaseFault> {
    let rules = rules_of(alloc, outline, case)?;
    let mut buffer = empty(alloc, outline, kind_of(case)?);
    let mut out = String::new(alloc);
    for file in list(field(case, "files")?)? {
        put_file(alloc, outline, &rules, file, &mut buffer, &mut out)?;
    }
    put_combined(alloc, outline, &buffer, &mut out)?;
    Ok(out)
}
