// Cells by the names of their leaves.
ghost use Rattle.std.specs.Prelude.{IfOk};
ghost use Rattle.aso_sums.specs.Summing.{AreLeaves};

use crate::texts::{names_in, spelled};
use aso_cellnames::{cell_names, first_unknown, key_named, put_label, wrong_in_cell};
use aso_outline::Outline;
use aso_trials_cases::{CaseFault, field, string};
use serde_json::Value;
use std::alloc::Global;
use std::fmt::Write;

/// The cell that some names name.
pub fn key(alloc: Global, outline: &Outline, names: &[&str]) -> Result<Vec<u32>, CaseFault>
    ensures { IfOk result (λ v. AreLeaves outline.now v.items) }
{
    Ok(key_named(alloc, outline, names)?)
}

// The ordinals of a cell's leaves, and their names in the order of the dimensions.
fn put_cell(
    alloc: Global,
    outline: &Outline,
    names: &[&str],
    out: &mut String,
) -> Result<(), CaseFault> {
    let key = key_named(alloc, outline, names)?;
    for leaf in &key {
        write!(out, "{leaf} ")?;
    }
    let names = cell_names(alloc, outline, &key)?;
    let mut label = Vec::new(alloc);
    put_label(&mut label, &names)?;
    Ok(out.push_str(spelled(&label)?)?)
}

fn named(alloc: Global, outline: &Outline, names: &[&str]) -> Result<String, CaseFault> {
    let mut out = String::new(alloc);
    if let Some(name) = first_unknown(outline, names) {
        write!(out, "unknown {name}")?;
        return Ok(out);
    }
    match wrong_in_cell(alloc, outline, names)? {
        Some(name) => write!(out, "wrong {name}")?,
        None => put_cell(alloc, outline, names, &mut out)?,
    }
    Ok(out)
}

/// The cell that a case's names name, or which of them is unknown or wrong.
pub fn told(alloc: Global, outline: &Outline, case: &Value) -> Result<String, CaseFault> {
    let text = string(alloc, field(case, "names")?)?;
    let names = names_in(alloc, text.as_str())?;
    named(alloc, outline, &names)
}
