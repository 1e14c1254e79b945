// The tuples of sets, for an axis and for a region.
use crate::members::{MOST, own, put_fault, put_more, put_names};
use aso_axes::{AxisTuples, Purpose, tuples_for};
use aso_mdx::{SetText, read_set};
use aso_outline::{DimRef, ExtraMember, Outline};
use aso_trials_cases::{CaseFault, field, string};
use serde_json::Value;
use std::alloc::{AllocError, Global};
use std::fmt::Write;

// The dimensions by their ordinals, attribute dimensions with an a.
fn put_dims(dims: &[DimRef], out: &mut String) -> Result<(), AllocError> {
    for dim in dims {
        match dim {
            DimRef::Base(d) => write!(out, " {d}")?,
            DimRef::Attr(a) => write!(out, " a{a}")?,
        }
    }
    Ok(())
}

fn put_tuples(
    outline: &Outline,
    own: &[ExtraMember],
    tuples: &AxisTuples,
    out: &mut String,
) -> Result<(), AllocError> {
    let rows = tuples.rows.items();
    write!(out, "tuples {} of", rows.len())?;
    put_dims(tuples.dims.items(), out)?;
    out.push(':')?;
    for row in rows.iter().take(MOST) {
        put_names(outline, own, row.items(), out)?;
    }
    put_more(rows.len(), out)
}

fn set_of(alloc: Global, case: &Value) -> Result<SetText, CaseFault> {
    let text = string(alloc, field(case, "set")?)?;
    match read_set(alloc, text.as_str()) {
        Ok(set) => Ok(set),
        Err(_fault) => Err(CaseFault::Value),
    }
}

/// The dimensions of a set's tuples and the tuples, or what stands in their way.
pub fn told(
    alloc: Global,
    outline: &Outline,
    purpose: Purpose,
    case: &Value,
) -> Result<String, CaseFault> {
    let extra = own(alloc, outline, case)?;
    let set = set_of(alloc, case)?;
    let mut out = String::new(alloc);
    match tuples_for(alloc, outline, &extra, purpose, &set) {
        Ok(tuples) => put_tuples(outline, extra.members.as_slice(), &tuples, &mut out)?,
        Err(fault) => put_fault(&fault, &mut out)?,
    }
    Ok(out)
}
