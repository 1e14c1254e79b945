// Members of a query's own, and the names of tuples.
use aso_axes::{AxisFault, name_of};
use aso_outline::{Extra, ExtraMember, Outline, Tuple};
use aso_samples::extend;
use aso_trials_cases::{CaseFault, list, optional, string};
use serde_json::Value;
use std::alloc::{AllocError, Global};
use std::fmt::Write;

/// The number of Measures in the Basic outline.
const MEASURES: u32 = 2;

/// Of more tuples or cells so many are told.
pub const MOST: usize = 10;

/// The members of the case's own, in Measures, each with the formula of Sales.
pub fn own(alloc: Global, outline: &Outline, case: &Value) -> Result<Extra, CaseFault> {
    let mut extra = Extra::new(alloc);
    if let Some(names) = optional(case, "own") {
        for name in list(names)? {
            let name = string(alloc, name)?;
            extend(
                alloc,
                outline,
                &mut extra,
                name.as_str(),
                MEASURES,
                "[Sales]",
            )?;
        }
    }
    Ok(extra)
}

/// The names of members, each behind the first but one by a slash.
pub fn put_names(
    outline: &Outline,
    own: &[ExtraMember],
    members: &[u32],
    out: &mut String,
) -> Result<(), AllocError> {
    let mut mark = ' ';
    for n in members {
        out.push(mark)?;
        out.push_str(name_of(outline, own, *n))?;
        mark = '/';
    }
    Ok(())
}

// The members of a tuple, and behind a plus its attributes.
fn put_tuple(
    outline: &Outline,
    own: &[ExtraMember],
    tuple: &Tuple,
    out: &mut String,
) -> Result<(), AllocError> {
    put_names(outline, own, tuple.base.items(), out)?;
    for attr in tuple.attrs.items() {
        if let Some(n) = attr {
            write!(out, "+{}", name_of(outline, own, *n))?;
        }
    }
    Ok(())
}

/// How many tuples there are, and the first of them.
pub fn put_tuples(
    outline: &Outline,
    own: &[ExtraMember],
    tuples: &[Tuple],
    out: &mut String,
) -> Result<(), AllocError> {
    write!(out, "{}:", tuples.len())?;
    for tuple in tuples.iter().take(MOST) {
        put_tuple(outline, own, tuple, out)?;
    }
    put_more(tuples.len(), out)
}

/// Two dots where there are more than are told.
pub fn put_more(count: usize, out: &mut String) -> Result<(), AllocError> {
    if count > MOST {
        out.push_str(" ..")?;
    }
    Ok(())
}

/// What stands in the way of tuples.
pub fn put_fault(fault: &AxisFault, out: &mut String) -> Result<(), AllocError> {
    match fault {
        AxisFault::UnknownMember { name } => write!(out, "unknown {}", name.as_str()),
        AxisFault::Dimension { name } => write!(out, "dimension {}", name.as_str()),
        AxisFault::TooLarge { cells } => write!(out, "too large {cells}"),
        AxisFault::NoMemory(_e) => out.push_str("no memory"),
    }
}
