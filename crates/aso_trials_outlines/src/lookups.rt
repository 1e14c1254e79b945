// What an outline tells of its members, in tables.
use crate::classes::{put_carriers, put_classes, put_dims};
use crate::frames::{outline_of, text_of};
use crate::lines::put_draft;
use crate::members::{put_kinds, put_option, put_places};
use crate::trees::{put_ranges, put_trees};
use aso_outline::Outline;
use aso_trials_cases::{CaseFault, optional, strings};
use serde_json::Value;
use std::alloc::Global;
use std::fmt::Write;

fn put_counts(alloc: Global, outline: &Outline, out: &mut String) -> Result<(), CaseFault> {
    let members = outline.members();
    let seats = outline.seats(alloc)?.len();
    let dims = outline.dims();
    let attrs = outline.attrs();
    write!(
        out,
        "members {members}, seats {seats}, base dimensions {dims}, attribute dimensions {attrs}\n"
    )?;
    Ok(())
}

/// The numbers of the members of the names that a case asks for.
fn put_names(
    alloc: Global,
    outline: &Outline,
    case: &Value,
    out: &mut String,
) -> Result<(), CaseFault> {
    if let Some(names) = optional(case, "names") {
        out.push_str("-- names\n")?;
        for name in strings(alloc, names)?.as_slice() {
            let name = name.as_str();
            write!(out, "{name}:")?;
            put_option(outline.find(name), out)?;
            out.push('\n')?;
        }
    }
    Ok(())
}

/// The tables of the outline of a case.
pub fn given(alloc: Global, frames: &[Value], case: &Value) -> Result<String, CaseFault> {
    let text = text_of(alloc, frames, case)?;
    let outline = outline_of(alloc, text.as_slice())?;
    let mut out = String::new(alloc);
    put_draft(outline.draft(), &mut out)?;
    put_counts(alloc, &outline, &mut out)?;
    put_names(alloc, &outline, case, &mut out)?;
    put_places(&outline, &mut out)?;
    put_kinds(alloc, &outline, &mut out)?;
    put_trees(alloc, &outline, &mut out)?;
    put_ranges(&outline, &mut out)?;
    put_carriers(&outline, &mut out)?;
    put_dims(&outline, &mut out)?;
    put_classes(&outline, &mut out)?;
    Ok(out)
}
