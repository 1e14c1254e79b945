// The outlines of cases: a file with one as JSON, or a list of how many leaves each dimension has below its own member.
use aso_outjson::read;
use aso_outline::Outline;
use aso_trials_cases::{CaseFault, field, list, number};
use serde_json::Value;
use std::alloc::{AllocError, Global};
use std::fmt::Write;
use std::fs;
use std::rt::Files;

fn put_dimension(place: usize, leaves: u64, out: &mut String) -> Result<(), AllocError> {
    write!(
        out,
        "{{\"name\":\"D{place}\",\"hierarchies\":[{{\"kind\":\"stored\",\"root\":{{\"name\":\"D{place}\",\"children\":["
    )?;
    let mut between = "";
    for leaf in 0..leaves {
        write!(out, "{between}{{\"name\":\"D{place}m{leaf}\"}}")?;
        between = ",";
    }
    out.push_str("]}}]}")
}

fn flat(alloc: Global, counts: &[Value]) -> Result<String, CaseFault> {
    let mut out = String::from_str(
        alloc,
        "{\"app\":\"Sample\",\"db\":\"Flat\",\"dimensions\":[",
    )?;
    let mut between = "";
    for (place, leaves) in counts.iter().enumerate() {
        out.push_str(between)?;
        put_dimension(place, number(leaves)?, &mut out)?;
        between = ",";
    }
    out.push_str("]}")?;
    Ok(out)
}

fn text_of<R: Files + AllocGlobal>(rt: &R, value: &Value) -> Result<Vec<u8>, CaseFault> {
    match value {
        Value::String(path) => Ok(fs::read(rt, path.as_str())?),
        _ => Ok(flat(rt.alloc(), list(value)?)?.into_bytes()),
    }
}

/// The outline of a case.
pub fn outline_of<R: Files + AllocGlobal>(rt: &R, case: &Value) -> Result<Outline, CaseFault> {
    let text = text_of(rt, field(case, "outline")?)?;
    match read(rt.alloc(), &text) {
        Ok(outline) => Ok(outline),
        Err(_fault) => Err(CaseFault::Value),
    }
}
