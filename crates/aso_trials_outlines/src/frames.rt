// The texts of outlines that cases write. In one that is given as `text` each byte stands for itself; in any other ' stands for ".
// A case may name a frame, a text with marks, in which it puts its own texts.
use aso_outjson::read;
use aso_outline::Outline;
use aso_samples::wide;
use aso_trials_cases::{CaseFault, field, number, optional, string, strings, text};
use serde_json::Value;
use std::alloc::Global;
use std::fmt::Write;

/// A number of 32 bits.
pub fn small(value: &Value) -> Result<u32, CaseFault> {
    match u32::try_from(number(value)?) {
        Ok(n) => Ok(n),
        Err(_) => Err(CaseFault::Value),
    }
}

/// So many formulas of which each names the next member, and a leaf behind them.
fn chain(alloc: Global, links: u64) -> Result<String, CaseFault> {
    let mut out = String::new(alloc);
    for link in 0..links {
        let next = link.saturating_add(1);
        write!(&mut out, "{{'name':'f{link}','formula':'[f{next}]'}},")?;
    }
    write!(&mut out, "{{'name':'f{links}'}}")?;
    Ok(out)
}

/// Dimensions of so many leaves each, and a last one of its own count.
fn wide_dims(alloc: Global, counts: &Value) -> Result<String, CaseFault> {
    let dims = small(field(counts, "dims")?)?;
    let leaves = small(field(counts, "leaves")?)?;
    let last = small(field(counts, "last")?)?;
    Ok(wide(alloc, dims, leaves, last)?)
}

/// The texts that a case puts in its frame.
fn pieces(alloc: Global, case: &Value) -> Result<Vec<String>, CaseFault> {
    if let Some(put) = optional(case, "put") {
        return strings(alloc, put);
    }
    let mut all = Vec::new(alloc);
    if let Some(counts) = optional(case, "wide") {
        all.push(wide_dims(alloc, counts)?)?;
    }
    if let Some(links) = optional(case, "chain") {
        all.push(chain(alloc, number(links)?)?)?;
    }
    Ok(all)
}

/// The text of the frame of a name.
fn frame(alloc: Global, frames: &[Value], name: &str) -> Result<String, CaseFault> {
    for frame in frames {
        let title = string(alloc, field(frame, "title")?)?;
        if title.as_str() == name {
            return string(alloc, field(frame, "json")?);
        }
    }
    Err(CaseFault::Value)
}

/// What stands in the frame where a text is put.
fn mark(alloc: Global, case: &Value) -> Result<String, CaseFault> {
    match optional(case, "at") {
        Some(mark) => string(alloc, mark),
        None => Ok(String::from_str(alloc, "@")?),
    }
}

/// The frame of a case, each of its texts put in place of the first mark that is left.
fn framed(alloc: Global, frames: &[Value], case: &Value) -> Result<String, CaseFault> {
    let name = string(alloc, field(case, "frame")?)?;
    let mark = mark(alloc, case)?;
    let mut out = frame(alloc, frames, name.as_str())?;
    for piece in pieces(alloc, case)?.as_slice() {
        out = out.replacen(alloc, mark.as_str(), piece.as_str(), 1)?;
    }
    Ok(out)
}

/// The text of a case.
pub fn text_of(alloc: Global, frames: &[Value], case: &Value) -> Result<Vec<u8>, CaseFault> {
    if let Some(bytes) = optional(case, "text") {
        return text(alloc, bytes);
    }
    let ticked = match optional(case, "json") {
        Some(json) => string(alloc, json)?,
        None => framed(alloc, frames, case)?,
    };
    let quoted = ticked.replace(alloc, "'", "\"")?;
    Ok(quoted.as_bytes().to_vec(alloc)?)
}

/// The outline of a text.
pub fn outline_of(alloc: Global, text: &[u8]) -> Result<Outline, CaseFault> {
    match read(alloc, text) {
        Ok(outline) => Ok(outline),
        Err(_fault) => Err(CaseFault::Value),
    }
}
