// Texts of grids, and names in a row.
use aso_trials_cases::CaseFault;
use std::alloc::{AllocError, Global};
use std::fmt::Write;

/// Of a grid with more bytes its first and last ones are told.
const MOST: usize = 1000;

/// The text that some bytes spell.
pub fn spelled(bytes: &[u8]) -> Result<&str, CaseFault> {
    match std::str::from_utf8(bytes) {
        Ok(text) => Ok(text),
        Err(_) => Err(CaseFault::Value),
    }
}

/// The names of a text, between which bars stand.
pub fn names_in(alloc: Global, text: &str) -> Result<Vec<&str>, AllocError> {
    let mut names = Vec::new(alloc);
    for name in text.split('|') {
        names.push(name)?;
    }
    Ok(names)
}

// Bytes of a grid, in which a bar stands for a tab.
fn put_bytes(alloc: Global, bytes: &[u8], out: &mut String) -> Result<(), CaseFault> {
    let shown = spelled(bytes)?.replace(alloc, "\t", "|")?;
    Ok(out.push_str(shown.as_str())?)
}

fn put_ends(alloc: Global, lines: &[u8], out: &mut String) -> Result<(), CaseFault> {
    if lines.len() <= MOST {
        return put_bytes(alloc, lines, out);
    }
    write!(out, "{} bytes, from ", lines.len())?;
    put_bytes(alloc, &lines[..8], out)?;
    out.push_str(" to ")?;
    put_bytes(alloc, &lines[lines.len() - 15..], out)
}

/// The size of a grid, and below it its lines.
pub fn grid_told(
    alloc: Global,
    rows: u32,
    columns: u32,
    lines: &[u8],
) -> Result<String, CaseFault> {
    let mut out = format!(in alloc; "rows {rows} columns {columns}\n")?;
    put_ends(alloc, lines, &mut out)?;
    Ok(out)
}
