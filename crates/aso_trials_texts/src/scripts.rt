// Scripts: their lines, and the additions that some of them spell.
use crate::utf8::spelled;
use aso_script::{Addition, Line, cut_lines, read_addition};
use aso_trials_cases::CaseFault;
use std::alloc::{AllocError, Global};
use std::fmt::Write;

fn put_addition(read: &Addition, out: &mut String) -> Result<(), AllocError> {
    write!(out, "{}/{} ", read.app.as_str(), read.db.as_str())?;
    for name in read.names.items() {
        write!(out, "<{}>", name.as_str())?;
    }
    write!(out, " {}", read.amount.as_str())?;
    let units = read.amount.amount().units();
    write!(out, " {units}")
}

/// The parts of the addition that a line spells, its amount in units too; none where it spells none.
pub fn addition_told(alloc: Global, line: &[u8]) -> Result<String, CaseFault> {
    let mut out = String::new(alloc);
    match read_addition(alloc, line)? {
        Some(read) => put_addition(&read, &mut out)?,
        None => out.push_str("none")?,
    }
    Ok(out)
}

fn put_line(line: &Line, out: &mut String) -> Result<(), CaseFault> {
    let text = spelled(line.bytes)?;
    Ok(write!(out, " {} {text:?}", line.at)?)
}

/// The lines of a script, each behind the byte at which it begins.
pub fn lines_told(alloc: Global, text: &[u8]) -> Result<String, CaseFault> {
    let mut out = String::from_str(alloc, "lines")?;
    let lines = cut_lines(alloc, text)?;
    for line in lines.as_slice() {
        put_line(line, &mut out)?;
    }
    Ok(out)
}
