// Sets and queries: their parts, or the byte at fault.
use crate::utf8::spelled;
use aso_mdx::{Axis, Query, SetText, SyntaxFault, read, read_set};
use aso_num::{List, Text};
use aso_trials_cases::CaseFault;
use std::alloc::{AllocError, Global};
use std::fmt::Write;

fn put_member(parts: &List<Text>, out: &mut String) -> Result<(), AllocError> {
    for part in parts.items() {
        write!(out, "<{}>", part.as_str())?;
    }
    Ok(())
}

fn put_function(name: &str, parts: &List<Text>, out: &mut String) -> Result<(), AllocError> {
    out.push_str(name)?;
    put_member(parts, out)
}

fn put_tuple(members: &[List<Text>], out: &mut String) -> Result<(), AllocError> {
    out.push('(')?;
    for parts in members {
        put_member(parts, out)?;
        out.push(';')?;
    }
    out.push(')')
}

// A member between angle brackets, a tuple in parentheses, a crossing as a product in square brackets.
fn put_set(set: &SetText, out: &mut String) -> Result<(), AllocError> {
    match set {
        SetText::Braced(items) => {
            out.push('{')?;
            for item in items.as_slice() {
                put_set(item, out)?;
            }
            out.push('}')
        }
        SetText::Member(parts) => put_member(parts, out),
        SetText::Tuple(members) => put_tuple(members.items(), out),
        SetText::Children(parts) => put_function("children", parts, out),
        SetText::Members(parts) => put_function("members", parts, out),
        SetText::Descendants(parts) => put_function("descendants", parts, out),
        SetText::Leaves(parts) => put_function("leaves", parts, out),
        SetText::Crossjoin(left, right) => {
            out.push('[')?;
            put_set(left.get(), out)?;
            out.push('*')?;
            put_set(right.get(), out)?;
            out.push(']')
        }
    }
}

fn put_fault(fault: &SyntaxFault, out: &mut String) -> Result<(), AllocError> {
    match fault {
        SyntaxFault::Syntax { at } => write!(out, "byte {at}"),
        SyntaxFault::NoMemory(_) => out.push_str("no memory"),
    }
}

/// The parts of a set, or the byte at fault.
pub fn set_told(alloc: Global, text: &[u8]) -> Result<String, CaseFault> {
    let mut out = String::new(alloc);
    match read_set(alloc, spelled(text)?) {
        Ok(set) => put_set(&set, &mut out)?,
        Err(fault) => put_fault(&fault, &mut out)?,
    }
    Ok(out)
}

fn put_axis(axis: &Axis, out: &mut String) -> Result<(), AllocError> {
    if axis.non_empty {
        out.push_str("non empty ")?;
    }
    put_set(&axis.set, out)
}

fn put_own(query: &Query, out: &mut String) -> Result<(), AllocError> {
    for own in query.own.items() {
        put_member(&own.path, out)?;
        write!(out, "={} at {}; ", own.formula.as_str(), own.solve)?;
    }
    Ok(())
}

fn put_axes(query: &Query, out: &mut String) -> Result<(), AllocError> {
    put_axis(&query.columns, out)?;
    if let Some(rows) = &query.rows {
        out.push_str(" by ")?;
        put_axis(rows, out)?;
    }
    Ok(())
}

fn put_query(query: &Query, out: &mut String) -> Result<(), AllocError> {
    put_own(query, out)?;
    put_axes(query, out)?;
    write!(out, " of {}/{}", query.app.as_str(), query.db.as_str())?;
    for member in query.slicer.items() {
        out.push_str(" in ")?;
        put_member(member, out)?;
    }
    Ok(())
}

/// The parts of a query, or the byte at fault.
pub fn query_told(alloc: Global, text: &[u8]) -> Result<String, CaseFault> {
    let mut out = String::new(alloc);
    match read(alloc, spelled(text)?) {
        Ok(query) => put_query(&query, &mut out)?,
        Err(fault) => put_fault(&fault, &mut out)?,
    }
    Ok(out)
}
