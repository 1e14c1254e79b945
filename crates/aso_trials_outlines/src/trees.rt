// Tables of what stands below members: children, data leaves and ranges of classes.
use crate::members::put_option;
use aso_outline::Outline;
use aso_trials_cases::CaseFault;
use std::alloc::{AllocError, Global};
use std::fmt::Write;

fn put_children(
    alloc: Global,
    outline: &Outline,
    m: u32,
    out: &mut String,
) -> Result<(), CaseFault> {
    if m >= outline.members() {
        return Ok(());
    }
    let name = outline.name(m);
    write!(out, "{m} {name}: first child")?;
    put_option(outline.first_child(m), out)?;
    out.push_str(", next")?;
    put_option(outline.next_child(m), out)?;
    out.push_str(", children")?;
    let children = outline.children(alloc, m)?;
    if children.is_empty() {
        out.push_str(" -")?;
    }
    for child in children.as_slice() {
        write!(out, " {child}")?;
    }
    Ok(())
}

/// The data leaves that a member holds. All ordinals below the count of members are tried, also those that its dimension doesn't have.
fn put_held(outline: &Outline, m: u32, out: &mut String) -> Result<(), AllocError> {
    if m >= outline.members() {
        return Ok(());
    }
    out.push_str(", holds")?;
    let mut holds_any = false;
    for leaf in 0..outline.members() {
        if outline.holds(m, leaf) {
            write!(out, " {leaf}")?;
            holds_any = true;
        }
    }
    out.push_str(if holds_any { "\n" } else { " -\n" })
}

/// Adds a line for each member: its children, and the data leaves that it holds.
pub fn put_trees(alloc: Global, outline: &Outline, out: &mut String) -> Result<(), CaseFault> {
    out.push_str("-- children and leaves\n")?;
    for m in 0..outline.members() {
        put_children(alloc, outline, m, out)?;
        put_held(outline, m, out)?;
    }
    Ok(())
}

/// The classes of a level that a member holds, where they stand in a row.
fn put_range(outline: &Outline, m: u32, level: u32, out: &mut String) -> Result<(), AllocError> {
    if m >= outline.members() {
        return Ok(());
    }
    if !outline.has_range(m, level) {
        return Ok(());
    }
    let (first, end) = outline.class_range(m, level);
    if first == end {
        write!(out, " {level}:none")
    } else {
        write!(out, " {level}:{first}..{end}")
    }
}

fn put_levels(outline: &Outline, m: u32, out: &mut String) -> Result<(), AllocError> {
    if m >= outline.members() {
        return Ok(());
    }
    let name = outline.name(m);
    write!(out, "{m} {name}:")?;
    for level in 0..outline.members() {
        put_range(outline, m, level, out)?;
    }
    out.push('\n')
}

/// Adds a line for each member: the range of its classes at each level that has one.
pub fn put_ranges(outline: &Outline, out: &mut String) -> Result<(), AllocError> {
    out.push_str("-- ranges of classes, behind their level\n")?;
    for m in 0..outline.members() {
        put_levels(outline, m, out)?;
    }
    Ok(())
}
