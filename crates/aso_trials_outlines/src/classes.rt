// Tables of dimensions: the data leaves of each, what they carry, and their classes.
use crate::members::put_option;
use aso_outline::{DimRef, Outline};
use std::alloc::AllocError;
use std::fmt::Write;

fn name(outline: &Outline, m: u32) -> &str {
    if m < outline.members() {
        outline.name(m)
    } else {
        ""
    }
}

/// The data leaves of a dimension that carry a member.
fn put_carrying(outline: &Outline, dim: u32, m: u32, out: &mut String) -> Result<(), AllocError> {
    if dim >= outline.dims() {
        return Ok(());
    }
    if m >= outline.members() {
        return Ok(());
    }
    for leaf in 0..outline.leaf_count(dim) {
        if outline.carries(dim, leaf, m) {
            write!(out, " {dim}.{leaf}")?;
        }
    }
    Ok(())
}

/// Adds a line for each member: the data leaves that carry it.
pub fn put_carriers(outline: &Outline, out: &mut String) -> Result<(), AllocError> {
    out.push_str("-- leaves that carry it, each behind its dimension\n")?;
    for m in 0..outline.members() {
        let name = name(outline, m);
        write!(out, "{m} {name}:")?;
        for dim in 0..outline.dims() {
            put_carrying(outline, dim, m, out)?;
        }
        out.push('\n')?;
    }
    Ok(())
}

/// A dimension's own member, and its data leaves by their numbers.
fn put_dim(outline: &Outline, dim: u32, out: &mut String) -> Result<(), AllocError> {
    if dim >= outline.dims() {
        return Ok(());
    }
    let root = outline.root(DimRef::Base(dim));
    let name = name(outline, root);
    write!(out, "dimension {dim}: {root} {name}, leaves")?;
    for leaf in 0..outline.leaf_count(dim) {
        let member = outline.leaf_member(dim, leaf);
        write!(out, " {member}")?;
    }
    out.push('\n')
}

fn put_attr(outline: &Outline, attr: u32, out: &mut String) -> Result<(), AllocError> {
    if attr >= outline.attrs() {
        return Ok(());
    }
    let root = outline.root(DimRef::Attr(attr));
    let name = name(outline, root);
    write!(out, "attribute dimension {attr}: {root} {name}\n")
}

/// Adds a line for each dimension.
pub fn put_dims(outline: &Outline, out: &mut String) -> Result<(), AllocError> {
    out.push_str("-- dimensions\n")?;
    for dim in 0..outline.dims() {
        put_dim(outline, dim, out)?;
    }
    for attr in 0..outline.attrs() {
        put_attr(outline, attr, out)?;
    }
    Ok(())
}

/// How many classes a level of a hierarchy has, and the class of each data leaf.
fn put_level(
    outline: &Outline,
    dim: u32,
    hier: u32,
    level: u32,
    out: &mut String,
) -> Result<(), AllocError> {
    if dim >= outline.dims() {
        return Ok(());
    }
    if hier >= outline.hiers(dim) {
        return Ok(());
    }
    if level > outline.top(dim, hier) {
        return Ok(());
    }
    let classes = outline.classes(dim, hier, level);
    write!(
        out,
        "{dim}.{hier} level {level}: classes {classes}, of the leaves"
    )?;
    for leaf in 0..outline.leaf_count(dim) {
        put_option(outline.class_of(dim, hier, level, leaf), out)?;
    }
    out.push('\n')
}

fn put_hier(outline: &Outline, dim: u32, hier: u32, out: &mut String) -> Result<(), AllocError> {
    if dim >= outline.dims() {
        return Ok(());
    }
    if hier >= outline.hiers(dim) {
        return Ok(());
    }
    let kind = if outline.is_dynamic(dim, hier) {
        "dynamic"
    } else {
        "stored"
    };
    let top = outline.top(dim, hier);
    write!(out, "{dim}.{hier} {kind}, top {top}\n")?;
    for level in 0..top.saturating_add(1) {
        put_level(outline, dim, hier, level, out)?;
    }
    Ok(())
}

fn put_hiers(outline: &Outline, dim: u32, out: &mut String) -> Result<(), AllocError> {
    if dim >= outline.dims() {
        return Ok(());
    }
    for hier in 0..outline.hiers(dim) {
        put_hier(outline, dim, hier, out)?;
    }
    Ok(())
}

/// Adds the hierarchies of each dimension, with their levels.
pub fn put_classes(outline: &Outline, out: &mut String) -> Result<(), AllocError> {
    out.push_str("-- classes, behind dimension and hierarchy\n")?;
    for dim in 0..outline.dims() {
        put_hiers(outline, dim, out)?;
    }
    Ok(())
}
