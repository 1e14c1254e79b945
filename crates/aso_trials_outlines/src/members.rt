// Tables of members: where each stands and what it stands for, and what it is.
use crate::lines::mark;
use aso_formula::print;
use aso_outline::{DimRef, Outline, Seat};
use aso_trials_cases::CaseFault;
use std::alloc::{AllocError, Global};
use std::fmt::Write;

/// A number, or - where there is none.
pub fn put_option(number: Option<u32>, out: &mut String) -> Result<(), AllocError> {
    match number {
        Some(number) => write!(out, " {number}"),
        None => out.push_str(" -"),
    }
}

/// A dimension with the hierarchy and the place in its tree, with the place alone in an attribute dimension, or by itself.
fn put_seat(seat: Seat, out: &mut String) -> Result<(), AllocError> {
    match seat {
        Seat::Whole { dim } => write!(out, "seat {dim}"),
        Seat::Inner { dim, hier, at } => write!(out, "seat {dim}.{hier}.{at}"),
        Seat::Carried { attr, at } => write!(out, "attribute seat {attr}.{at}"),
    }
}

fn put_dim(dim: DimRef, out: &mut String) -> Result<(), AllocError> {
    match dim {
        DimRef::Base(dim) => write!(out, "dimension {dim}"),
        DimRef::Attr(attr) => write!(out, "attribute dimension {attr}"),
    }
}

/// The member of a number, its seat, its dimension and its hierarchy, and the member that its name finds.
fn put_place(outline: &Outline, m: u32, out: &mut String) -> Result<(), AllocError> {
    if m >= outline.members() {
        return Ok(());
    }
    let name = outline.name(m);
    write!(out, "{m} {name}: ")?;
    put_seat(outline.seat(m), out)?;
    out.push_str(", ")?;
    put_dim(outline.dim_of(m), out)?;
    let hier = outline.hier_of(m);
    write!(out, ", hierarchy {hier}, found as")?;
    put_option(outline.find(name), out)
}

/// The height of a member, the data leaf that it is, and what it stands for.
fn put_meaning(outline: &Outline, m: u32, out: &mut String) -> Result<(), AllocError> {
    if m >= outline.members() {
        return Ok(());
    }
    let height = outline.height(m);
    write!(out, ", height {height}, leaf")?;
    put_option(outline.leaf_of(m), out)?;
    let resolved = outline.resolve(m);
    let target = outline.target(m);
    write!(out, ", stands for {resolved}, in a tuple for {target}\n")
}

/// Adds a line for each member: where it stands, its height and what it stands for.
pub fn put_places(outline: &Outline, out: &mut String) -> Result<(), AllocError> {
    out.push_str("-- members\n")?;
    for m in 0..outline.members() {
        put_place(outline, m, out)?;
        put_meaning(outline, m, out)?;
    }
    Ok(())
}

/// Whether a member is stored, a data leaf, and of which rank.
fn put_kind(outline: &Outline, m: u32, out: &mut String) -> Result<(), AllocError> {
    if m >= outline.members() {
        return Ok(());
    }
    let name = outline.name(m);
    let kind = if outline.is_stored(m) {
        "stored"
    } else {
        "computed"
    };
    write!(out, "{m} {name}: {kind}")?;
    if outline.is_data_leaf(outline.seat(m)) {
        out.push_str(" data leaf")?;
    }
    let rank = outline.rank(m);
    let op = mark(outline.op(m));
    write!(out, ", rank {rank}, operator {op}")
}

/// The solve order of a computed member, and its formula.
fn put_order(alloc: Global, outline: &Outline, m: u32, out: &mut String) -> Result<(), CaseFault> {
    if m >= outline.members() {
        return Ok(());
    }
    if !outline.is_stored(m) {
        let solve = outline.solve(m);
        write!(out, ", solve order {solve}")?;
    }
    if let Some(formula) = outline.formula(m) {
        let formula = print(alloc, formula)?;
        write!(out, ", formula {formula}")?;
    }
    out.push('\n')?;
    Ok(())
}

/// Adds a line for each member: whether it is stored, its rank, its operator, its solve order and its formula.
pub fn put_kinds(alloc: Global, outline: &Outline, out: &mut String) -> Result<(), CaseFault> {
    out.push_str("-- kinds\n")?;
    for m in 0..outline.members() {
        put_kind(outline, m, out)?;
        put_order(alloc, outline, m, out)?;
    }
    Ok(())
}
