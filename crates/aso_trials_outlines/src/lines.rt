// The draft of an outline as lines: its names, and for each dimension its name and its members.
use aso_num::Text;
use aso_outline::{Aggregate, Draft, DraftAttr, DraftDim, DraftMember, Op};
use std::alloc::AllocError;
use std::fmt::Write;

/// The operator as it is written.
pub fn mark(op: Op) -> char {
    match op {
        Op::Plus => '+',
        Op::Minus => '-',
        Op::Times => '*',
        Op::Over => '/',
        Op::Skip => '~',
    }
}

fn word(aggregate: Aggregate) -> &'static str {
    match aggregate {
        Aggregate::All => "all",
        Aggregate::Top => "top",
        Aggregate::Bottom => "none",
    }
}

fn put_parent(parent: u32, out: &mut String) -> Result<(), AllocError> {
    if parent == u32::MAX {
        out.push_str(" root")
    } else {
        write!(out, " under {parent}")
    }
}

fn put_carried(carries: &[Text], out: &mut String) -> Result<(), AllocError> {
    for name in carries {
        out.push_str(" has ")?;
        out.push_str(name.as_str())?;
    }
    Ok(())
}

/// What a member is marked with, where it isn't what stands for nothing written.
fn put_marks(m: &DraftMember, out: &mut String) -> Result<(), AllocError> {
    if m.shared {
        out.push_str(" shared")?;
    }
    if m.label_only {
        out.push_str(" label")?;
    }
    if m.op != Op::Plus {
        out.push(' ')?;
        out.push(mark(m.op))?;
    }
    if let Some(solve) = m.solve {
        write!(out, " solve {solve}")?;
    }
    if m.formula.is_some() {
        out.push_str(" formula")?;
    }
    Ok(())
}

/// The number, the name and the parent's place of a member, its marks, and what it carries.
fn put_member(number: usize, m: &DraftMember, out: &mut String) -> Result<(), AllocError> {
    let name = m.name.as_str();
    write!(out, "{number} {name}")?;
    put_parent(m.parent, out)?;
    put_marks(m, out)?;
    put_carried(m.carries.items(), out)?;
    out.push('\n')
}

/// Members from a number on, and the number behind them.
fn put_members(
    number: usize,
    members: &[DraftMember],
    out: &mut String,
) -> Result<usize, AllocError> {
    let mut next = number;
    for m in members {
        put_member(next, m, out)?;
        next = next.saturating_add(1);
    }
    Ok(next)
}

fn put_dim(number: usize, dim: &DraftDim, out: &mut String) -> Result<usize, AllocError> {
    let name = dim.name.as_str();
    let offered = word(dim.aggregate);
    write!(out, "dimension {name} {offered}\n")?;
    let mut next = number;
    if 1 < dim.hiers.items().len() {
        write!(out, "{next} {name}\n")?;
        next = next.saturating_add(1);
    }
    for hier in dim.hiers.items() {
        let kind = if hier.dynamic {
            "dynamic\n"
        } else {
            "stored\n"
        };
        out.push_str(kind)?;
        next = put_members(next, hier.members.items(), out)?;
    }
    Ok(next)
}

fn put_attr(number: usize, attr: &DraftAttr, out: &mut String) -> Result<usize, AllocError> {
    let name = attr.name.as_str();
    let base = attr.base.as_str();
    write!(out, "attribute {name} of {base}\n")?;
    put_members(number, attr.members.items(), out)
}

/// Adds the lines of a draft.
pub fn put_draft(draft: &Draft, out: &mut String) -> Result<(), AllocError> {
    let app = draft.app.as_str();
    let db = draft.db.as_str();
    write!(out, "{app} {db}\n")?;
    let mut number = 0usize;
    for dim in draft.dims.items() {
        number = put_dim(number, dim, out)?;
    }
    for attr in draft.attrs.items() {
        number = put_attr(number, attr, out)?;
    }
    Ok(())
}
