// Drafts as rows, those too that no text of an outline writes: of each dimension its name and its trees, which are stored, and of each
// tree its members in order, by name and, but for a root, the place of the parent.
use crate::frames::small;
use crate::verdicts::{accepted, refused};
use aso_num::{List, Text};
use aso_outline::{Aggregate, Draft, DraftDim, DraftHier, DraftMember, Op, Outline, OutlineFault};
use aso_trials_cases::{CaseFault, field, list, string};
use serde_json::Value;
use std::alloc::Global;

fn parent(row: &[Value]) -> Result<u32, CaseFault> {
    match row.get(1) {
        Some(place) => small(place),
        None => Ok(u32::MAX),
    }
}

fn name(alloc: Global, row: &[Value]) -> Result<Text, CaseFault> {
    match row.first() {
        Some(name) => Ok(Text::of(string(alloc, name)?)),
        None => Err(CaseFault::Value),
    }
}

fn member(alloc: Global, row: &[Value]) -> Result<DraftMember, CaseFault> {
    Ok(DraftMember {
        name: name(alloc, row)?,
        parent: parent(row)?,
        shared: false,
        label_only: false,
        op: Op::Plus,
        solve: None,
        formula: None,
        carries: List::of(Vec::new(alloc)),
    })
}

fn tree(alloc: Global, rows: &[Value]) -> Result<DraftHier, CaseFault> {
    let mut members = Vec::new(alloc);
    for row in rows {
        members.push(member(alloc, list(row)?)?)?;
    }
    Ok(DraftHier {
        dynamic: false,
        members: List::of(members),
    })
}

fn dim(alloc: Global, dim: &Value) -> Result<DraftDim, CaseFault> {
    let mut hiers = Vec::new(alloc);
    for rows in list(field(dim, "trees")?)? {
        hiers.push(tree(alloc, list(rows)?)?)?;
    }
    Ok(DraftDim {
        name: Text::of(string(alloc, field(dim, "name")?)?),
        aggregate: Aggregate::All,
        hiers: List::of(hiers),
    })
}

fn draft(alloc: Global, dims: &[Value]) -> Result<Draft, CaseFault> {
    let mut all = Vec::new(alloc);
    for value in dims {
        all.push(dim(alloc, value)?)?;
    }
    Ok(Draft {
        app: Text::of(String::from_str(alloc, "Sample")?),
        db: Text::of(String::from_str(alloc, "Basic")?),
        dims: List::of(all),
        attrs: List::of(Vec::new(alloc)),
    })
}

/// What the rows of a case are.
pub fn given(alloc: Global, case: &Value) -> Result<String, CaseFault> {
    let draft = draft(alloc, list(field(case, "draft")?)?)?;
    match Outline::verify(alloc, draft) {
        Ok(outline) => accepted(alloc, &outline),
        Err(OutlineFault::Refused { rule, member }) => refused(alloc, rule, member),
        Err(OutlineFault::NoMemory(_)) => Err(CaseFault::NoMemory),
    }
}
