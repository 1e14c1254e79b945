// What the names of a rules file stand for in an outline.
ghost use Rattle.std.specs.Prelude.{◌≡◌, ◌<◌, IfOk, IfSome, length};
ghost use Rattle.std.specs.List.{position_from};
ghost use Rattle.aso_outline.specs.Members.{same_name};
ghost use Rattle.aso_rules.specs.Json.{all_found};
ghost use Rattle.aso_rules.specs.Rules.{column_in, dim_named, leaf_named};

use crate::rules::Column;
use crate::written::WrittenColumn;
use aso_num::{List, NoMemory, Text};
use aso_outline::{DraftDim, Outline};
use std::alloc::Global;

fn place_named(dims: &[DraftDim], name: &str) -> Option<usize>
    ensures value { result ≡ position_from (λ d. same_name d.name name.now) 0 dims.now }
    ensures below { IfSome result (λ i. i < length dims.now) }
{
    for (i, dim) in dims.iter().enumerate() {
        if dim.name.as_str() == name {
            return Some(i);
        }
    }
    None
}

// The base dimension of a name. There are at most 16.
fn dim_named(outline: &Outline, name: &str) -> Option<u32>
    ensures { result ≡ dim_named outline.now name.now }
{
    outline.keeps_counts();
    match place_named(outline.draft().dims.items(), name) {
        Some(dim) => Some(dim as u32),
        None => None,
    }
}

// The number of the data leaf of a name.
fn leaf_named(outline: &Outline, name: &str) -> Option<u32>
    ensures { result ≡ leaf_named outline.now name.now }
{
    match outline.find(name) {
        Some(m) if outline.is_data_leaf(outline.seat(m)) => Some(m),
        _ => None,
    }
}

/// The numbers of data leaves, if each name is that of one.
pub fn leaves_named(
    alloc: Global,
    outline: &Outline,
    names: &[Text],
) -> Result<Option<List<u32>>, NoMemory>
    ensures { IfOk result (λ ms. ms ≡ all_found (leaf_named outline.now) names.now) }
{
    let mut found = Vec::new(alloc);
    for name in names {
        match leaf_named(outline, name.as_str()) {
            Some(m) => found.push(m)?,
            None => return Ok(None),
        }
    }
    Ok(Some(List::of(found)))
}

fn column_in(
    alloc: Global,
    outline: &Outline,
    column: WrittenColumn,
) -> Result<Option<Column>, NoMemory>
    ensures { IfOk result (λ c. c ≡ column_in outline.now column) }
{
    match column {
        WrittenColumn::Ignored => Ok(Some(Column::Ignore)),
        WrittenColumn::Dimension {
            name,
            prefix,
            suffix,
            replace,
        } => match dim_named(outline, name.as_str()) {
            Some(dim) => Ok(Some(Column::Dimension {
                dim,
                prefix,
                suffix,
                replace,
            })),
            None => Ok(None),
        },
        WrittenColumn::Amounts { names } => match leaves_named(alloc, outline, names.items())? {
            Some(members) => Ok(Some(Column::Amounts { members })),
            None => Ok(None),
        },
    }
}

/// The columns, if each dimension and each data leaf is known.
pub fn columns_in(
    alloc: Global,
    outline: &Outline,
    columns: Vec<WrittenColumn>,
) -> Result<Option<List<Column>>, NoMemory>
    ensures { IfOk result (λ cs. cs ≡ all_found (column_in outline.now) columns.items) }
{
    let mut found = Vec::new(alloc);
    for column in columns {
        match column_in(alloc, outline, column)? {
            Some(column) => found.push(column)?,
            None => return Ok(None),
        }
    }
    Ok(Some(List::of(found)))
}
