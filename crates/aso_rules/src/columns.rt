// The columns of a rules file.
ghost use Rattle.std.specs.Prelude.{◌≡◌, IfOk, codes};
ghost use Rattle.std.specs.Option.{option_map};
ghost use Rattle.serde_json.specs.Find.{get};
ghost use Rattle.serde_json.specs.View.{view};
ghost use Rattle.aso_rules.specs.Json.{all_found, list_of};
ghost use Rattle.aso_rules.specs.Written.{column_ignored, column_of, column_of_amounts, columns_of, counted, dimension_column, fixed_of};

use crate::fields::Fields;
use crate::has_only::has_only;
use crate::texts::{affix, is_true, items, replace, text, texts};
use crate::written::WrittenColumn;
use aso_num::{List, NoMemory, Text};
use serde_json::Value;
use std::alloc::Global;

const MOST_COLUMNS: usize = 256;

fn dimension_column(
    alloc: Global,
    value: &Value,
    said: &Value,
) -> Result<Option<WrittenColumn>, NoMemory>
    ensures { IfOk result (λ c. c ≡ dimension_column (view value.now) (view said.now)) }
{
    let Some(name) = text(alloc, said)? else {
        return Ok(None);
    };
    let Some(prefix) = affix(alloc, value, "prefix")? else {
        return Ok(None);
    };
    let Some(suffix) = affix(alloc, value, "suffix")? else {
        return Ok(None);
    };
    let Some(replace) = replace(alloc, value, "replace")? else {
        return Ok(None);
    };
    Ok(Some(WrittenColumn::Dimension {
        name,
        prefix,
        suffix,
        replace,
    }))
}

fn ignored_column(value: &Value) -> Option<WrittenColumn>
    ensures { result ≡ column_ignored (view value.now) (get (codes "ignore") (view value.now)) }
{
    match value.get("ignore") {
        Some(said) => if has_only(value, Fields::OfIgnored) && is_true(said) {
            Some(WrittenColumn::Ignored)
        } else {
            None
        },
        None => None,
    }
}

fn amounts_column(alloc: Global, value: &Value) -> Result<Option<WrittenColumn>, NoMemory>
    ensures { IfOk result (λ c. c ≡ column_of_amounts (view value.now) (get (codes "data") (view value.now))) }
{
    let Some(said) = value.get("data") else {
        return Ok(ignored_column(value));
    };
    if !has_only(value, Fields::OfAmounts) {
        return Ok(None);
    }
    match texts(alloc, said)? {
        Some(names) => Ok(Some(WrittenColumn::Amounts { names })),
        None => Ok(None),
    }
}

fn column(alloc: Global, value: &Value) -> Result<Option<WrittenColumn>, NoMemory>
    ensures { IfOk result (λ c. c ≡ column_of (view value.now)) }
{
    match value.get("dimension") {
        Some(said) => if has_only(value, Fields::OfDimension) {
            dimension_column(alloc, value, said)
        } else {
            Ok(None)
        },
        None => amounts_column(alloc, value),
    }
}

fn all_columns(alloc: Global, values: &[Value]) -> Result<Option<Vec<WrittenColumn>>, NoMemory>
    ensures { IfOk result (λ cs. option_map (λ v. v.items) cs ≡ all_found (λ v. column_of (view v)) values.now) }
{
    let mut found = Vec::new(alloc);
    for value in values {
        match column(alloc, value)? {
            Some(column) => found.push(column)?,
            None => return Ok(None),
        }
    }
    Ok(Some(found))
}

fn counted(columns: Vec<WrittenColumn>) -> Option<Vec<WrittenColumn>>
    ensures { option_map (λ v. v.items) result ≡ counted columns.items }
{
    if 0 < columns.len() && columns.len() <= MOST_COLUMNS {
        Some(columns)
    } else {
        None
    }
}

fn list_of_columns(alloc: Global, said: &Value) -> Result<Option<Vec<WrittenColumn>>, NoMemory>
    ensures { IfOk result (λ cs. option_map (λ v. v.items) cs ≡ list_of column_of (view said.now)) }
{
    match items(said) {
        Some(values) => all_columns(alloc, values),
        None => Ok(None),
    }
}

/// The columns, 1 to 256 of them.
pub fn columns(alloc: Global, value: &Value) -> Result<Option<Vec<WrittenColumn>>, NoMemory>
    ensures { IfOk result (λ cs. option_map (λ v. v.items) cs ≡ columns_of (view value.now)) }
{
    let Some(said) = value.get("columns") else {
        return Ok(None);
    };
    match list_of_columns(alloc, said)? {
        Some(columns) => Ok(counted(columns)),
        None => Ok(None),
    }
}

/// The names of the fixed members.
pub fn fixed(alloc: Global, value: &Value) -> Result<Option<List<Text>>, NoMemory>
    ensures { IfOk result (λ names. names ≡ fixed_of (view value.now)) }
{
    match value.get("fixed") {
        Some(said) => texts(alloc, said),
        None => Ok(Some(List::of(Vec::new(alloc)))),
    }
}
