ghost use Rattle.std.specs.Prelude.{◌≡◌, ◌∷◌, ◌++◌, codes, IfOk};
ghost use Rattle.aso_sheettext.specs.Written.{fields, IsMemberLine};
ghost use Rattle.aso_sheettext.specs.Texts.{names};
ghost use Rattle.aso_sheettext.specs.Answer.{SaysPart};

use crate::text::{CellText, MemberText, PartText};
use aso_memory::NoMemory;
use aso_num::parse_amount;
use std::alloc::Global;

fn fields(alloc: Global, text: &str) -> Result<Vec<&str>, NoMemory>
    ensures { IfOk result (λ v. names v.items ≡ fields text.now) }
{
    Ok(text.split('|').collect(alloc)?)
}

// What stands behind `database `.
fn database_of(text: &str) -> Option<PartText<'_>>
    ensures { SaysPart (codes "database " ++ text.now) result }
{
    match text.split_once('.') {
        Some((app, db)) => Some(PartText::Database { app, db }),
        None => None,
    }
}

// What stands behind a dot that begins a line.
fn member_of(text: &str) -> MemberText<'_>
    ensures { IsMemberLine result.depth result.name.now (46 ∷ text.now) }
{
    let mut depth = 1;
    let mut name = text;
    while let Some(deeper) = name.strip_prefix('.') {
        depth += 1;
        name = deeper;
    }
    MemberText { depth, name }
}

// What stands behind `cell `.
fn cell_of(alloc: Global, text: &str) -> Result<Option<PartText<'_>>, NoMemory>
    ensures { IfOk result (λ p. SaysPart (codes "cell " ++ text.now) p) }
{
    let mut names = fields(alloc, text)?;
    let Some(amount) = names.pop() else {
        return Ok(None);
    };
    if names.is_empty() {
        return Ok(None);
    }
    match parse_amount(amount) {
        Ok(amount) => Ok(Some(PartText::Cell(CellText { names, amount }))),
        Err(_) => Ok(None),
    }
}

/// What a line says, or `None` where it is no line of a sheet.
pub(crate) fn part_of(alloc: Global, line: &str) -> Result<Option<PartText<'_>>, NoMemory>
    ensures { IfOk result (λ p. SaysPart line.now p) }
{
    if let Some(text) = line.strip_prefix("database ") {
        return Ok(database_of(text));
    }
    if let Some(name) = line.strip_prefix("dim ") {
        return Ok(Some(PartText::Member(MemberText { depth: 0, name })));
    }
    if let Some(text) = line.strip_prefix('.') {
        return Ok(Some(PartText::Member(member_of(text))));
    }
    if let Some(text) = line.strip_prefix("cell ") {
        return cell_of(alloc, text);
    }
    if let Some(text) = line.strip_prefix("columns ") {
        return Ok(Some(PartText::Columns(fields(alloc, text)?)));
    }
    if let Some(text) = line.strip_prefix("rows ") {
        return Ok(Some(PartText::Rows(fields(alloc, text)?)));
    }
    Ok(None)
}
