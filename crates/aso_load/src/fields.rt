// What a field comes to under its column.
ghost use Rattle.std.specs.Prelude.{◌≡◌, ◌++◌, IfOk, OnOk, Ok, length};
ghost use Rattle.std.specs.Str.{is_utf8};
ghost use Rattle.csv.specs.Records.{fields_of};
ghost use Rattle.aso_load.specs.Fields.{is_ignored, is_missing, told, told_amount, told_text};
ghost use Rattle.aso_load.specs.Records.{told_all};

use crate::members::{replaced, told_member};
use crate::spaces::trimmed;
use crate::told::Told;
use aso_num::{NoMemory, NumberFault, parse_amount};
use aso_outline::Outline;
use aso_rules::Column;
use csv::ByteRecord;
use std::str;

fn is_missing(text: &str) -> bool
    ensures { result ≡ is_missing text.now }
{
    text == "" || text == "#Mi" || text == "#Missing"
}

fn told_amount(text: &str) -> Told
    ensures { result ≡ told_amount text.now }
{
    if is_missing(text) {
        return Told::Nothing;
    }
    match parse_amount(text) {
        Ok(amount) => Told::Amount(amount),
        Err(NumberFault::Range) => Told::Fault { reason: 6 },
        Err(_) => Told::Fault { reason: 5 },
    }
}

fn told_text(
    outline: &Outline,
    column: &Column,
    text: &str,
    joined: &mut String,
) -> Result<Told, NoMemory>
    ensures { IfOk result (λ t. t ≡ told_text outline.now column.now text.now) }
{
    match column {
        Column::Ignore => Ok(Told::Nothing),
        Column::Dimension {
            dim,
            prefix,
            suffix,
            replace,
        } => {
            let name = replaced(replace.items(), text);
            told_member(
                outline,
                *dim,
                prefix.as_str(),
                suffix.as_str(),
                name,
                joined,
            )
        }
        Column::Amounts { .. } => Ok(told_amount(text)),
    }
}

fn is_ignored(column: &Column) -> bool
    ensures { result ≡ is_ignored column.now }
{
    match column {
        Column::Ignore => true,
        _ => false,
    }
}

// A field is cut and read as it stands; memory is taken only for a name with a prefix or suffix.
fn told(
    outline: &Outline,
    column: &Column,
    field: &[u8],
    joined: &mut String,
) -> Result<Told, NoMemory>
    ensures { IfOk result (λ t. t ≡ told outline.now column.now field.now) }
{
    if is_ignored(column) {
        return Ok(Told::Nothing);
    }
    match str::from_utf8(trimmed(field)) {
        Ok(text) => told_text(outline, column, text, joined),
        Err(_) => Ok(Told::Fault { reason: 2 }),
    }
}

/// What each field of a record comes to, behind nothing else. Fields or columns without each other come to nothing.
pub fn tell_all(
    outline: &Outline,
    columns: &[Column],
    row: &ByteRecord,
    joined: &mut String,
    told_so_far: &mut Vec<Told>,
) -> Result<(), NoMemory>
    ensures { OnOk result (told_so_far.new.items ≡ told_all outline.now columns.now (fields_of row.now)) }
{
    told_so_far.clear();
    for (i, column) in columns.iter().enumerate() {
        match row.get(i) {
            Some(field) => told_so_far.push(told(outline, column, field, joined)?)?,
            None => return Ok(()),
        }
    }
    Ok(())
}
