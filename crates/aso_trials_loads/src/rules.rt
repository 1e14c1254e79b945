// Rules files. In their texts ' stands for ".
use aso_num::{List, Text};
use aso_outline::Outline;
use aso_rules::{Column, Rules, read};
use aso_trials_cases::{CaseFault, field, text};
use serde_json::Value;
use std::alloc::{AllocError, Global};
use std::fmt::Write;

/// The text of a case's rules file.
fn rules_text(alloc: Global, case: &Value) -> Result<Vec<u8>, CaseFault> {
    let mut all = Vec::new(alloc);
    for byte in text(alloc, field(case, "rules")?)?.as_slice() {
        all.push(if *byte == b'\'' { b'"' } else { *byte })?;
    }
    Ok(all)
}

/// The rules of a case.
pub fn rules_of(alloc: Global, outline: &Outline, case: &Value) -> Result<Rules, CaseFault> {
    let text = rules_text(alloc, case)?;
    match read(alloc, outline, &text) {
        Ok(rules) => Ok(rules),
        Err(_fault) => Err(CaseFault::Value),
    }
}

fn put_members(members: &List<u32>, out: &mut String) -> Result<(), AllocError> {
    for member in members.items() {
        write!(out, " {member}")?;
    }
    Ok(())
}

fn put_pairs(pairs: &List<(Text, Text)>, out: &mut String) -> Result<(), AllocError> {
    for (from, to) in pairs.items() {
        write!(out, ", <{}> is <{}>", from.as_str(), to.as_str())?;
    }
    Ok(())
}

fn put_affixes(prefix: &Text, suffix: &Text, out: &mut String) -> Result<(), AllocError> {
    write!(
        out,
        "<{}> and <{}> around it",
        prefix.as_str(),
        suffix.as_str()
    )
}

/// What the fields of a column are, but for one whose fields are nothing.
fn put_column(number: usize, column: &Column, out: &mut String) -> Result<(), AllocError> {
    match column {
        Column::Ignore => Ok(()),
        Column::Dimension {
            dim,
            prefix,
            suffix,
            replace,
        } => {
            write!(out, "\n  column {number}: dimension {dim}, ")?;
            put_affixes(prefix, suffix, out)?;
            put_pairs(replace, out)
        }
        Column::Amounts { members } => {
            write!(out, "\n  column {number}: amounts at")?;
            put_members(members, out)
        }
    }
}

fn put_columns(columns: &[Column], out: &mut String) -> Result<(), AllocError> {
    for (number, column) in columns.iter().enumerate() {
        put_column(number, column, out)?;
    }
    Ok(())
}

fn put_fixed(fixed: &List<u32>, out: &mut String) -> Result<(), AllocError> {
    if fixed.items().is_empty() {
        return Ok(());
    }
    out.push_str("\n  fixed at")?;
    put_members(fixed, out)
}

fn put_rules(rules: &Rules, out: &mut String) -> Result<(), AllocError> {
    let delimiter = rules.delimiter;
    let header = rules.header_records;
    let count = rules.columns.items().len();
    write!(
        out,
        "\n  delimiter {delimiter}, header records {header}, columns {count}"
    )?;
    put_columns(rules.columns.items(), out)?;
    put_fixed(&rules.fixed, out)
}

/// What the rules are, or the first rule that their text breaks.
pub fn told(alloc: Global, outline: &Outline, case: &Value) -> Result<String, CaseFault> {
    let text = rules_text(alloc, case)?;
    let mut out = String::new(alloc);
    match read(alloc, outline, &text) {
        Ok(rules) => put_rules(&rules, &mut out)?,
        Err(fault) => write!(out, "{fault}")?,
    }
    Ok(out)
}
