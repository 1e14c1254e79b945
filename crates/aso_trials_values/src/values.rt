// Values: what they need, and what they come to over that, each by itself and all at once.
use crate::setting::{Setting, setting_of};
use crate::stored::{Row, rows, stored_at};
use crate::tuples::{are_long, put_tuple, put_tuples, tuples};
use aso_calc::{CalcFault, StoredValues, needs, value, values};
use aso_num::{Val, print_val};
use aso_outline::Tuple;
use aso_trials_cases::{CaseFault, cases, field, list, string};
use serde_json::Value;
use std::alloc::Global;
use std::rt::Files;

fn put_value(value: Val, out: &mut String) -> Result<(), CaseFault> {
    out.push(' ')?;
    Ok(print_val(value, out)?)
}

fn put_fault(setting: &Setting, fault: &CalcFault, out: &mut String) -> Result<(), CaseFault> {
    match fault {
        CalcFault::Range { tuple } => {
            out.push_str(" past")?;
            Ok(put_tuple(setting, tuple, out)?)
        }
        CalcFault::NoMemory(_) => Err(CaseFault::NoMemory),
    }
}

// The value of each tuple by itself.
fn put_each(
    alloc: Global,
    setting: &Setting,
    asked: &[Tuple],
    stored: &StoredValues,
    out: &mut String,
) -> Result<(), CaseFault> {
    for tuple in asked {
        if tuple.base.items().len() != setting.outline.dims() as usize {
            return Err(CaseFault::Value);
        }
        match value(alloc, &setting.outline, &setting.own, tuple, stored) {
            Ok(value) => put_value(value, out)?,
            Err(fault) => put_fault(setting, &fault, out)?,
        }
    }
    Ok(())
}

fn put_found(
    setting: &Setting,
    found: &Result<Vec<Val>, CalcFault>,
    out: &mut String,
) -> Result<(), CaseFault> {
    match found {
        Ok(values) => {
            for value in values.as_slice() {
                put_value(*value, out)?;
            }
            Ok(())
        }
        Err(fault) => put_fault(setting, fault, out),
    }
}

// Lines that tell what is asked, what it needs and what it comes to.
fn given(
    alloc: Global,
    setting: &Setting,
    rows: &[Row],
    asked: &[Tuple],
) -> Result<String, CaseFault> {
    if !are_long(&setting.outline, asked) {
        return Err(CaseFault::Value);
    }
    let mut out = String::from_str(alloc, "asked")?;
    put_tuples(setting, asked, &mut out)?;
    out.push_str("\n  needs")?;
    let needed = needs(alloc, &setting.outline, &setting.own, asked)?;
    put_tuples(setting, needed.as_slice(), &mut out)?;
    out.push_str("\n  each")?;
    let stored = stored_at(alloc, rows, needed)?;
    put_each(alloc, setting, asked, &stored, &mut out)?;
    out.push_str("\n  all")?;
    let found = values(alloc, &setting.outline, &setting.own, asked, &stored);
    put_found(setting, &found, &mut out)?;
    Ok(out)
}

fn put_case<R: AllocGlobal + Print>(
    rt: &R,
    setting: &Setting,
    case: &Value,
) -> Result<(), CaseFault> {
    let rows = rows(rt.alloc(), setting, case)?;
    for list_asked in list(field(case, "asked")?)? {
        let asked = tuples(rt.alloc(), setting, list_asked)?;
        let given = given(rt.alloc(), setting, rows.as_slice(), asked.as_slice())?;
        println!(rt; "{given}")?;
    }
    Ok(())
}

/// Prints each case of a file: stored values, and the lists of tuples that are asked over them, each list for itself.
pub fn put_all<R: Files + AllocGlobal + Print>(rt: &R, path: &str) -> Result<(), CaseFault> {
    for case in cases(rt, path)?.as_slice() {
        let title = string(rt.alloc(), field(case, "title")?)?;
        println!(rt; "== {title}")?;
        let setting = setting_of(rt, case)?;
        put_case(rt, &setting, case)?;
    }
    Ok(())
}
