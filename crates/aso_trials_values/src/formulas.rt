// Formulas in the dimensions of an outline: printed again, or what is wrong with them at which byte.
use crate::members::dimension;
use crate::setting::{Setting, setting_of};
use aso_formula::{FormulaFault, print, read};
use aso_trials_cases::{CaseFault, cases, field, string};
use serde_json::Value;
use std::alloc::Global;
use std::rt::Files;

fn fault_of(alloc: Global, fault: &FormulaFault) -> Result<String, CaseFault> {
    match fault {
        FormulaFault::Syntax { at } => Ok(format!(in alloc; "syntax, byte {at}")?),
        FormulaFault::Unknown { name, at } => {
            let name = name.as_str();
            Ok(format!(in alloc; "unknown [{name}], byte {at}")?)
        }
        FormulaFault::Foreign { at } => Ok(format!(in alloc; "foreign, byte {at}")?),
        FormulaFault::NoMemory(_) => Err(CaseFault::NoMemory),
    }
}

fn given(alloc: Global, setting: &Setting, case: &Value) -> Result<String, CaseFault> {
    let dim = dimension(&setting.outline, field(case, "dimension")?)?;
    let text = string(alloc, field(case, "text")?)?;
    match read(alloc, &setting.outline, dim, text.as_str()) {
        Ok(formula) => Ok(print(alloc, &formula)?),
        Err(fault) => fault_of(alloc, &fault),
    }
}

/// Prints each case of a file: a dimension, and the text of a formula in it.
pub fn put_all<R: Files + AllocGlobal + Print>(rt: &R, path: &str) -> Result<(), CaseFault> {
    for case in cases(rt, path)?.as_slice() {
        let title = string(rt.alloc(), field(case, "title")?)?;
        let setting = setting_of(rt, case)?;
        let given = given(rt.alloc(), &setting, case)?;
        println!(rt; "{title}: {given}")?;
    }
    Ok(())
}
