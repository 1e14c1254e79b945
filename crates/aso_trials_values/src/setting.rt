// What a case stands on: an outline, and the members of a query's own.
use crate::members::dimension;
use aso_formula::read as read_formula;
use aso_num::Text;
use aso_outjson::read as read_outline;
use aso_outline::{Extra, ExtraMember, Outline};
use aso_trials_cases::{CaseFault, field, list, number, optional, string};
use serde_json::Value;
use std::alloc::Global;
use std::fs;
use std::rt::Files;

/// The solve order of a member that none is given for.
const USUAL_ORDER: u8 = 20;

/// An outline, and the members that a query defines beside those.
#[derive(Debug, Drop)]
pub struct Setting {
    pub outline: Outline,
    pub own: Extra,
}

/// The outline in the file that the case names, else the Basic outline.
fn outline_of<R: Files + AllocGlobal>(rt: &R, case: &Value) -> Result<Outline, CaseFault> {
    let named = optional(case, "outline").and_then(Value::as_str);
    let text = fs::read(rt, named.unwrap_or("basic.json"))?;
    match read_outline(rt.alloc(), &text) {
        Ok(outline) => Ok(outline),
        Err(_) => Err(CaseFault::Value),
    }
}

fn order(row: &Value) -> Result<u8, CaseFault> {
    let Some(order) = optional(row, "order") else {
        return Ok(USUAL_ORDER);
    };
    match u8::try_from(number(order)?) {
        Ok(order) => Ok(order),
        Err(_) => Err(CaseFault::Value),
    }
}

fn own_member(alloc: Global, outline: &Outline, row: &Value) -> Result<ExtraMember, CaseFault> {
    let dim = dimension(outline, field(row, "dimension")?)?;
    let name = string(alloc, field(row, "name")?)?;
    let text = string(alloc, field(row, "formula")?)?;
    let solve = order(row)?;
    match read_formula(alloc, outline, dim, text.as_str()) {
        Ok(formula) => Ok(ExtraMember {
            name: Text::of(name),
            dim,
            formula,
            solve,
        }),
        Err(_) => Err(CaseFault::Value),
    }
}

fn take(alloc: Global, outline: &Outline, row: &Value, own: &mut Extra) -> Result<(), CaseFault> {
    let member = own_member(alloc, outline, row)?;
    if member.dim >= outline.dims() {
        return Err(CaseFault::Value);
    }
    match outline.extend(alloc, own, member) {
        Ok(()) => Ok(()),
        Err(_) => Err(CaseFault::Value),
    }
}

/// The setting of a case. Its members of a query's own are rows with a name, a dimension, a formula and, where it isn't the usual
/// one, a solve order.
pub fn setting_of<R: Files + AllocGlobal>(rt: &R, case: &Value) -> Result<Setting, CaseFault> {
    let outline = outline_of(rt, case)?;
    let mut own = Extra::new(rt.alloc());
    if let Some(rows) = optional(case, "own") {
        for row in list(rows)? {
            take(rt.alloc(), &outline, row, &mut own)?;
        }
    }
    Ok(Setting { outline, own })
}
