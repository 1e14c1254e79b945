// Amounts and values. A number is in units of 1/10000, and null is missing.
ghost use Rattle.std.specs.Prelude.{IfOk};
ghost use Rattle.aso_num.specs.Numbers.{IsInRange};

use aso_num::{OutOfRange, Val, add, div, mul, neg, parse_amount, print_val, sub};
use aso_trials_cases::{CaseFault, field, integer, string};
use serde_json::Value;
use std::alloc::{AllocError, Global};
use std::fmt::Write;

/// The amount of a text, or why it is none.
pub fn amount_told(alloc: Global, case: &Value) -> Result<String, CaseFault> {
    let text = string(alloc, field(case, "text")?)?;
    let text = text.as_str();
    match parse_amount(text) {
        Ok(amount) => Ok(format!(in alloc; "\"{text}\" is {}", amount.units())?),
        Err(fault) => Ok(format!(in alloc; "\"{text}\" is refused: {fault}")?),
    }
}

// A value in range.
fn value(value: &Value) -> Result<Val, CaseFault>
    ensures { IfOk result IsInRange }
{
    if value.is_null() {
        return Ok(Val::Missing);
    }
    let units = integer(value)?;
    if units.unsigned_abs() <= 1_000_000_000_000_000_000_000_000_000_000 {
        Ok(Val::Num(units))
    } else {
        Err(CaseFault::Value)
    }
}

fn put_units(value: Val, out: &mut String) -> Result<(), AllocError> {
    match value {
        Val::Missing => out.push_str("missing"),
        Val::Num(units) => write!(out, "{units}"),
    }
}

/// The text of a value, and its negative.
pub fn value_told(alloc: Global, case: &Value) -> Result<String, CaseFault> {
    let value = value(field(case, "value")?)?;
    let mut out = String::new(alloc);
    put_units(value, &mut out)?;
    out.push_str(" is printed ")?;
    print_val(value, &mut out)?;
    out.push_str(", its negative is ")?;
    put_units(neg(value), &mut out)?;
    Ok(out)
}

fn combined(left: Val, sign: &str, right: Val) -> Result<Result<Val, OutOfRange>, CaseFault>
    requires left { IsInRange left }
    requires right { IsInRange right }
{
    match sign {
        "+" => Ok(add(left, right)),
        "-" => Ok(sub(left, right)),
        "*" => Ok(mul(left, right)),
        "/" => Ok(div(left, right)),
        _ => Err(CaseFault::Value),
    }
}

/// A sum, a difference, a product or a quotient of two values.
pub fn arithmetic_told(alloc: Global, case: &Value) -> Result<String, CaseFault> {
    let left = value(field(case, "left")?)?;
    let right = value(field(case, "right")?)?;
    let sign = string(alloc, field(case, "sign")?)?;
    let mut out = String::new(alloc);
    put_units(left, &mut out)?;
    write!(out, " {} ", sign.as_str())?;
    put_units(right, &mut out)?;
    out.push_str(" = ")?;
    match combined(left, sign.as_str(), right)? {
        Ok(value) => put_units(value, &mut out)?,
        Err(fault) => write!(out, "{fault}")?,
    }
    Ok(out)
}
