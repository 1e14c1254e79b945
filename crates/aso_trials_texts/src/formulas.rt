// Formulas: the tree of a text, and the formula printed again.
use crate::utf8::spelled;
use aso_formula::{FormulaFault, parse, print};
use aso_outline::{Expr, Op};
use aso_trials_cases::CaseFault;
use std::alloc::{AllocError, Global};
use std::fmt::Write;

fn name_of(op: Op) -> &'static str {
    match op {
        Op::Plus => "add",
        Op::Minus => "sub",
        Op::Times => "mul",
        Op::Over => "div",
        Op::Skip => "skip",
    }
}

// The tree of a formula, in which an operator stands before its operands and a number is in units.
fn put_tree(e: &Expr, out: &mut String) -> Result<(), AllocError> {
    match e {
        Expr::Num(units) => write!(out, "{units}")?,
        Expr::Cell(names) => {
            for name in names.items() {
                write!(out, "[{}]", name.as_str())?;
            }
        }
        Expr::Neg(inner) => {
            out.push_str("neg(")?;
            put_tree(inner.get(), out)?;
            out.push(')')?;
        }
        Expr::Bin { op, left, right } => {
            out.push_str(name_of(*op))?;
            out.push('(')?;
            put_tree(left.get(), out)?;
            out.push(',')?;
            put_tree(right.get(), out)?;
            out.push(')')?;
        }
    }
    Ok(())
}

fn put_fault(fault: &FormulaFault, out: &mut String) -> Result<(), AllocError> {
    match fault {
        FormulaFault::Syntax { at } => write!(out, "byte {at}"),
        FormulaFault::Unknown { .. } => out.push_str("unknown"),
        FormulaFault::Foreign { .. } => out.push_str("foreign"),
        FormulaFault::NoMemory(_) => out.push_str("no memory"),
    }
}

/// The tree of a formula and the formula printed again, or the byte at fault.
pub fn told(alloc: Global, text: &[u8]) -> Result<String, CaseFault> {
    let mut out = String::new(alloc);
    match parse(alloc, spelled(text)?) {
        Ok(formula) => {
            put_tree(&formula, &mut out)?;
            out.push_str(" printed ")?;
            out.push_str(print(alloc, &formula)?.as_str())?;
        }
        Err(fault) => put_fault(&fault, &mut out)?,
    }
    Ok(out)
}
