ghost use Rattle.std.specs.Prelude.{List, ℕ, ◌≡◌, ◌++◌, ◌<◌, ◌+◌, ◌≤◌, OnOk, IfOk};
ghost use Rattle.std.specs.String.{string_bytes};
ghost use Rattle.aso_formula.specs.Printing.{mark_of, level_of, op_text, bracketed as bracketed_text, cell_text, decimals_text, units_text, number_text, only_if, shown, formula_text, parens_of};
ghost use Rattle.aso_formula.specs.Formula.{SpellsFormula};

use aso_memory::NoMemory;
use aso_num::Text;
use aso_outline::{Expr, Op};
use std::alloc::{AllocError, Global};
use std::fmt::Write;

fn mark(op: Op) -> char
    ensures { result ≡ mark_of op }
{
    match op {
        Op::Plus => '+',
        Op::Minus => '-',
        Op::Times => '*',
        Op::Over => '/',
        Op::Skip => '~',
    }
}

fn put_op(op: Op, out: &mut String) -> Result<(), AllocError>
    ensures { OnOk result (string_bytes out.new ≡ string_bytes out.old ++ op_text op) }
{
    out.push(' ')?;
    out.push(mark(op))?;
    out.push(' ')?;
    Ok(())
}

fn level(op: Op) -> u8
    ensures value { result ≡ level_of op }
    ensures small { result ≤ 1 }
{
    match op {
        Op::Plus | Op::Minus | Op::Skip => 0,
        Op::Times | Op::Over => 1,
    }
}

fn put_name(name: &Text, out: &mut String) -> Result<(), AllocError>
    ensures { OnOk result (string_bytes out.new ≡ string_bytes out.old ++ bracketed_text name.now) }
{
    out.push('[')?;
    out.push_str(name.as_str())?;
    out.push(']')?;
    Ok(())
}

fn digit(n: u128) -> char
    requires { n < 10 }
    ensures { result ≡ 48 + n }
{
    char::from(b'0' + n as u8)
}

fn put_decimals(n: u128, out: &mut String) -> Result<(), AllocError>
    requires { n < 10000 }
    ensures { OnOk result (string_bytes out.new ≡ string_bytes out.old ++ decimals_text n) }
{
    if n == 0 {
        return Ok(());
    }
    out.push('.')?;
    out.push(digit(n / 1000))?;
    if n % 1000 == 0 {
        return Ok(());
    }
    out.push(digit(n / 100 % 10))?;
    if n % 100 == 0 {
        return Ok(());
    }
    out.push(digit(n / 10 % 10))?;
    if n % 10 == 0 {
        return Ok(());
    }
    out.push(digit(n % 10))?;
    Ok(())
}

fn put_units(units: u128, out: &mut String) -> Result<(), AllocError>
    ensures { OnOk result (string_bytes out.new ≡ string_bytes out.old ++ units_text units) }
{
    let whole = units / 10_000;
    write!(out, "{whole}")?;
    put_decimals(units % 10_000, out)
}

fn put_number(units: i128, out: &mut String) -> Result<(), AllocError>
    ensures { OnOk result (string_bytes out.new ≡ string_bytes out.old ++ number_text units) }
{
    if units < 0 {
        out.push('-')?;
    }
    put_units(units.unsigned_abs(), out)
}

fn put_names(names: &[Text], out: &mut String) -> Result<(), AllocError>
    ensures { OnOk result (string_bytes out.new ≡ string_bytes out.old ++ cell_text names.now) }
{
    match names {
        [] => Ok(()),
        [name] => put_name(name, out),
        [first, others @ ..] => {
            out.push('(')?;
            put_name(first, out)?;
            for name in others {
                out.push_str(", ")?;
                put_name(name, out)?;
            }
            out.push(')')?;
            Ok(())
        }
    }
}

fn put_if(wanted: bool, paren: char, out: &mut String) -> Result<(), AllocError>
    requires { paren < 128 }
    ensures { OnOk result (string_bytes out.new ≡ string_bytes out.old ++ only_if wanted paren) }
{
    if wanted {
        out.push(paren)?;
    }
    Ok(())
}

fn put(e: &Expr, least: u8, out: &mut String) -> Result<(), AllocError>
    ensures { OnOk result (string_bytes out.new ≡ string_bytes out.old ++ shown e.now least) }
{
    match e {
        Expr::Num(units) => put_number(*units, out),
        Expr::Cell(names) => put_names(names.items(), out),
        Expr::Neg(inner) => {
            out.push('-')?;
            put(inner.get(), 2, out)
        }
        Expr::Bin { op, left, right } => {
            let own = level(*op);
            put_if(own < least, '(', out)?;
            put(left.get(), own, out)?;
            put_op(*op, out)?;
            put(right.get(), own + 1, out)?;
            put_if(own < least, ')', out)?;
            Ok(())
        }
    }
}

/// The text of a formula, with parentheses only where reading would otherwise give another tree.
pub fn print(alloc: Global, e: &Expr) -> Result<String, NoMemory>
    ensures text { IfOk result (λ s. string_bytes s ≡ formula_text e.now) }
    ensures reads_again { (text : List ℕ) → SpellsFormula text e.now → IfOk result (λ s. SpellsFormula (string_bytes s) e.now) }
    ensures fewest_parentheses { (text : List ℕ) → SpellsFormula text e.now → IfOk result (λ s. parens_of (string_bytes s) ≤ parens_of text) }
{
    let mut text = String::new(alloc);
    put(e, 0, &mut text)?;
    Ok(text)
}
