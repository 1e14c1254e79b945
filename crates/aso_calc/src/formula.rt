// A formula over the values of its atoms.
ghost use Rattle.std.specs.Prelude.{◌≡◌, drop, IfOk};
ghost use Rattle.aso_num.specs.Numbers.{IsInRange};
ghost use Rattle.aso_calc.specs.Positions.{checked, first_value, value_from};

use crate::arithmetic::{Outcome, applied, negated, ranged};
use aso_num::Val;
use aso_outline::Expr;

/// The outcome itself where it is in range.
pub fn checked(a: Outcome) -> Outcome
    ensures value { result ≡ checked a }
    ensures range { IfOk result IsInRange }
{
    match a {
        Ok(value) => ranged(value),
        Err(e) => Err(e),
    }
}

fn first_value<'v>(values: &'v [Outcome]) -> (Outcome, &'v [Outcome])
    ensures value { result.0 ≡ checked (first_value values.now) }
    ensures rest { result.1.now ≡ drop 1 values.now }
    ensures range { IfOk result.0 IsInRange }
{
    match values {
        [first, rest @ ..] => (checked(*first), rest),
        [] => (Ok(Val::Missing), values),
    }
}

/// The value of a formula, given those of its atoms in the order of the text, and the values behind these.
#[tactic(auto, using(crate::proofs::FormulaSteps::from_neg, crate::proofs::FormulaSteps::from_bin))]
pub fn evaluate<'v>(formula: &Expr, values: &'v [Outcome]) -> (Outcome, &'v [Outcome])
    ensures value { (result.0, result.1.now) ≡ value_from formula.now values.now }
    ensures range { IfOk result.0 IsInRange }
{
    match formula {
        Expr::Num(units) => (ranged(Val::Num(*units)), values),
        Expr::Cell(_) => first_value(values),
        Expr::Neg(operand) => {
            let (value, rest) = evaluate(operand.get(), values);
            (negated(value), rest)
        }
        Expr::Bin { op, left, right } => {
            let (first, rest) = evaluate(left.get(), values);
            let (second, rest) = evaluate(right.get(), rest);
            (applied(*op, first, second), rest)
        }
    }
}
