// What is done with values that may be out of range.
ghost use Rattle.std.specs.Prelude.{◌≡◌, IfOk};
ghost use Rattle.aso_num.specs.Numbers.{IsInRange, ranged};
ghost use Rattle.aso_calc.specs.Values.{applied, combined, negated};

use aso_num::{OutOfRange, Val, add, div, mul, neg, sub};
use aso_outline::Op;

/// Missing, a number in range, or out of range.
pub type Outcome = Result<Val, OutOfRange>;

fn combined(op: Op, a: Val, b: Val) -> Outcome
    requires left { IsInRange a }
    requires right { IsInRange b }
    ensures { result ≡ combined op a b }
{
    match op {
        Op::Plus => add(a, b),
        Op::Minus => sub(a, b),
        Op::Times => mul(a, b),
        Op::Over => div(a, b),
        Op::Skip => Ok(a),
    }
}

/// The result of an operator. An operand that is out of range makes it so, but one that is passed over.
pub fn applied(op: Op, a: Outcome, b: Outcome) -> Outcome
    requires left { IfOk a IsInRange }
    requires right { IfOk b IsInRange }
    ensures value { result ≡ applied op a b }
    ensures range { IfOk result IsInRange }
{
    if let Op::Skip = op {
        return a;
    }
    match (a, b) {
        (Ok(x), Ok(y)) => combined(op, x, y),
        (Err(e), _) | (_, Err(e)) => Err(e),
    }
}

pub fn negated(a: Outcome) -> Outcome
    requires { IfOk a IsInRange }
    ensures value { result ≡ negated a }
    ensures range { IfOk result IsInRange }
{
    match a {
        Ok(x) => Ok(neg(x)),
        Err(e) => Err(e),
    }
}

/// A number of a formula, or a stored value.
pub fn ranged(a: Val) -> Outcome
    ensures value { result ≡ ranged a }
    ensures range { IfOk result IsInRange }
{
    match a {
        Val::Missing => Ok(Val::Missing),
        Val::Num(units) => {
            if units.unsigned_abs() <= LARGEST {
                Ok(Val::Num(units))
            } else {
                Err(OutOfRange)
            }
        }
    }
}

const LARGEST: u128 = 1_000_000_000_000_000_000_000_000_000_000;
