ghost use Rattle.std.specs.Prelude.{◌≡◌, ◌≤◌, ◌<◌, length, option_map, IfOk, IfErr, IfSome};
ghost use Rattle.aso_token.specs.Reads.{Answers, FaultIn, finished, Gives, tokens_of, front_of, read_one};
ghost use Rattle.aso_token.specs.Marks.{name};
ghost use Rattle.aso_formula.specs.Formula.{sum_mark, product_mark, minus, operated, Formula};
ghost use Rattle.aso_outline.specs.declared.draft.Expr.{Expr};
ghost use Rattle.aso_formula.specs.Formula.{atom as atom_of};
ghost use Rattle.aso_formula.specs.Reading.{read_term, read_sum, read_behind, read_rest, read_negated, read_closed, pair_front, read_inside, read_factor};

use aso_num::{List, Text};
use aso_outline::{Expr, Op};
use aso_token::{Mark, Piece, Placed, Stop, Token, after_comma, after_open, close, parse_number};
use sqlite_items::Boxed;
use std::alloc::{AllocError, Global};

fn product_op(token: &Token<'_>) -> Option<Op>
    ensures { result ≡ product_mark token.now }
{
    match token {
        Token::Mark(Mark::Star) => Some(Op::Times),
        Token::Mark(Mark::Slash) => Some(Op::Over),
        _ => None,
    }
}

fn sum_op(token: &Token<'_>) -> Option<Op>
    ensures { result ≡ sum_mark token.now }
{
    match token {
        Token::Mark(Mark::Plus) => Some(Op::Plus),
        Token::Mark(Mark::Minus) => Some(Op::Minus),
        _ => None,
    }
}

pub(crate) fn copied(alloc: Global, piece: &Piece<'_>) -> Result<Text, AllocError>
    ensures { IfOk result (λ t. t ≡ piece.now) }
{
    Ok(Text::of(String::from_str(alloc, piece.as_str())?))
}

// A number or a member.
fn atom<'s, 'a>(
    alloc: Global,
    tokens: &'s [Placed<'a>],
) -> Result<(Expr, &'s [Placed<'a>]), Stop<'s, 'a>>
    ensures { Gives (λ x. (x.0, tokens_of x.1.now)) result (read_one atom_of (tokens_of tokens.now)) }
{
    let [first, rest @ ..] = tokens else {
        return Err(Stop::At(tokens));
    };
    match &first.token {
        Token::Number(piece) => match parse_number(piece.as_str()) {
            Some(amount) => Ok((Expr::Num(i128::from(amount.units())), rest)),
            None => Err(Stop::At(tokens)),
        },
        Token::Name(piece) => {
            let mut names = Vec::new(alloc);
            names.push(copied(alloc, piece)?)?;
            Ok((Expr::Cell(List::of(names)), rest))
        }
        _ => Err(Stop::At(tokens)),
    }
}

fn product_front<'s, 'a>(tokens: &'s [Placed<'a>]) -> Option<(Op, &'s [Placed<'a>])>
    ensures { option_map (λ x. (x.0, tokens_of x.1.now)) result ≡ front_of product_mark (tokens_of tokens.now) }
{
    let [first, rest @ ..] = tokens else {
        return None;
    };
    match product_op(&first.token) {
        Some(op) => Some((op, rest)),
        None => None,
    }
}

fn sum_front<'s, 'a>(tokens: &'s [Placed<'a>]) -> Option<(Op, &'s [Placed<'a>])>
    ensures { option_map (λ x. (x.0, tokens_of x.1.now)) result ≡ front_of sum_mark (tokens_of tokens.now) }
{
    let [first, rest @ ..] = tokens else {
        return None;
    };
    match sum_op(&first.token) {
        Some(op) => Some((op, rest)),
        None => None,
    }
}

fn bracketed<'s, 'a>(
    alloc: Global,
    tokens: &'s [Placed<'a>],
) -> Result<(Text, &'s [Placed<'a>]), Stop<'s, 'a>>
    ensures { Gives (λ x. (x.0, tokens_of x.1.now)) result (read_one name (tokens_of tokens.now)) }
{
    let [first, rest @ ..] = tokens else {
        return Err(Stop::At(tokens));
    };
    match &first.token {
        Token::Name(piece) => Ok((copied(alloc, piece)?, rest)),
        _ => Err(Stop::At(tokens)),
    }
}

fn binary(alloc: Global, op: Op, left: Expr, right: Expr) -> Result<Expr, AllocError>
    ensures { IfOk result (λ e. e ≡ operated left (op, right)) }
{
    Ok(Expr::Bin {
        op,
        left: Boxed::new(alloc, left)?,
        right: Boxed::new(alloc, right)?,
    })
}

// Members with commas between them, behind those that stand already.
fn names<'s, 'a>(
    alloc: Global,
    first: Text,
    tokens: &'s [Placed<'a>],
) -> Result<(List<Text>, &'s [Placed<'a>]), Stop<'s, 'a>>
    ensures { Gives (λ x. (x.0, tokens_of x.1.now)) result (read_behind first (tokens_of tokens.now)) }
{
    let mut all = Vec::new(alloc);
    all.push(first)?;
    let (second, mut rest) = bracketed(alloc, tokens)?;
    all.push(second)?;
    while let Some(after) = after_comma(rest) {
        let (next, further) = bracketed(alloc, after)?;
        all.push(next)?;
        rest = further;
    }
    Ok((List::of(all), rest))
}

// Factors with * and / between them.
#[cycle(formula)]
fn term<'s, 'a>(
    alloc: Global,
    nested: usize,
    tokens: &'s [Placed<'a>],
) -> Result<(Expr, &'s [Placed<'a>]), Stop<'s, 'a>>
    ensures { Gives (λ x. (x.0, tokens_of x.1.now)) result (read_term (read_factor nested) (tokens_of tokens.now)) }
{
    let (mut left, mut rest) = factor(alloc, nested, tokens)?;
    while let Some((op, after)) = product_front(rest) {
        let (right, next) = factor(alloc, nested, after)?;
        left = binary(alloc, op, left, right)?;
        rest = next;
    }
    Ok((left, rest))
}

// Terms with + and - between them.
#[cycle(formula)]
fn sum<'s, 'a>(
    alloc: Global,
    nested: usize,
    tokens: &'s [Placed<'a>],
) -> Result<(Expr, &'s [Placed<'a>]), Stop<'s, 'a>>
    ensures { Gives (λ x. (x.0, tokens_of x.1.now)) result (read_sum (read_factor nested) (tokens_of tokens.now)) }
{
    let (mut left, mut rest) = term(alloc, nested, tokens)?;
    while let Some((op, after)) = sum_front(rest) {
        let (right, next) = term(alloc, nested, after)?;
        left = binary(alloc, op, left, right)?;
        rest = next;
    }
    Ok((left, rest))
}

fn take_minus<'s, 'a>(tokens: &'s [Placed<'a>]) -> Option<&'s [Placed<'a>]>
    ensures { option_map (λ x. (tt, tokens_of x.now)) result ≡ front_of minus (tokens_of tokens.now) }
{
    match tokens {
        [
            Placed {
                token: Token::Mark(Mark::Minus),
                ..
            },
            rest @ ..,
        ] => Some(rest),
        _ => None,
    }
}

// A member with a comma behind it.
fn take_pair<'s, 'a>(tokens: &'s [Placed<'a>]) -> Option<(&'s Piece<'a>, &'s [Placed<'a>])>
    ensures { option_map (λ x. (x.0.now, tokens_of x.1.now)) result ≡ pair_front (tokens_of tokens.now) }
{
    let [first, second, rest @ ..] = tokens else {
        return None;
    };
    match (&first.token, &second.token) {
        (Token::Name(piece), Token::Mark(Mark::Comma)) => Some((piece, rest)),
        _ => None,
    }
}

fn cross<'s, 'a>(
    alloc: Global,
    first: &Piece<'_>,
    tokens: &'s [Placed<'a>],
) -> Result<(Expr, &'s [Placed<'a>]), Stop<'s, 'a>>
    ensures { Gives (λ x. (x.0, tokens_of x.1.now)) result (read_rest first.now (tokens_of tokens.now)) }
{
    let (all, rest) = names(alloc, copied(alloc, first)?, tokens)?;
    Ok((Expr::Cell(all), rest))
}

// Two members or more, or a formula.
#[cycle(formula)]
fn inside<'s, 'a>(
    alloc: Global,
    nested: usize,
    tokens: &'s [Placed<'a>],
) -> Result<(Expr, &'s [Placed<'a>]), Stop<'s, 'a>>
    ensures { Gives (λ x. (x.0, tokens_of x.1.now)) result (read_inside (read_factor nested) (tokens_of tokens.now)) }
{
    match take_pair(tokens) {
        Some((first, rest)) => cross(alloc, first, rest),
        None => sum(alloc, nested, tokens),
    }
}

#[cycle(formula)]
fn negated<'s, 'a>(
    alloc: Global,
    nested: usize,
    tokens: &'s [Placed<'a>],
) -> Result<(Expr, &'s [Placed<'a>]), Stop<'s, 'a>>
    ensures { Gives (λ x. (x.0, tokens_of x.1.now)) result (read_negated (read_factor nested) (tokens_of tokens.now)) }
{
    let (inner, rest) = factor(alloc, nested, tokens)?;
    Ok((Expr::Neg(Boxed::new(alloc, inner)?), rest))
}

#[cycle(formula)]
fn closed<'s, 'a>(
    alloc: Global,
    nested: usize,
    tokens: &'s [Placed<'a>],
) -> Result<(Expr, &'s [Placed<'a>]), Stop<'s, 'a>>
    ensures { Gives (λ x. (x.0, tokens_of x.1.now)) result (read_closed (read_factor nested) (tokens_of tokens.now)) }
{
    let (inner, rest) = inside(alloc, nested, tokens)?;
    let rest = close(rest)?;
    Ok((inner, rest))
}

// A factor in which at most so many signs and parentheses nest.
#[cycle(formula)]
fn factor<'s, 'a>(
    alloc: Global,
    nested: usize,
    tokens: &'s [Placed<'a>],
) -> Result<(Expr, &'s [Placed<'a>]), Stop<'s, 'a>>
    ensures { Gives (λ x. (x.0, tokens_of x.1.now)) result (read_factor nested (tokens_of tokens.now)) }
{
    if nested == 0 {
        return atom(alloc, tokens);
    }
    if let Some(rest) = take_minus(tokens) {
        return negated(alloc, nested - 1, rest);
    }
    if let Some(rest) = after_open(tokens) {
        return closed(alloc, nested - 1, rest);
    }
    atom(alloc, tokens)
}

fn whole<'s, 'a>(alloc: Global, tokens: &'s [Placed<'a>]) -> Result<Expr, Stop<'s, 'a>>
    ensures { Answers result (finished (read_sum (read_factor 64) (tokens_of tokens.now))) }
{
    let (formula, rest) = sum(alloc, 64, tokens)?;
    match rest {
        [] => Ok(formula),
        [..] => Err(Stop::At(rest)),
    }
}

/// The formula spelt by the tokens, or the tokens from the fault on.
pub(crate) fn parse_tokens<'s, 'a>(
    alloc: Global,
    tokens: &'s [Placed<'a>],
) -> Result<Expr, Stop<'s, 'a>>
    ensures found { IfOk result (λ e. Formula (tokens_of tokens.now) e) }
    ensures only { (e : Expr) → Formula (tokens_of tokens.now) e → Answers result (Ok e) }
    ensures fault { IfErr result (FaultIn Formula (tokens_of tokens.now)) }
{
    whole(alloc, tokens)
}
