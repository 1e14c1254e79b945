// Members by their numbers: those of the outline, and behind them a query's own.
ghost use Rattle.std.specs.Prelude.{◌≡◌, ◌<◌, ◌≤◌, ℕ, Some, length, slice_get, unwrap_or, IfOk};
ghost use Rattle.std.specs.Option.{option_map};
ghost use Rattle.aso_outline.specs.Members.{seats};
ghost use Rattle.aso_calc.specs.Values.{is_computed_at, order_at, own_at, formula_at, children_at, rank_at, target};

use aso_memory::NoMemory;
use aso_outline::{Expr, Extra, ExtraMember, Outline};
use std::alloc::Global;

/// The query's own member of a number past those of the outline.
pub fn own_at<'x>(outline: &Outline, extra: &'x Extra, n: u32) -> Option<&'x ExtraMember>
    requires { length (seats outline.now) ≤ n }
    ensures { option_map (λ m. m.now) result ≡ own_at outline.now extra.now.members.items n }
{
    extra.members.get((n - outline.members()) as usize)
}

/// What the member stands for: a label-only one for its first child, a shared one for its data leaf.
pub fn target(outline: &Outline, n: u32) -> u32
    ensures { result ≡ target outline.now n }
{
    if n < outline.members() {
        outline.target(n)
    } else {
        n
    }
}

pub fn is_computed_at(outline: &Outline, n: u32) -> bool
    ensures { result ≡ is_computed_at outline.now n }
{
    if n < outline.members() {
        !outline.is_stored(n)
    } else {
        true
    }
}

fn own_order(member: Option<&ExtraMember>) -> u8
    ensures { result ≡ unwrap_or (option_map (λ m. m.now.solve) member.entry) 0 }
{
    match member {
        Some(member) => member.solve,
        None => 0,
    }
}

/// The solve order of a computed member.
pub fn order_at(outline: &Outline, extra: &Extra, n: u32) -> u8
    ensures { result ≡ order_at outline.now extra.now.members.items n }
{
    if n < outline.members() {
        outline.solve(n)
    } else {
        own_order(own_at(outline, extra, n))
    }
}

fn own_formula<'x>(member: Option<&'x ExtraMember>) -> Option<&'x Expr>
    ensures { option_map (λ e. e.now) result ≡ option_map (λ m. m.now.formula) member.entry }
{
    match member {
        Some(member) => Some(&member.formula),
        None => None,
    }
}

/// The formula of a member, if it has one.
pub fn formula_at<'x>(outline: &'x Outline, extra: &'x Extra, n: u32) -> Option<&'x Expr>
    ensures { option_map (λ e. e.now) result ≡ formula_at outline.now extra.now.members.items n }
{
    if n < outline.members() {
        outline.formula(n)
    } else {
        own_formula(own_at(outline, extra, n))
    }
}

/// The children of a member of the outline, in outline order.
pub fn children_at(alloc: Global, outline: &Outline, n: u32) -> Result<Vec<u32>, NoMemory>
    ensures value { IfOk result (λ v. v.items ≡ children_at outline.now n) }
    ensures there { (k c : ℕ) → slice_get (children_at outline.now n) k ≡ Some c → c < length (seats outline.now) }
{
    if n < outline.members() {
        return outline.children(alloc, n);
    }
    Ok(Vec::new(alloc))
}

/// The rank of a member.
pub fn rank_at(alloc: Global, outline: &Outline, extra: &Extra, n: u32) -> Result<u32, NoMemory>
    ensures value { IfOk result (λ r. r ≡ rank_at outline.now extra.now.members.items n) }
    ensures bound { IfOk result (λ r. r ≤ 65) }
{
    if n < outline.members() {
        return Ok(outline.rank(n));
    }
    match own_at(outline, extra, n) {
        Some(member) => outline.own_rank(alloc, member),
        None => Ok(0),
    }
}
