// Which coordinate of a tuple is unfolded.
ghost use Rattle.std.specs.Prelude.{◌≡◌, ◌&&◌, Some, nat_le, length, ◌<◌, IfSome, if◌then◌else◌};
ghost use Rattle.aso_calc.specs.Values.{is_computed_at, order_at, unfolded};

use crate::members::{is_computed_at, order_at};
use aso_outline::{Extra, Outline};

/// The place at hand where its member is computed and no order before was greater, with its order; else those before.
fn better(
    outline: &Outline,
    extra: &Extra,
    member: u32,
    at: usize,
    best: Option<usize>,
    most: u8,
) -> (Option<usize>, u8)
    ensures { result ≡ (if is_computed_at outline.now member && nat_le most (order_at outline.now extra.now.members.items member) then (Some at, order_at outline.now extra.now.members.items member) else (best, most)) }
{
    let order = order_at(outline, extra, member);
    if is_computed_at(outline, member) && most <= order {
        (Some(at), order)
    } else {
        (best, most)
    }
}

/// The place of the computed member of the greatest solve order, the last among equals.
pub fn unfolded(outline: &Outline, extra: &Extra, base: &[u32]) -> Option<usize>
    ensures value { result ≡ unfolded outline.now extra.now.members.items base.now }
    ensures within { IfSome result (λ d. d < length base.now) }
{
    let mut best = None;
    let mut most = 0;
    for at in 0..base.len() {
        let (next, order) = better(outline, extra, base[at], at, best, most);
        best = next;
        most = order;
    }
    best
}
