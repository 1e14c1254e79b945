// The ranges of classes that the members of a dimension hold at a view.
ghost use Rattle.std.specs.Prelude.{◌≡◌, ℕ, ◌+◌, ◌<◌, ◌≤◌, ◌&&◌, ◌==◌, true, false, length, IfOk};
ghost use Rattle.aso_outline.specs.Members.{resolve, seats};
ghost use Rattle.aso_outline.specs.Numbers.{hier_of, seat_of};
ghost use Rattle.aso_outline.specs.Ranks.{is_of_dim};
ghost use Rattle.aso_keys.specs.Axes.{range_at, range_in};
ghost use Rattle.aso_keys.specs.Ranges.{stands_before, is_ranged_seat, IsRangeOf};

use crate::axis::{Axis, Ranges};
use aso_memory::NoMemory;
use aso_num::List;
use aso_outline::{DimRef, Outline, Seat};
use std::alloc::Global;

// The member is of a base dimension before this one.
fn stands_before(outline: &Outline, dim: u32, m: u32) -> bool
    requires { m < length (seats outline.now) }
    ensures { result ≡ stands_before dim (seat_of outline.now m) }
{
    match outline.seat(m) {
        Seat::Whole { dim: own } => own < dim,
        Seat::Inner { dim: own, .. } => own < dim,
        Seat::Carried { .. } => false,
    }
}

// How many members stand before a dimension.
fn first_of(outline: &Outline, dim: u32) -> u32
    ensures within { result ≤ length (seats outline.now) }
    ensures low { (m : ℕ) → m < result → stands_before dim (seat_of outline.now m) ≡ true }
    ensures high { (m : ℕ) → result ≤ m → m < length (seats outline.now) → stands_before dim (seat_of outline.now m) ≡ false }
{
    let mut low = 0u32;
    let mut high = outline.members();
    while low < high {
        let middle = low + (high - low) / 2;
        if stands_before(outline, dim, middle) {
            low = middle + 1;
        } else {
            high = middle;
        }
    }
    low
}

fn is_of_dim(outline: &Outline, dim: u32, m: u32) -> bool
    requires { m < length (seats outline.now) }
    ensures { result ≡ is_of_dim dim (seat_of outline.now m) }
{
    match outline.dim_of(m) {
        DimRef::Base(own) => dim == own,
        DimRef::Attr(_) => false,
    }
}

// The hierarchy of what the member stands for.
fn hier_of(outline: &Outline, m: u32) -> u32
    requires { m < length (seats outline.now) }
    ensures { result ≡ hier_of (resolve outline.now (seat_of outline.now m)) }
{
    match outline.resolved(outline.seat(m)) {
        Seat::Inner { hier, .. } => hier,
        _ => 0,
    }
}

fn is_ranged(outline: &Outline, dim: u32, hier: u32, level: u32, m: u32) -> bool
    requires { m < length (seats outline.now) }
    ensures { result ≡ is_ranged_seat outline.now dim (hier, level) (seat_of outline.now m) }
{
    is_of_dim(outline, dim, m)
        && outline.is_stored(m)
        && outline.has_range(m, level)
        && (level == 0 || hier_of(outline, m) == hier)
}

// The range of a member, if it has one.
fn range_of(outline: &Outline, dim: u32, hier: u32, level: u32, m: u32) -> Option<(u32, u32)>
    requires { m < length (seats outline.now) }
    ensures { IsRangeOf outline.now dim (hier, level) m result }
{
    if is_ranged(outline, dim, hier, level, m) {
        Some(outline.class_range(m, level))
    } else {
        None
    }
}

// The ranges of a dimension's members at a level of a hierarchy.
pub fn ranges_of(
    alloc: Global,
    outline: &Outline,
    dim: u32,
    hier: u32,
    level: u32,
) -> Result<Ranges, NoMemory>
    requires { dim < length outline.now.dims }
    ensures { IfOk result (λ r. (m : ℕ) → IsRangeOf outline.now dim (hier, level) m (range_at r m)) }
{
    outline.keeps_counts();
    let first = first_of(outline, dim);
    let end = first_of(outline, dim + 1);
    let mut each = Vec::new(alloc);
    for at in 0..end - first {
        each.push(range_of(outline, dim, hier, level, first + at))?;
    }
    Ok(Ranges {
        first,
        each: List::of(each),
    })
}

// The range of a member in a dimension, if it has one.
pub fn range_in(axes: &[Axis], dim: u32, member: u32) -> Option<(u32, u32)>
    ensures { result ≡ range_in axes.now dim member }
{
    let ranges = &axes.get(dim as usize)?.ranges;
    let at = member.checked_sub(ranges.first)?;
    *ranges.each.items().get(at as usize)?
}
