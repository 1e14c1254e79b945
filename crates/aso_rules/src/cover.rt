// Whether the names of a record and of the file give each base dimension once.
ghost use Rattle.std.specs.Prelude.{◌≡◌, ◌+◌, ◌||◌, ◌==◌, ◌++◌, OnOk, IfOk};
ghost use Rattle.std.specs.List.{filter_map, list_all, list_any, range_with_len};
ghost use Rattle.aso_outline.specs.Members.{dim_of};
ghost use Rattle.aso_outline.specs.Numbers.{seat_of};
ghost use Rattle.aso_rules.specs.Rules.{are_covered, column_dim, cover, dims_of, has, is_covered, is_of_amounts, shared_dims};

use crate::rules::Column;
use aso_num::NoMemory;
use aso_outline::{Outline, Seat};
use std::alloc::Global;

fn dim_of(seat: Seat) -> u32
    ensures { result ≡ dim_of seat }
{
    match seat {
        Seat::Whole { dim } => dim,
        Seat::Inner { dim, .. } => dim,
        Seat::Carried { attr, .. } => attr,
    }
}

// The dimension of a member; of a number that no member has, 0.
fn member_dim(outline: &Outline, m: u32) -> u32
    ensures { result ≡ dim_of (seat_of outline.now m) }
{
    if m < outline.members() {
        dim_of(outline.seat(m))
    } else {
        0
    }
}

fn push_dims(outline: &Outline, members: &[u32], dims: &mut Vec<u32>) -> Result<(), NoMemory>
    ensures { OnOk result (dims.new.items ≡ dims.old.items ++ dims_of outline.now members.now) }
{
    for m in members {
        dims.push(member_dim(outline, *m))?;
    }
    Ok(())
}

fn column_dims(alloc: Global, columns: &[Column]) -> Result<Vec<u32>, NoMemory>
    ensures { IfOk result (λ dims. dims.items ≡ filter_map column_dim columns.now) }
{
    let mut dims = Vec::new(alloc);
    for column in columns {
        if let Column::Dimension { dim, .. } = column {
            dims.push(*dim)?;
        }
    }
    Ok(dims)
}

fn has(dims: &[u32], dim: u32) -> bool
    ensures { result ≡ has dims.now dim }
{
    dims.iter().any(|d| *d == dim)
}

// The dimension is one of either list.
fn is_given(shared: &[u32], own: &[u32], dim: u32) -> bool
    ensures { result ≡ (has shared.now dim || has own.now dim) }
{
    has(shared, dim) || has(own, dim)
}

fn are_all_given(dims: u32, shared: &[u32], own: &[u32]) -> bool
    ensures { result ≡ list_all (λ d. has shared.now d || has own.now d) (range_with_len 0 dims) }
{
    for dim in 0..dims {
        if !is_given(shared, own, dim) {
            return false;
        }
    }
    true
}

fn cover(outline: &Outline, shared: &[u32], own: &[u32]) -> bool
    ensures { result ≡ cover outline.now shared.now own.now }
{
    let dims = outline.dims();
    shared.len() + own.len() == dims as usize && are_all_given(dims, shared, own)
}

fn is_covered(
    alloc: Global,
    outline: &Outline,
    shared: &[u32],
    column: &Column,
) -> Result<bool, NoMemory>
    ensures { IfOk result (λ covered. covered ≡ is_covered outline.now shared.now column.now) }
{
    let Column::Amounts { members } = column else {
        return Ok(true);
    };
    let mut own = Vec::new(alloc);
    push_dims(outline, members.items(), &mut own)?;
    Ok(cover(outline, shared, &own))
}

fn all_covered(
    alloc: Global,
    outline: &Outline,
    shared: &[u32],
    columns: &[Column],
) -> Result<bool, NoMemory>
    ensures { IfOk result (λ covered. covered ≡ list_all (is_covered outline.now shared.now) columns.now) }
{
    for column in columns {
        if !is_covered(alloc, outline, shared, column)? {
            return Ok(false);
        }
    }
    Ok(true)
}

fn is_of_amounts(column: &Column) -> bool
    ensures { result ≡ is_of_amounts column.now }
{
    match column {
        Column::Amounts { .. } => true,
        _ => false,
    }
}

fn has_amounts(columns: &[Column]) -> bool
    ensures { result ≡ list_any is_of_amounts columns.now }
{
    columns.iter().any(|column| is_of_amounts(column))
}

/// There is a column of amounts, and for each of them the columns and the fixed members name every base dimension once.
pub fn are_covered(
    alloc: Global,
    outline: &Outline,
    columns: &[Column],
    fixed: &[u32],
) -> Result<bool, NoMemory>
    ensures { IfOk result (λ covered. covered ≡ are_covered outline.now columns.now fixed.now) }
{
    if !has_amounts(columns) {
        return Ok(false);
    }
    let mut shared = column_dims(alloc, columns)?;
    push_dims(outline, fixed, &mut shared)?;
    all_covered(alloc, outline, &shared, columns)
}
