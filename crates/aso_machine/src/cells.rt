// The cells of a record, and what becomes of them where an amount is added to one.
ghost use Rattle.std.specs.Prelude.{◌≡◌, ◌≤◌, ◌<◌, ◌^◌, ◌++◌, ◌∷◌, [], ℤ, length, unsigned_abs, IfOk, OnOk};
ghost use Rattle.std.specs.List.{AllByRecursion, prefix_len};
ghost use Rattle.aso_machine.specs.CellSteps.{IsPlace, IsSmall, IsSmallFirst, add_cell, cell_at, is_before, is_first, sum_in};

use aso_catalog::LeafCell;
use aso_num::{List, NoMemory};
use std::alloc::Global;
use std::cmp::Ordering;

// How many cells stand before the place of a key.
fn place_of(cells: &[LeafCell], key: &[u32]) -> usize
    ensures value { result ≡ prefix_len (is_before key.now) cells.now }
    ensures within { result ≤ length cells.now }
{
    for (i, cell) in cells.iter().enumerate() {
        if key.cmp(cell.leaves.items()) != Ordering::Greater {
            return i;
        }
    }
    cells.len()
}

// Appends copies of some cells.
fn copy_cells(alloc: Global, cells: &[LeafCell], out: &mut Vec<LeafCell>) -> Result<(), NoMemory>
    ensures { OnOk result (out.new.items ≡ out.old.items ++ cells.now) }
{
    for cell in cells {
        out.push(LeafCell {
            leaves: List::of(Vec::from_slice(alloc, cell.leaves.items())?),
            amount: cell.amount,
        })?;
    }
    Ok(())
}

// The amount that a cell has once an amount is added to it, where the cells begin with its place.
fn sum_here(rest: &[LeafCell], key: &[u32], amount: i128) -> i128
    requires place { IsPlace key.now rest.now }
    requires small { IsSmallFirst rest.now }
    requires amount { unsigned_abs amount < 10 ^ 18 }
    ensures { result ≡ sum_in key.now amount rest.now }
{
    let [first, ..] = rest else {
        return amount;
    };
    if key.cmp(first.leaves.items()) == Ordering::Equal {
        first.amount + amount
    } else {
        amount
    }
}

// Appends some cells that begin with the place of a key, with an amount added there.
fn add_here(
    alloc: Global,
    rest: &[LeafCell],
    key: &[u32],
    amount: i128,
    out: &mut Vec<LeafCell>,
) -> Result<(), NoMemory>
    requires place { IsPlace key.now rest.now }
    requires small { IsSmallFirst rest.now }
    requires amount { unsigned_abs amount < 10 ^ 18 }
    ensures { OnOk result (out.new.items ≡ out.old.items ++ add_cell key.now amount rest.now) }
{
    let [first, more @ ..] = rest else {
        return push_cell(alloc, key, amount, out);
    };
    if key.cmp(first.leaves.items()) == Ordering::Equal {
        push_cell(alloc, first.leaves.items(), first.amount + amount, out)?;
        return copy_cells(alloc, more, out);
    }
    push_cell(alloc, key, amount, out)?;
    copy_cells(alloc, rest, out)
}

fn push_cell(
    alloc: Global,
    leaves: &[u32],
    amount: i128,
    out: &mut Vec<LeafCell>,
) -> Result<(), NoMemory>
    ensures { OnOk result (out.new.items ≡ out.old.items ++ cell_at leaves.now amount ∷ []) }
{
    out.push(LeafCell {
        leaves: List::of(Vec::from_slice(alloc, leaves)?),
        amount,
    })?;
    Ok(())
}

/// The amount that a cell has once an amount is added to it.
#[tactic(auto, using(crate::proofs::Adding::is_place, crate::proofs::Adding::sum_at_place))]
pub fn sum_in(cells: &[LeafCell], key: &[u32], amount: i128) -> i128
    requires small { AllByRecursion IsSmall cells.now }
    requires amount { unsigned_abs amount < 10 ^ 18 }
    ensures { result ≡ sum_in key.now amount cells.now }
{
    let (_, rest) = cells.split_at(place_of(cells, key));
    sum_here(rest, key, amount)
}

// The first of some cells is the key's.
fn is_here(rest: &[LeafCell], key: &[u32]) -> bool
    ensures { result ≡ is_first key.now rest.now }
{
    let [first, ..] = rest else {
        return false;
    };
    key.cmp(first.leaves.items()) == Ordering::Equal
}

/// How many cells there are once an amount is added to one.
#[tactic(auto, using(crate::proofs::Changes::count_at_place))]
pub fn added_count(cells: &[LeafCell], key: &[u32]) -> usize
    requires { length cells.now < 2 ^ 32 }
    ensures { (z : ℤ) → length (add_cell key.now z cells.now) ≡ result }
{
    let (_, rest) = cells.split_at(place_of(cells, key));
    if is_here(rest, key) {
        cells.len()
    } else {
        cells.len() + 1
    }
}

/// The cells once an amount is added to one.
#[tactic(auto, using(crate::proofs::Adding::is_place, crate::proofs::Adding::added_at))]
pub fn add_cell(
    alloc: Global,
    cells: &[LeafCell],
    key: &[u32],
    amount: i128,
) -> Result<Vec<LeafCell>, NoMemory>
    requires small { AllByRecursion IsSmall cells.now }
    requires amount { unsigned_abs amount < 10 ^ 18 }
    ensures { IfOk result (λ next. next.items ≡ add_cell key.now amount cells.now) }
{
    let (front, rest) = cells.split_at(place_of(cells, key));
    let mut next = Vec::new(alloc);
    copy_cells(alloc, front, &mut next)?;
    add_here(alloc, rest, key, amount, &mut next)?;
    Ok(next)
}
