// The leaves that the names of a cell name.
ghost use Rattle.std.specs.Prelude.{◌≡◌, ◌<◌, ℕ, true, length, IfOk, IfSome, is_none, slice_index_or, None};
ghost use Rattle.std.specs.List.{find};
ghost use Rattle.std.specs.Option.{option_and_then, option_map, option_or};
ghost use Rattle.aso_tree.specs.Trees.{places_of};
ghost use Rattle.aso_outline.specs.Members.{dim_at, seats};
ghost use Rattle.aso_outline.specs.Numbers.{seat_of};
ghost use Rattle.aso_outline.specs.Ranks.{named};
ghost use Rattle.aso_spec.specs.Named.{key_named, ordinal_in};
ghost use Rattle.aso_cellnames.specs.Names.{lacking, texts, told, wrong_in_cell};
ghost use Rattle.aso_cellnames.specs.Slots.{AreFirst, IsLeaf, leaf_in, leaves_in, slot_at};
ghost use Rattle.aso_cellnames.specs.Leaves.{are_leaves, leaf_counts};

use crate::naming::misplaced;
use aso_memory::NoMemory;
use aso_outline::{Outline, Seat};
use std::alloc::Global;

// The dimension and the ordinal of a member that is a data leaf.
fn leaf_at(outline: &Outline, number: u32) -> Option<(u32, u32)>
    requires { number < length (seats outline.now) }
    ensures leaf { (d : ℕ) → ordinal_in outline.now d (seat_of outline.now number) ≡ leaf_in d result }
    ensures there { IfSome result (IsLeaf outline.now) }
{
    match outline.seat(number) {
        Seat::Inner { dim, hier, .. } => {
            if hier > 0 {
                return None;
            }
            match outline.leaf_of(number) {
                Some(leaf) => Some((dim, leaf)),
                None => None,
            }
        }
        Seat::Whole { .. } => None,
        Seat::Carried { .. } => None,
    }
}

// The dimension and the ordinal of the data leaf of a name.
#[tactic(auto, using(aso_outline::proofs::FoundNames::number_within))]
fn leaf_named(outline: &Outline, name: &str) -> Option<(u32, u32)>
    ensures leaf { (d : ℕ) → option_and_then (ordinal_in outline.now d) (named outline.now name.now) ≡ leaf_in d result }
    ensures there { IfSome result (IsLeaf outline.now) }
{
    match outline.find(name) {
        Some(number) => leaf_at(outline, number),
        None => None,
    }
}

// So many empty slots.
fn empty_slots(alloc: Global, count: usize) -> Result<Vec<Option<u32>>, NoMemory>
    ensures { IfOk result (λ slots. (length slots.items ≡ count) × ((d : ℕ) → slice_index_or slots.items d None ≡ None)) }
{
    let mut slots = Vec::new(alloc);
    for _i in 0..count {
        slots.push(None)?;
    }
    Ok(slots)
}

// A leaf is put into its dimension's slot where that is empty.
fn fill(slots: &mut Vec<Option<u32>>, leaf: Option<(u32, u32)>)
    requires { IfSome leaf (λ p. p.0 < length slots.old.items) }
    ensures long { length slots.new.items ≡ length slots.old.items }
    ensures each { (d : ℕ) → d < length slots.old.items → slot_at slots.new.items d ≡ option_or (slot_at slots.old.items d) (leaf_in d leaf) }
{
    let Some((dim, ordinal)) = leaf else {
        return;
    };
    if slots[dim as usize].is_none() {
        slots[dim as usize] = Some(ordinal);
    }
}

// Of each dimension the first leaf that the names name.
fn slots_named(
    alloc: Global,
    outline: &Outline,
    names: &[&str],
) -> Result<Vec<Option<u32>>, NoMemory>
    ensures { IfOk result (λ slots. AreFirst outline.now (texts names.now) slots.items) }
{
    let mut slots = empty_slots(alloc, outline.dims() as usize)?;
    for name in names {
        fill(&mut slots, leaf_named(outline, name));
    }
    Ok(slots)
}

// The number of the first dimension whose slot is empty.
fn first_empty(slots: &[Option<u32>]) -> Option<usize>
    ensures { result ≡ find (λ d. is_none (slot_at slots.now d)) (places_of slots.now) }
{
    for dim in 0..slots.len() {
        if slots[dim].is_none() {
            return Some(dim);
        }
    }
    None
}

// The name of a dimension.
fn dim_name(outline: &Outline, dim: usize) -> &str
    ensures { result.now ≡ (dim_at outline.now dim).name }
{
    match outline.draft().dims.items().get(dim) {
        Some(dim) => dim.name.as_str(),
        None => "",
    }
}

// The first dimension of which the names name no data leaf.
fn lacking<'a>(
    alloc: Global,
    outline: &'a Outline,
    names: &[&str],
) -> Result<Option<&'a str>, NoMemory>
    ensures { IfOk result (λ found. told found ≡ lacking outline.now (texts names.now)) }
{
    let slots = slots_named(alloc, outline, names)?;
    match first_empty(&slots) {
        Some(dim) => Ok(Some(dim_name(outline, dim))),
        None => Ok(None),
    }
}

/// The name that keeps some names from being those of a cell, if one does: the first that is no data leaf's, or of a
/// dimension that one before it has taken, else that of the first dimension of which there is none.
pub fn wrong_in_cell<'a>(
    alloc: Global,
    outline: &'a Outline,
    names: &[&'a str],
) -> Result<Option<&'a str>, NoMemory>
    ensures { IfOk result (λ found. told found ≡ wrong_in_cell outline.now (texts names.now)) }
{
    match misplaced(alloc, outline, names)? {
        Some(name) => Ok(Some(name)),
        None => lacking(alloc, outline, names),
    }
}

// The leaves of the slots, 0 where one is empty.
fn leaves_in(alloc: Global, slots: &[Option<u32>]) -> Result<Vec<u32>, NoMemory>
    ensures { IfOk result (λ leaves. leaves.items ≡ leaves_in slots.now) }
{
    let mut leaves = Vec::new(alloc);
    for slot in slots {
        leaves.push(slot.unwrap_or(0))?;
    }
    Ok(leaves)
}

/// The cell that some names name: for each base dimension the ordinal of the data leaf, 0 where they name none.
pub fn key_named(alloc: Global, outline: &Outline, names: &[&str]) -> Result<Vec<u32>, NoMemory>
    ensures key { IfOk result (λ key. key.items ≡ key_named outline.now (texts names.now)) }
    ensures leaves { IfOk result (λ key. are_leaves (leaf_counts outline.now) key.items ≡ true) }
{
    outline.keeps_leaves();
    let slots = slots_named(alloc, outline, names)?;
    leaves_in(alloc, &slots)
}
