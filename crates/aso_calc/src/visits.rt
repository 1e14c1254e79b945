// Which stored tuples the values of some tuples rest on, found by unfolding.
ghost use Rattle.std.specs.Prelude.{◌≡◌, ◌<◌, ◌∷◌, [], ℕ, Some, length, map, set, slice_get, slice_index, IfOk, OnOk};
ghost use Rattle.std.specs.List.{filter, flat_map, fold};
ghost use Rattle.aso_outline.specs.declared.draft.Tuple.{Tuple as Coordinates};
ghost use Rattle.aso_outline.specs.Atoms.{atoms};
ghost use Rattle.aso_outline.specs.Members.{seats};
ghost use Rattle.aso_calc.specs.Listed.{Lists};
ghost use Rattle.aso_calc.specs.Needs.{AreDistinct, Suffice, all_noted, is_counted, needed, noted, operands, reached, reached_step, reached_within};
ghost use Rattle.aso_calc.specs.Values.{children_at, replaced};

use crate::choice::unfolded;
use crate::listing::{Listing, has_been, mark, note};
use crate::members::{children_at, formula_at};
use crate::operands::{replaced, resolved, with_child};
use crate::unfolding::ranks_of;
use aso_memory::NoMemory;
use aso_outline::{Expr, Extra, Op, Outline, Tuple, atoms_of};
use std::alloc::Global;

/// Finds what the atoms of a formula rest on.
#[cycle(visits)]
fn visit_atoms(
    alloc: Global,
    outline: &Outline,
    extra: &Extra,
    attrs: &[Option<u32>],
    listing: &mut Listing,
    ranks: u32,
    base: &[u32],
    formula: &Expr,
) -> Result<(), NoMemory>
    requires lists { Lists outline.now extra.now.members.items listing.old }
    ensures lists { OnOk result (Lists outline.now extra.now.members.items listing.new) }
    ensures found { OnOk result (listing.new.found.items ≡ all_noted attrs.now listing.old.found.items (flat_map (reached_within ranks outline.now extra.now.members.items) (map (replaced outline.now base.now) (atoms formula.now)))) }
{
    let all = atoms_of(alloc, formula)?;
    for names in all.as_slice() {
        let place = replaced(alloc, outline, base, names)?;
        visit_within(
            alloc,
            outline,
            extra,
            attrs,
            listing,
            ranks,
            place.as_slice(),
        )?;
    }
    Ok(())
}

/// Finds what a child rests on, unless it is passed over.
#[cycle(visits)]
fn visit_child(
    alloc: Global,
    outline: &Outline,
    extra: &Extra,
    attrs: &[Option<u32>],
    listing: &mut Listing,
    ranks: u32,
    base: &[u32],
    at: usize,
    child: u32,
) -> Result<(), NoMemory>
    requires lists { Lists outline.now extra.now.members.items listing.old }
    requires within { at < length base.now }
    requires child { child < length (seats outline.now) }
    ensures lists { OnOk result (Lists outline.now extra.now.members.items listing.new) }
    ensures found { OnOk result (listing.new.found.items ≡ all_noted attrs.now listing.old.found.items (flat_map (reached_within ranks outline.now extra.now.members.items) (map (set base.now at) (filter (is_counted outline.now) (child ∷ []))))) }
{
    if let Op::Skip = outline.op(child) {
        return Ok(());
    }
    let place = with_child(alloc, base, at, child)?;
    visit_within(
        alloc,
        outline,
        extra,
        attrs,
        listing,
        ranks,
        place.as_slice(),
    )
}

/// Finds what the children of a parent rest on.
#[cycle(visits)]
fn visit_children(
    alloc: Global,
    outline: &Outline,
    extra: &Extra,
    attrs: &[Option<u32>],
    listing: &mut Listing,
    ranks: u32,
    base: &[u32],
    at: usize,
) -> Result<(), NoMemory>
    requires lists { Lists outline.now extra.now.members.items listing.old }
    requires within { at < length base.now }
    ensures lists { OnOk result (Lists outline.now extra.now.members.items listing.new) }
    ensures found { OnOk result (listing.new.found.items ≡ all_noted attrs.now listing.old.found.items (flat_map (reached_within ranks outline.now extra.now.members.items) (map (set base.now at) (filter (is_counted outline.now) (children_at outline.now (slice_index base.now at)))))) }
{
    let children = children_at(alloc, outline, base[at])?;
    for child in children.as_slice() {
        visit_child(
            alloc, outline, extra, attrs, listing, ranks, base, at, *child,
        )?;
    }
    Ok(())
}

/// Finds what an unfolding rests on.
#[cycle(visits)]
fn visit_operands(
    alloc: Global,
    outline: &Outline,
    extra: &Extra,
    attrs: &[Option<u32>],
    listing: &mut Listing,
    ranks: u32,
    base: &[u32],
    at: usize,
) -> Result<(), NoMemory>
    requires lists { Lists outline.now extra.now.members.items listing.old }
    requires within { at < length base.now }
    ensures lists { OnOk result (Lists outline.now extra.now.members.items listing.new) }
    ensures found { OnOk result (listing.new.found.items ≡ all_noted attrs.now listing.old.found.items (flat_map (reached_within ranks outline.now extra.now.members.items) (operands outline.now extra.now.members.items base.now at))) }
{
    match formula_at(outline, extra, base[at]) {
        Some(formula) => visit_atoms(alloc, outline, extra, attrs, listing, ranks, base, formula),
        None => visit_children(alloc, outline, extra, attrs, listing, ranks, base, at),
    }
}

/// Finds what the value at resolved coordinates rests on.
#[cycle(visits)]
fn visit_step(
    alloc: Global,
    outline: &Outline,
    extra: &Extra,
    attrs: &[Option<u32>],
    listing: &mut Listing,
    ranks: u32,
    base: &[u32],
) -> Result<(), NoMemory>
    requires lists { Lists outline.now extra.now.members.items listing.old }
    ensures lists { OnOk result (Lists outline.now extra.now.members.items listing.new) }
    ensures found { OnOk result (listing.new.found.items ≡ all_noted attrs.now listing.old.found.items (reached_step outline.now extra.now.members.items (reached_within ranks outline.now extra.now.members.items) base.now)) }
{
    match unfolded(outline, extra, base) {
        Some(at) => visit_operands(alloc, outline, extra, attrs, listing, ranks, base, at),
        None => note(alloc, outline, extra, attrs, listing, base),
    }
}

/// Finds what the value with the sum of ranks at most so many rests on.
#[cycle(visits)]
fn visit_within(
    alloc: Global,
    outline: &Outline,
    extra: &Extra,
    attrs: &[Option<u32>],
    listing: &mut Listing,
    ranks: u32,
    base: &[u32],
) -> Result<(), NoMemory>
    requires lists { Lists outline.now extra.now.members.items listing.old }
    ensures lists { OnOk result (Lists outline.now extra.now.members.items listing.new) }
    ensures found { OnOk result (listing.new.found.items ≡ all_noted attrs.now listing.old.found.items (reached_within ranks outline.now extra.now.members.items base.now)) }
{
    let place = resolved(alloc, outline, base)?;
    if ranks == 0 {
        return note(alloc, outline, extra, attrs, listing, place.as_slice());
    }
    let is_known = has_been(
        alloc,
        outline,
        extra,
        attrs,
        listing,
        ranks - 1,
        place.as_slice(),
    )?;
    if is_known {
        return Ok(());
    }
    visit_step(
        alloc,
        outline,
        extra,
        attrs,
        listing,
        ranks - 1,
        place.as_slice(),
    )?;
    mark(
        alloc,
        outline,
        extra,
        attrs,
        listing,
        ranks - 1,
        place.as_slice(),
    )
}

/// Finds what the value of a tuple rests on.
fn visit_tuple(
    alloc: Global,
    outline: &Outline,
    extra: &Extra,
    listing: &mut Listing,
    tuple: &Tuple,
) -> Result<(), NoMemory>
    requires lists { Lists outline.now extra.now.members.items listing.old }
    requires long { length tuple.now.base ≡ length outline.now.dims }
    ensures lists { OnOk result (Lists outline.now extra.now.members.items listing.new) }
    ensures found { OnOk result (listing.new.found.items ≡ fold noted listing.old.found.items (reached outline.now extra.now.members.items tuple.now)) }
{
    outline.keeps_counts();
    let base = tuple.base.items();
    let ranks = ranks_of(alloc, outline, extra, base)?;
    visit_within(
        alloc,
        outline,
        extra,
        tuple.attrs.items(),
        listing,
        ranks,
        base,
    )
}

/// The stored tuples that the values of some tuples rest on, each once, in the order in which they are first reached. Each
/// coordinate of theirs is resolved. The values rest on no other stored tuple. Each tuple of an unfolding is visited once.
#[tactic(auto, unfolding(crate::specs::Needs::needed))]
pub fn needs(
    alloc: Global,
    outline: &Outline,
    extra: &Extra,
    tuples: &[Tuple],
) -> Result<Vec<Tuple>, NoMemory>
    requires { (k : ℕ) (t : Coordinates) → slice_get tuples.now k ≡ Some t → length t.base ≡ length outline.now.dims }
    ensures found { IfOk result (λ v. v.items ≡ needed outline.now extra.now.members.items tuples.now) }
    ensures once { IfOk result (λ v. AreDistinct v.items) }
    ensures suffice { IfOk result (λ v. Suffice outline.now extra.now.members.items v.items tuples.now) }
{
    let mut listing = Listing::new(alloc, outline, extra);
    for tuple in tuples {
        visit_tuple(alloc, outline, extra, &mut listing, tuple)?;
    }
    Ok(listing.into_found())
}
