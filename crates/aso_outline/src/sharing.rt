// O6: shared members.
ghost use Rattle.std.specs.Prelude.{◌≡◌, ◌==◌, ◌||◌, ◌<◌, ◌^◌, ℕ, List, length, is_some, false, IfOk, OnOk, if◌then◌else◌};
ghost use Rattle.std.specs.HashMap.{get_by_text};
ghost use Rattle.aso_outline.specs.Members.{dim_of, has, place_of, seats};
ghost use Rattle.aso_outline.specs.Named.{Finds};
ghost use Rattle.aso_outline.specs.Ranks.{is_of_dim};
ghost use Rattle.aso_outline.specs.Rules.{breaks_sharing, is_bare, is_leaf_name, is_shared_before, is_well_shared, least, name_at, shares};
ghost use Rattle.aso_outline.specs.Small.{HasTrees};

use crate::data_leaf::is_data_leaf;
use crate::draft::Draft;
use crate::find::member_named;
use crate::kinds::{is_alternate, is_shared};
use crate::labels::is_dynamic;
use crate::look::{member_at, name_at};
use crate::seat::Seat;
use crate::table::NameTable;
use crate::trees::{is_childless, place_of};
use aso_num::NoMemory;
use std::alloc::Global;

/// The dimension of a base member.
pub fn dim_of(seat: Seat) -> u32
    ensures { result ≡ dim_of seat }
{
    match seat {
        Seat::Whole { dim } => dim,
        Seat::Inner { dim, .. } => dim,
        Seat::Carried { attr, .. } => attr,
    }
}

/// The member is one of the base dimension.
pub fn is_of_dim(dim: u32, seat: Seat) -> bool
    ensures { result ≡ is_of_dim dim seat }
{
    match seat {
        Seat::Whole { dim: other } => dim == other,
        Seat::Inner { dim: other, .. } => dim == other,
        Seat::Carried { .. } => false,
    }
}

/// The member of the name is a data leaf of the dimension.
fn is_leaf_name(draft: &Draft, table: &[Seat], names: &NameTable, dim: u32, name: &str) -> bool
    requires is { table.now ≡ seats draft.now }
    requires finds { Finds draft.now names.now }
    requires trees { HasTrees draft.now }
    ensures { result ≡ is_leaf_name draft.now dim name.now }
{
    match member_named(draft, table, names, name) {
        Some(seat) => is_of_dim(dim, seat) && is_data_leaf(draft, seat),
        None => false,
    }
}

/// The member is marked in no way: no formula, no solve order, no attribute, not label-only.
pub fn is_bare(draft: &Draft, seat: Seat) -> bool
    ensures { result ≡ has is_bare draft.now seat }
{
    match member_at(draft, seat) {
        Some(member) => {
            member.formula.is_none()
                && member.solve.is_none()
                && member.carries.items().len() == 0
                && !member.label_only
        }
        None => false,
    }
}

/// A leaf outside the first hierarchy with the name of a data leaf of its dimension and nothing more; in a stored hierarchy
/// the first of that name.
fn is_well_shared(
    draft: &Draft,
    table: &[Seat],
    names: &NameTable,
    seat: Seat,
    is_known: bool,
) -> bool
    requires is { table.now ≡ seats draft.now }
    requires finds { Finds draft.now names.now }
    requires trees { HasTrees draft.now }
    requires known { is_known ≡ is_shared_before draft.now seat }
    ensures { result ≡ is_well_shared draft.now seat }
{
    is_alternate(seat)
        && is_childless(draft, seat)
        && is_leaf_name(draft, table, names, dim_of(seat), name_at(draft, seat))
        && is_bare(draft, seat)
        && (is_dynamic(draft, seat) || !is_known)
}

/// O6: a shared member that may not be shared there. Whether an earlier one of its tree shares its name is known.
fn breaks_sharing(
    draft: &Draft,
    table: &[Seat],
    names: &NameTable,
    seat: Seat,
    is_known: bool,
) -> bool
    requires is { table.now ≡ seats draft.now }
    requires finds { Finds draft.now names.now }
    requires trees { HasTrees draft.now }
    requires known { is_known ≡ is_shared_before draft.now seat }
    ensures { result ≡ breaks_sharing draft.now seat }
{
    is_shared(draft, seat) && !is_well_shared(draft, table, names, seat, is_known)
}

/// No name is known where a tree begins.
fn begin(alloc: Global, shared: &mut NameTable, seat: Seat)
    ensures { (q : List ℕ) → is_some (get_by_text shared.new.map q) ≡ (if place_of seat == 0 then false else is_some (get_by_text shared.old.map q)) }
{
    if place_of(seat) == 0 {
        *shared = NameTable::new(alloc);
    }
}

/// The name of a shared member is known from now on.
fn share(
    alloc: Global,
    shared: &mut NameTable,
    draft: &Draft,
    seat: Seat,
    number: u32,
) -> Result<(), NoMemory>
    ensures { OnOk result ((q : List ℕ) → is_some (get_by_text shared.new.map q) ≡ (is_some (get_by_text shared.old.map q) || has (shares q) draft.now seat)) }
{
    if is_shared(draft, seat) {
        shared.add(alloc, name_at(draft, seat), number)?;
    }
    Ok(())
}

/// O6: the first shared member that may not be shared there.
pub fn least_wrong_sharing(
    alloc: Global,
    draft: &Draft,
    table: &[Seat],
    names: &NameTable,
) -> Result<Option<u32>, NoMemory>
    requires is { table.now ≡ seats draft.now }
    requires short { length table.now < 2 ^ 32 }
    requires finds { Finds draft.now names.now }
    requires trees { HasTrees draft.now }
    ensures { IfOk result (λ r. r ≡ least breaks_sharing draft.now) }
{
    let mut shared = NameTable::new(alloc);
    for number in 0..table.len() as u32 {
        let seat = table[number as usize];
        begin(alloc, &mut shared, seat);
        let is_known = shared.find(name_at(draft, seat)).is_some();
        if breaks_sharing(draft, table, names, seat, is_known) {
            return Ok(Some(number));
        }
        share(alloc, &mut shared, draft, seat, number)?;
    }
    Ok(None)
}
