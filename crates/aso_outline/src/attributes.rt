// O10: attribute dimensions, and the attributes that members carry.
ghost use Rattle.std.specs.Prelude.{◌≡◌, ◌&&◌, ◌<◌, ◌≤◌, ◌^◌, not, length, nat_le, nat_lt, IfOk};
ghost use Rattle.std.specs.List.{list_all, list_any};
ghost use Rattle.aso_tree.specs.Trees.{places_of};
ghost use Rattle.aso_outline.specs.declared.draft.DraftDim.{DraftDim};
ghost use Rattle.aso_outline.specs.Members.{has, is_data_leaf, same_name, seats};
ghost use Rattle.aso_outline.specs.Named.{Finds};
ghost use Rattle.aso_outline.specs.Rules.{are_of_different_attrs, base_of, breaks_attributes, count_of_attr, is_bare, is_carried_well, is_leaf_over, is_of_attr, is_over_base, least};
ghost use Rattle.aso_outline.specs.Small.{HasTrees};

use crate::data_leaf::is_data_leaf;
use crate::draft::{Draft, DraftDim};
use crate::find::find_all;
use crate::kinds::is_shared;
use crate::labels::is_root;
use crate::look::{dim_name, member_at};
use crate::roots::same_name;
use crate::seat::Seat;
use crate::sharing::is_bare;
use crate::table::NameTable;
use crate::trees::is_childless;
use aso_num::{NoMemory, Text};
use std::alloc::Global;

/// The base that an attribute dimension names.
fn base_of(draft: &Draft, attr: u32) -> &str
    ensures { result.now ≡ base_of draft.now attr }
{
    match draft.attrs.items().get(attr as usize) {
        Some(attr) => attr.base.as_str(),
        None => "",
    }
}

fn is_named_by(dims: &[DraftDim], base: &str) -> bool
    ensures { result ≡ list_any (λ (d : DraftDim). same_name base.now d.name) dims.now }
{
    dims.iter().any(|dim| same_name(base, dim.name.as_str()))
}

/// The base of the attribute dimension is a base dimension.
fn is_over_base(draft: &Draft, attr: u32) -> bool
    ensures { result ≡ is_over_base draft.now attr }
{
    is_named_by(draft.dims.items(), base_of(draft, attr))
}

/// The member is a leaf of an attribute dimension over the base dimension.
fn is_leaf_over(draft: &Draft, dim: u32, seat: Seat) -> bool
    requires { HasTrees draft.now }
    ensures { result ≡ is_leaf_over draft.now dim seat }
{
    match seat {
        Seat::Carried { attr, .. } => {
            is_childless(draft, seat) && same_name(base_of(draft, attr), dim_name(draft, dim))
        }
        _ => false,
    }
}

fn are_leaves_over(draft: &Draft, dim: u32, found: &[Seat]) -> bool
    requires { HasTrees draft.now }
    ensures { result ≡ list_all (is_leaf_over draft.now dim) found.now }
{
    found.iter().all(|seat| is_leaf_over(draft, dim, *seat))
}

fn is_of_attr(attr: u32, seat: Seat) -> bool
    ensures { result ≡ is_of_attr attr seat }
{
    match seat {
        Seat::Carried { attr: other, .. } => attr == other,
        _ => false,
    }
}

/// How many of the members are of the attribute dimension.
fn count_of_attr(attr: u32, found: &[Seat]) -> usize
    ensures value { result ≡ count_of_attr attr found.now }
    ensures bound { result ≤ length found.now }
{
    let mut count = 0;
    for seat in found {
        if is_of_attr(attr, *seat) {
            count += 1;
        }
    }
    count
}

/// At most one member for each attribute dimension.
fn are_of_different_attrs(draft: &Draft, found: &[Seat]) -> bool
    requires { length draft.now.attrs < 2 ^ 32 }
    ensures { result ≡ are_of_different_attrs draft.now found.now }
{
    for attr in 0..draft.attrs.items().len() as u32 {
        if count_of_attr(attr, found) > 1 {
            return false;
        }
    }
    true
}

/// What a base member carries isn't what a data leaf of its dimension may.
fn carries_wrongly(
    draft: &Draft,
    table: &[Seat],
    names: &NameTable,
    seat: Seat,
    dim: u32,
    carries: &[Text],
    found: &mut Vec<Seat>,
) -> Result<bool, NoMemory>
    requires is { table.now ≡ seats draft.now }
    requires finds { Finds draft.now names.now }
    requires trees { HasTrees draft.now }
    requires few { length draft.now.attrs < 2 ^ 32 }
    ensures { IfOk result (λ b. b ≡ (nat_lt 0 (length carries.now) && not (is_data_leaf draft.now seat && is_carried_well draft.now dim carries.now))) }
{
    if carries.len() == 0 {
        return Ok(false);
    }
    if !is_data_leaf(draft, seat) {
        return Ok(true);
    }
    let all = find_all(draft, table, names, carries, found)?;
    let found = found.as_slice();
    Ok(!(all && (are_leaves_over(draft, dim, found) && are_of_different_attrs(draft, found))))
}

/// A member of an attribute dimension is bare and isn't shared.
fn is_bare_attribute(draft: &Draft, seat: Seat) -> bool
    ensures { result ≡ has (λ m. is_bare m && not m.shared) draft.now seat }
{
    is_bare(draft, seat) && !is_shared(draft, seat)
}

/// O10: an attribute that may not be carried there, or a wrong member of an attribute dimension.
fn breaks_attributes(
    draft: &Draft,
    table: &[Seat],
    names: &NameTable,
    seat: Seat,
    found: &mut Vec<Seat>,
) -> Result<bool, NoMemory>
    requires is { table.now ≡ seats draft.now }
    requires finds { Finds draft.now names.now }
    requires trees { HasTrees draft.now }
    requires few { length draft.now.attrs < 2 ^ 32 }
    ensures { IfOk result (λ b. b ≡ breaks_attributes draft.now seat) }
{
    match seat {
        Seat::Whole { .. } => Ok(false),
        Seat::Inner { dim, .. } => match member_at(draft, seat) {
            Some(member) => {
                carries_wrongly(
                    draft,
                    table,
                    names,
                    seat,
                    dim,
                    member.carries.items(),
                    found,
                )
            }
            None => Ok(false),
        },
        Seat::Carried { attr, .. } => Ok(
            !(is_bare_attribute(draft, seat) && (!is_root(seat) || is_over_base(draft, attr))),
        ),
    }
}

/// O10: the first member that carries what it may not, or that no attribute dimension may have.
pub fn least_wrong_attribute(
    alloc: Global,
    draft: &Draft,
    table: &[Seat],
    names: &NameTable,
) -> Result<Option<u32>, NoMemory>
    requires is { table.now ≡ seats draft.now }
    requires short { length table.now < 2 ^ 32 }
    requires finds { Finds draft.now names.now }
    requires trees { HasTrees draft.now }
    requires few { length draft.now.attrs < 2 ^ 32 }
    ensures { IfOk result (λ r. r ≡ least breaks_attributes draft.now) }
{
    let mut found = Vec::new(alloc);
    for number in 0..table.len() as u32 {
        let breaks = breaks_attributes(draft, table, names, table[number as usize], &mut found)?;
        if breaks {
            return Ok(Some(number));
        }
    }
    Ok(None)
}
