// The stored tuples that were found, each once, and where the search has been.
ghost use Rattle.std.specs.Prelude.{◌≡◌, true, map, IfOk, OnOk};
ghost use Rattle.std.specs.List.{list_all};
ghost use Rattle.aso_calc.specs.Listed.{Lists};
ghost use Rattle.aso_calc.specs.Needs.{has, noted, reached_step, reached_within, with_attrs};

use crate::key::{key_of, step_key};
use crate::table::Table;
use aso_memory::NoMemory;
use aso_num::List;
use aso_outline::{Extra, Outline, Tuple};
use std::alloc::Global;

/// The tuples in the order in which they were found. Both tables are for looking up alone.
#[derive(Drop)]
pub struct Listing {
    listed: Table<bool>,
    visited: Table<bool>,
    found: Vec<Tuple>,
}

fn tuple_of(alloc: Global, base: &[u32], attrs: &[Option<u32>]) -> Result<Tuple, NoMemory>
    ensures { IfOk result (λ t. t ≡ with_attrs attrs.now base.now) }
{
    let mut members = Vec::new(alloc);
    members.extend_from_slice(base)?;
    let mut asked = Vec::new(alloc);
    asked.extend_from_slice(attrs)?;
    Ok(Tuple {
        base: List::of(members),
        attrs: List::of(asked),
    })
}

impl Listing {
    ghost use Rattle.std.specs.Prelude.{◌≡◌, []};

    /// Nothing was found yet.
    pub fn new(alloc: Global, _outline: &Outline, _extra: &Extra) -> Listing
        ensures lists { Lists _outline.now _extra.now.members.items result }
        ensures found { result.found.items ≡ [] }
    {
        Listing {
            listed: Table::new(alloc),
            visited: Table::new(alloc),
            found: Vec::new(alloc),
        }
    }

    /// The tuples that were found.
    pub fn into_found(self) -> Vec<Tuple>
        ensures { result.items ≡ self.found.items }
    {
        self.found
    }
}

/// Adds the tuple at coordinates, if it wasn't found before.
pub fn note(
    alloc: Global,
    _outline: &Outline,
    _extra: &Extra,
    attrs: &[Option<u32>],
    listing: &mut Listing,
    base: &[u32],
) -> Result<(), NoMemory>
    requires lists { Lists _outline.now _extra.now.members.items listing.old }
    ensures lists { OnOk result (Lists _outline.now _extra.now.members.items listing.new) }
    ensures found { OnOk result (listing.new.found.items ≡ noted listing.old.found.items (with_attrs attrs.now base.now)) }
{
    let key = key_of(alloc, base, attrs)?;
    if listing.listed.find(key.as_slice()).is_some() {
        return Ok(());
    }
    let tuple = tuple_of(alloc, base, attrs)?;
    listing.found.push(tuple)?;
    listing.listed.add(key, true)?;
    Ok(())
}

/// All that is reached from these coordinates was found, since the search has been there.
pub fn has_been(
    alloc: Global,
    _outline: &Outline,
    _extra: &Extra,
    attrs: &[Option<u32>],
    listing: &Listing,
    ranks: u32,
    base: &[u32],
) -> Result<bool, NoMemory>
    requires lists { Lists _outline.now _extra.now.members.items listing.now }
    ensures { IfOk result (λ b. b ≡ true → list_all (has listing.now.found.items) (map (with_attrs attrs.now) (reached_step _outline.now _extra.now.members.items (reached_within ranks _outline.now _extra.now.members.items) base.now)) ≡ true) }
{
    let key = step_key(alloc, ranks, base, attrs)?;
    Ok(listing.visited.find(key.as_slice()).is_some())
}

/// The search has been at these coordinates from now on.
pub fn mark(
    alloc: Global,
    _outline: &Outline,
    _extra: &Extra,
    attrs: &[Option<u32>],
    listing: &mut Listing,
    ranks: u32,
    base: &[u32],
) -> Result<(), NoMemory>
    requires lists { Lists _outline.now _extra.now.members.items listing.old }
    requires found { list_all (has listing.old.found.items) (map (with_attrs attrs.now) (reached_step _outline.now _extra.now.members.items (reached_within ranks _outline.now _extra.now.members.items) base.now)) ≡ true }
    ensures lists { OnOk result (Lists _outline.now _extra.now.members.items listing.new) }
    ensures found { listing.new.found.items ≡ listing.old.found.items }
{
    let key = step_key(alloc, ranks, base, attrs)?;
    listing.visited.add(key, true)?;
    Ok(())
}
