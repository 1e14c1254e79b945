// Tuples by the places of their members among those that are asked.
ghost use Rattle.std.specs.Prelude.{◌≡◌, ◌<◌, ◌++◌, ◌^◌, length, map, IfOk, OnOk};
ghost use Rattle.std.specs.List.{filter_map, AllZip};
ghost use Rattle.aso_tree.specs.Trees.{places_of};
ghost use Rattle.aso_sums.specs.Asking.{Extends, IsAsking};
ghost use Rattle.aso_sums.specs.Rows.{IsPlaceOf, TakesPlaces};
ghost use Rattle.aso_outline.specs.Members.{seats};
ghost use Rattle.aso_outline.specs.Numbers.{seat_of};
ghost use Rattle.aso_sums.specs.Stored.{attr_coordinate, base_coordinate, coordinates, is_in};
ghost use Rattle.aso_sums.specs.Summing.{IsRow};

use crate::asked::Asked;
use aso_memory::NoMemory;
use aso_num::List;
use aso_outline::{DimRef, Outline, Seat, Tuple};
use std::alloc::Global;

fn push_base(tuple: &Tuple, all: &mut Vec<(DimRef, u32)>) -> Result<(), NoMemory>
    requires { length tuple.now.base < 2 ^ 32 }
    ensures { OnOk result (all.new.items ≡ all.old.items ++ map (base_coordinate tuple.now) (places_of tuple.now.base)) }
{
    let members = tuple.base.items();
    for d in 0..members.len() as u32 {
        all.push((DimRef::Base(d), members[d as usize]))?;
    }
    Ok(())
}

fn push_attrs(tuple: &Tuple, all: &mut Vec<(DimRef, u32)>) -> Result<(), NoMemory>
    requires { length tuple.now.attrs < 2 ^ 32 }
    ensures { OnOk result (all.new.items ≡ all.old.items ++ filter_map (attr_coordinate tuple.now) (places_of tuple.now.attrs)) }
{
    let asked = tuple.attrs.items();
    for a in 0..asked.len() as u32 {
        if let Some(m) = asked[a as usize] {
            all.push((DimRef::Attr(a), m))?;
        }
    }
    Ok(())
}

// The coordinates of a tuple; so many that 32 bits don't count them are past all memory.
fn coordinates(alloc: Global, tuple: &Tuple) -> Result<Vec<(DimRef, u32)>, NoMemory>
    ensures { IfOk result (λ v. v.items ≡ coordinates tuple.now) }
{
    if tuple.base.items().len() > u32::MAX as usize {
        return Err(NoMemory);
    }
    if tuple.attrs.items().len() > u32::MAX as usize {
        return Err(NoMemory);
    }
    let mut all = Vec::new(alloc);
    push_base(tuple, &mut all)?;
    push_attrs(tuple, &mut all)?;
    Ok(all)
}

// The member stands in the dimension.
fn stands_in(outline: &Outline, dim: DimRef, m: u32) -> bool
    requires { m < length (seats outline.now) }
    ensures { result ≡ is_in dim (seat_of outline.now m) }
{
    match (dim, outline.seat(m)) {
        (DimRef::Base(d), Seat::Whole { dim }) => d == dim,
        (DimRef::Base(d), Seat::Inner { dim, .. }) => d == dim,
        (DimRef::Attr(a), Seat::Carried { attr, .. }) => a == attr,
        _ => false,
    }
}

// The place of a coordinate's member, which is asked from now on; none where the coordinate covers no cell.
fn place_of(
    outline: &Outline,
    asked: &mut Asked,
    dim: DimRef,
    m: u32,
) -> Result<Option<u32>, NoMemory>
    requires { IsAsking outline.now asked.old }
    ensures place { IfOk result (λ k. IsPlaceOf outline.now asked.new.members.items (dim, m) k) }
    ensures asking { OnOk result (IsAsking outline.now asked.new) }
    ensures extends { OnOk result (Extends asked.old.members.items asked.new.members.items) }
{
    if m >= outline.members() || !stands_in(outline, dim, m) {
        return Ok(None);
    }
    Ok(Some(asked.place_of(outline, m)?))
}

// The places of coordinates; none where one of them covers no cell.
fn places_of(
    alloc: Global,
    outline: &Outline,
    asked: &mut Asked,
    coordinates: &[(DimRef, u32)],
) -> Result<Option<Vec<u32>>, NoMemory>
    requires { IsAsking outline.now asked.old }
    ensures places { IfOk result (λ found. TakesPlaces outline.now asked.new.members.items coordinates.now found) }
    ensures asking { OnOk result (IsAsking outline.now asked.new) }
    ensures extends { OnOk result (Extends asked.old.members.items asked.new.members.items) }
{
    let mut places = Vec::new(alloc);
    for (dim, m) in coordinates {
        match place_of(outline, asked, *dim, *m)? {
            Some(place) => places.push(place)?,
            None => return Ok(None),
        }
    }
    Ok(Some(places))
}

// A tuple by the places of its members, which are asked from now on.
fn row_of(
    alloc: Global,
    outline: &Outline,
    asked: &mut Asked,
    tuple: &Tuple,
) -> Result<Option<List<u32>>, NoMemory>
    requires { IsAsking outline.now asked.old }
    ensures row { IfOk result (λ row. IsRow outline.now asked.new.members.items row tuple.now) }
    ensures asking { OnOk result (IsAsking outline.now asked.new) }
    ensures extends { OnOk result (Extends asked.old.members.items asked.new.members.items) }
{
    if tuple.base.items().len() != outline.dims() as usize {
        return Ok(None);
    }
    let coordinates = coordinates(alloc, tuple)?;
    match places_of(alloc, outline, asked, &coordinates)? {
        Some(places) => Ok(Some(List::of(places))),
        None => Ok(None),
    }
}

/// The rows of some tuples, whose members are asked from now on.
pub fn rows_of(
    alloc: Global,
    outline: &Outline,
    asked: &mut Asked,
    tuples: &[Tuple],
) -> Result<Vec<Option<List<u32>>>, NoMemory>
    requires { IsAsking outline.now asked.old }
    ensures rows { IfOk result (λ v. AllZip (IsRow outline.now asked.new.members.items) v.items tuples.now) }
    ensures asking { OnOk result (IsAsking outline.now asked.new) }
{
    let mut rows = Vec::new(alloc);
    for tuple in tuples {
        rows.push(row_of(alloc, outline, asked, tuple)?)?;
    }
    Ok(rows)
}
