// The coordinates of the cells.
ghost use Rattle.std.specs.Prelude.{◌≡◌, ◌++◌, map, slice_get, IfOk, OnOk};
ghost use Rattle.std.specs.List.{flat_map};
ghost use Rattle.aso_grid.specs.Places.{member_if, member_of, tuple_in, tuples_of_row};
ghost use Rattle.aso_grid.specs.Plans.{cells_of};

use crate::places::{Place, Places, places_in};
use aso_memory::NoMemory;
use aso_num::List;
use aso_outline::{DimRef, Outline, Tuple};
use std::alloc::Global;

fn at(members: &[u32], place: usize) -> Option<u32>
    ensures { result ≡ slice_get members.now place }
{
    members.get(place).copied()
}

/// The member at a place among those that column, row and slicer name.
fn named_at(column: &[u32], row: &[u32], slicer: &[u32], place: usize) -> Option<u32>
    ensures { result ≡ slice_get (column.now ++ (row.now ++ slicer.now)) place }
{
    if place < column.len() {
        return at(column, place);
    }
    let behind = place - column.len();
    if behind < row.len() {
        return at(row, behind);
    }
    at(slicer, behind - row.len())
}

fn named_if(column: &[u32], row: &[u32], slicer: &[u32], place: Option<usize>) -> Option<u32>
    ensures { result ≡ member_if (column.now ++ (row.now ++ slicer.now)) place }
{
    match place {
        Some(place) => named_at(column, row, slicer, place),
        None => None,
    }
}

/// The member that is named, or else the dimension's own.
fn named_or_own(column: &[u32], row: &[u32], slicer: &[u32], place: Place) -> u32
    ensures { result ≡ member_of (column.now ++ (row.now ++ slicer.now)) place }
{
    match named_if(column, row, slicer, place.named) {
        Some(n) => n,
        None => place.own,
    }
}

fn base_of(
    alloc: Global,
    base: &[Place],
    column: &[u32],
    row: &[u32],
    slicer: &[u32],
) -> Result<Vec<u32>, NoMemory>
    ensures { IfOk result (λ v. v.items ≡ map (member_of (column.now ++ (row.now ++ slicer.now))) base.now) }
{
    let mut members = Vec::new(alloc);
    for place in base {
        members.push(named_or_own(column, row, slicer, *place))?;
    }
    Ok(members)
}

fn attrs_of(
    alloc: Global,
    attrs: &[Option<usize>],
    column: &[u32],
    row: &[u32],
    slicer: &[u32],
) -> Result<Vec<Option<u32>>, NoMemory>
    ensures { IfOk result (λ v. v.items ≡ map (member_if (column.now ++ (row.now ++ slicer.now))) attrs.now) }
{
    let mut members = Vec::new(alloc);
    for place in attrs {
        members.push(named_if(column, row, slicer, *place))?;
    }
    Ok(members)
}

fn cell(
    alloc: Global,
    places: &Places,
    column: &[u32],
    row: &[u32],
    slicer: &[u32],
) -> Result<Tuple, NoMemory>
    ensures { IfOk result (λ t. t ≡ tuple_in places.now.base.items places.now.attrs.items (column.now ++ (row.now ++ slicer.now))) }
{
    let base = base_of(alloc, &places.base, column, row, slicer)?;
    let attrs = attrs_of(alloc, &places.attrs, column, row, slicer)?;
    Ok(Tuple {
        base: List::of(base),
        attrs: List::of(attrs),
    })
}

/// Adds the cells of a row.
fn push_row(
    alloc: Global,
    places: &Places,
    columns: &[List<u32>],
    row: &[u32],
    slicer: &[u32],
    cells: &mut Vec<Tuple>,
) -> Result<(), NoMemory>
    ensures { OnOk result (cells.new.items ≡ cells.old.items ++ tuples_of_row places.now.base.items places.now.attrs.items columns.now slicer.now row.now) }
{
    for column in columns {
        cells.push(cell(alloc, places, column.items(), row, slicer)?)?;
    }
    Ok(())
}

fn cells_at(
    alloc: Global,
    places: &Places,
    columns: &[List<u32>],
    rows: &[List<u32>],
    slicer: &[u32],
) -> Result<Vec<Tuple>, NoMemory>
    ensures { IfOk result (λ v. v.items ≡ flat_map (tuples_of_row places.now.base.items places.now.attrs.items columns.now slicer.now) rows.now) }
{
    let mut cells = Vec::new(alloc);
    for row in rows {
        push_row(alloc, places, columns, row.items(), slicer, &mut cells)?;
    }
    Ok(cells)
}

/// The coordinates of each cell, of which columns, rows and slicer name these dimensions.
pub fn cells(
    alloc: Global,
    outline: &Outline,
    dims: &[DimRef],
    columns: &[List<u32>],
    rows: &[List<u32>],
    slicer: &[u32],
) -> Result<Vec<Tuple>, NoMemory>
    ensures { IfOk result (λ v. v.items ≡ cells_of outline.now dims.now columns.now rows.now slicer.now) }
{
    let places = places_in(alloc, outline, dims)?;
    cells_at(alloc, &places, columns, rows, slicer)
}
