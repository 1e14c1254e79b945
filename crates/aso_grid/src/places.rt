// Where the coordinates of a cell stand among the members that columns, rows and slicer name.
ghost use Rattle.std.specs.Prelude.{◌≡◌, ◌<◌, length, IfOk};
ghost use Rattle.std.specs.List.{position};
ghost use Rattle.aso_axes.specs.Members.{same_dim as same_dims};
ghost use Rattle.aso_grid.specs.Places.{attr_places_of, base_place_of, base_places_of};

use aso_axes::same_dim;
use aso_memory::NoMemory;
use aso_outline::{DimRef, Outline};
use std::alloc::Global;

/// A base dimension: the place of its member among those that are named, and its own member.
#[derive(Clone, Copy, Debug, PartialEq, Eq)]
pub struct Place {
    pub named: Option<usize>,
    pub own: u32,
}

/// One entry for each base dimension, and one for each attribute dimension, in outline order.
#[derive(Debug, Drop)]
pub struct Places {
    pub base: Vec<Place>,
    pub attrs: Vec<Option<usize>>,
}

/// The place of a dimension in a list.
fn place_in(dims: &[DimRef], dim: DimRef) -> Option<usize>
    ensures { result ≡ position (same_dims dim) dims.now }
{
    dims.iter().position(|other| same_dim(dim, *other))
}

fn base_place(outline: &Outline, dims: &[DimRef], dim: u32) -> Place
    requires { dim < length outline.now.dims }
    ensures { result ≡ base_place_of outline.now dims.now dim }
{
    outline.keeps_numbers();
    Place {
        named: place_in(dims, DimRef::Base(dim)),
        own: outline.root(DimRef::Base(dim)),
    }
}

fn base_places(alloc: Global, outline: &Outline, dims: &[DimRef]) -> Result<Vec<Place>, NoMemory>
    ensures { IfOk result (λ v. v.items ≡ base_places_of outline.now dims.now) }
{
    let mut places = Vec::new(alloc);
    for dim in 0..outline.dims() {
        places.push(base_place(outline, dims, dim))?;
    }
    Ok(places)
}

fn attr_places(
    alloc: Global,
    outline: &Outline,
    dims: &[DimRef],
) -> Result<Vec<Option<usize>>, NoMemory>
    ensures { IfOk result (λ v. v.items ≡ attr_places_of outline.now dims.now) }
{
    let mut places = Vec::new(alloc);
    for attr in 0..outline.attrs() {
        places.push(place_in(dims, DimRef::Attr(attr)))?;
    }
    Ok(places)
}

/// The places of an outline's dimensions in a list of those that are named.
pub fn places_in(alloc: Global, outline: &Outline, dims: &[DimRef]) -> Result<Places, NoMemory>
    ensures base { IfOk result (λ p. p.base.items ≡ base_places_of outline.now dims.now) }
    ensures attrs { IfOk result (λ p. p.attrs.items ≡ attr_places_of outline.now dims.now) }
{
    Ok(Places {
        base: base_places(alloc, outline, dims)?,
        attrs: attr_places(alloc, outline, dims)?,
    })
}
