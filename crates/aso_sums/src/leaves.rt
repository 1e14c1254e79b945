// Which members cover the leaves of a cell.
ghost use Rattle.std.specs.Prelude.{◌≡◌, ◌<◌, length, map, IfOk, IfSome};
ghost use Rattle.std.specs.List.{All, position};
ghost use Rattle.aso_outline.specs.Members.{same_name, seats};
ghost use Rattle.aso_sums.specs.Stored.{attr_dim};
ghost use Rattle.aso_sums.specs.Summing.{AreLeaves, passes};

use aso_memory::NoMemory;
use aso_outline::{DraftDim, Outline, Seat};
use std::alloc::Global;

fn is_named(dim: &DraftDim, name: &str) -> bool
    ensures { result ≡ same_name name.now dim.now.name }
{
    name == dim.name.as_str()
}

// The place of a dimension's name, of which there are few.
fn place_of(dims: &[DraftDim], name: &str) -> Option<usize>
    ensures value { result ≡ position (λ d. same_name name.now d.name) dims.now }
    ensures within { IfSome result (λ k. k < length dims.now) }
{
    dims.iter().position(|dim| is_named(dim, name))
}

// The base dimension of a name.
fn dim_named(outline: &Outline, name: &str) -> Option<u32>
    ensures value { result ≡ position (λ d. same_name name.now d.name) outline.now.dims }
    ensures there { IfSome result (λ d. d < length outline.now.dims) }
{
    match place_of(outline.sound_draft().dims.items(), name) {
        Some(dim) => Some(dim as u32),
        None => None,
    }
}

// The base dimension whose leaves may carry the members of an attribute dimension.
fn attr_dim(outline: &Outline, attr: u32) -> Option<u32>
    requires { attr < length outline.now.attrs }
    ensures value { result ≡ attr_dim outline.now attr }
    ensures there { IfSome result (λ d. d < length outline.now.dims) }
{
    let of = &outline.draft().attrs.items()[attr as usize];
    dim_named(outline, of.base.as_str())
}

// The member covers the cell's leaf of its dimension.
fn passes(outline: &Outline, leaves: &[u32], m: u32) -> bool
    requires leaves { AreLeaves outline.now leaves.now }
    requires member { m < length (seats outline.now) }
    ensures { result ≡ passes outline.now leaves.now m }
{
    match outline.seat(m) {
        Seat::Whole { dim } => outline.holds(m, leaves[dim as usize]),
        Seat::Inner { dim, .. } => outline.holds(m, leaves[dim as usize]),
        Seat::Carried { attr, .. } => match attr_dim(outline, attr) {
            Some(dim) => outline.carries(dim, leaves[dim as usize], m),
            None => false,
        },
    }
}

/// Of each of some members, whether it covers the cell's leaf of its dimension.
pub fn all_passes(
    alloc: Global,
    outline: &Outline,
    leaves: &[u32],
    members: &[u32],
) -> Result<Vec<bool>, NoMemory>
    requires leaves { AreLeaves outline.now leaves.now }
    requires members { All (λ m. m < length (seats outline.now)) members.now }
    ensures { IfOk result (λ v. v.items ≡ map (passes outline.now leaves.now) members.now) }
{
    let mut all = Vec::new(alloc);
    for m in members {
        all.push(passes(outline, leaves, *m))?;
    }
    Ok(all)
}
