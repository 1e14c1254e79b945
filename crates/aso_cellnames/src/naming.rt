// Names that are unknown, or wrong in a cell.
ghost use Rattle.std.specs.Prelude.{◌≡◌, [], IfOk};
ghost use Rattle.std.specs.List.{find};
ghost use Rattle.aso_outline.specs.Members.{dim_of as dim_of_seat, is_data_leaf};
ghost use Rattle.aso_outline.specs.Ranks.{named};
ghost use Rattle.aso_spec.specs.Named.{names_one};
ghost use Rattle.aso_cellnames.specs.Names.{dim_named, has, is_unknown, misplaced, texts, told};

use aso_memory::NoMemory;
use aso_outline::{Outline, Seat};
use std::alloc::Global;

/// The member of a name.
#[tactic(auto, using(aso_outline::proofs::FoundNames::number_within))]
pub fn seat_of(outline: &Outline, name: &str) -> Option<Seat>
    ensures { result ≡ named outline.now name.now }
{
    match outline.find(name) {
        Some(number) => Some(outline.seat(number)),
        None => None,
    }
}

// The base dimension of a member.
fn dim_of(seat: Seat) -> u32
    ensures { result ≡ dim_of_seat seat }
{
    match seat {
        Seat::Whole { dim } => dim,
        Seat::Inner { dim, .. } => dim,
        Seat::Carried { attr, .. } => attr,
    }
}

// The dimension of a name's member; 0 where it names none.
fn dim_named(outline: &Outline, name: &str) -> u32
    ensures { result ≡ dim_named outline.now name.now }
{
    match seat_of(outline, name) {
        Some(seat) => dim_of(seat),
        None => 0,
    }
}

// The name is a data leaf's.
fn is_leaf_name(outline: &Outline, name: &str) -> bool
    ensures { result ≡ names_one (is_data_leaf outline.now) outline.now name.now }
{
    match seat_of(outline, name) {
        Some(seat) => outline.is_data_leaf(seat),
        None => false,
    }
}

fn has(dims: &[u32], dim: u32) -> bool
    ensures { result ≡ has dims.now dim }
{
    dims.iter().any(|d| *d == dim)
}

/// The first name that is unknown.
pub fn first_unknown<'a>(outline: &Outline, names: &[&'a str]) -> Option<&'a str>
    ensures { told result ≡ find (is_unknown outline.now) (texts names.now) }
{
    for name in names {
        if seat_of(outline, name).is_none() {
            return Some(*name);
        }
    }
    None
}

/// The first of a cell's names that is no data leaf's, or whose dimension one before it has taken.
pub fn misplaced<'a>(
    alloc: Global,
    outline: &Outline,
    names: &[&'a str],
) -> Result<Option<&'a str>, NoMemory>
    ensures { IfOk result (λ found. told found ≡ misplaced outline.now [] (texts names.now)) }
{
    let mut taken = Vec::new(alloc);
    for name in names {
        let dim = dim_named(outline, name);
        if is_leaf_name(outline, name) && !has(&taken, dim) {
            taken.push(dim)?;
        } else {
            return Ok(Some(*name));
        }
    }
    Ok(None)
}
