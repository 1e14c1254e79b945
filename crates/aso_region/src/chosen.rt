// A member of a tuple with the data leaves that it holds.
ghost use Rattle.std.specs.Prelude.{◌≡◌, ◌<◌, length, false, true};
ghost use Rattle.aso_axes.specs.Members.{may_have};
ghost use Rattle.aso_axes.specs.declared.part.Purpose.TheVariants.{Region as Covers};
ghost use Rattle.aso_outline.specs.Classes.{has_range};
ghost use Rattle.aso_outline.specs.Members.{dim_of, resolve, seats};
ghost use Rattle.aso_outline.specs.Numbers.{hier_of, seat_of};
ghost use Rattle.aso_region.specs.Kept.{IsChosen};

use aso_outline::{Outline, Seat};

/// A member of a tuple, its base dimension, and a range of numbers: the member holds the data leaves whose numbers are from the
/// first on, before the end. A leaf's number is its ordinal or, where a hierarchy is named, its class at level 1 there.
#[derive(Clone, Copy, Debug, PartialEq, Eq)]
pub struct Chosen {
    pub member: u32,
    pub dim: u32,
    pub hier: Option<u32>,
    pub first: u32,
    pub end: u32,
}

fn dim_of(seat: Seat) -> u32
    ensures { result ≡ dim_of seat }
{
    match seat {
        Seat::Whole { dim } => dim,
        Seat::Inner { dim, .. } => dim,
        Seat::Carried { attr, .. } => attr,
    }
}

/// The hierarchy of what the member stands for.
fn hier_of(outline: &Outline, m: u32) -> u32
    requires { m < length (seats outline.now) }
    ensures { result ≡ hier_of (resolve outline.now (seat_of outline.now m)) }
{
    match outline.resolved(outline.seat(m)) {
        Seat::Inner { hier, .. } => hier,
        _ => 0,
    }
}

/// The data leaves of a member by their ordinals, which stand in a row.
fn by_ordinals(outline: &Outline, m: u32) -> Chosen
    requires member { m < length (seats outline.now) }
    requires may { may_have outline.now Covers m ≡ true }
    requires row { has_range outline.now (resolve outline.now (seat_of outline.now m)) 0 ≡ true }
    ensures member { result.member ≡ m }
    ensures exact { IsChosen outline.now result }
{
    outline.keeps();
    let seat = outline.seat(m);
    let dim = dim_of(seat);
    let range = outline.class_range(m, 0);
    Chosen {
        member: m,
        dim,
        hier: None,
        first: range.0,
        end: range.1,
    }
}

/// The data leaves of a member by their classes at level 1 of its hierarchy.
fn by_classes(outline: &Outline, m: u32) -> Chosen
    requires member { m < length (seats outline.now) }
    requires may { may_have outline.now Covers m ≡ true }
    requires no_row { has_range outline.now (resolve outline.now (seat_of outline.now m)) 0 ≡ false }
    ensures member { result.member ≡ m }
    ensures exact { IsChosen outline.now result }
{
    outline.keeps();
    let seat = outline.seat(m);
    let dim = dim_of(seat);
    let hier = hier_of(outline, m);
    let range = outline.class_range(m, 1);
    Chosen {
        member: m,
        dim,
        hier: Some(hier),
        first: range.0,
        end: range.1,
    }
}

/// The data leaves of a member by their ordinals, if these stand in a row; else by their classes.
pub fn chosen_of(outline: &Outline, m: u32) -> Chosen
    requires member { m < length (seats outline.now) }
    requires may { may_have outline.now Covers m ≡ true }
    ensures member { result.member ≡ m }
    ensures exact { IsChosen outline.now result }
{
    if outline.has_range(m, 0) {
        by_ordinals(outline, m)
    } else {
        by_classes(outline, m)
    }
}
