// Members by name and by number: those of the outline, and behind them a query's own.
ghost use Rattle.std.specs.Prelude.{◌≡◌, ◌<◌, ◌≤◌, Some, length, unwrap_or, IfSome};
ghost use Rattle.std.specs.Option.{option_map, option_copied};
ghost use Rattle.aso_outline.specs.Members.{same_name, seats};
ghost use Rattle.aso_outline.specs.Numbers.{dim_ref, root_of, seat_of};
ghost use Rattle.aso_outline.specs.Targets.{number_of};
ghost use Rattle.aso_axes.specs.Members.{IsNumbered, dim_of_member, is_root as is_root_of, member_named as member_named_by, name_of as name_of_member, own_at as own_at_number, own_place as own_place_of, same_dim as same_dims};

use aso_outline::{DimRef, ExtraMember, Outline, Seat};

/// The two are one dimension.
pub fn same_dim(left: DimRef, right: DimRef) -> bool
    ensures { result ≡ same_dims left right }
{
    match (left, right) {
        (DimRef::Base(d), DimRef::Base(e)) => d == e,
        (DimRef::Attr(a), DimRef::Attr(b)) => a == b,
        _ => false,
    }
}

fn has_name(member: &ExtraMember, name: &str) -> bool
    ensures { result ≡ same_name name.now member.now.name }
{
    name == member.name.as_str()
}

/// The place of a name among the query's own members, of which there are few.
fn own_place(own: &[ExtraMember], name: &str) -> Option<usize>
    ensures value { result ≡ own_place_of own.now name.now }
    ensures within { IfSome result (λ k. k < length own.now) }
{
    own.iter().position(|member| has_name(member, name))
}

/// The number of the member of a name.
pub fn member_named(outline: &Outline, own: &[ExtraMember], name: &str) -> Option<u32>
    requires { IsNumbered outline.now own.now }
    ensures { result ≡ member_named_by outline.now own.now name.now }
{
    match outline.find(name) {
        Some(number) => Some(number),
        None => match own_place(own, name) {
            Some(place) => Some(outline.members() + place as u32),
            None => None,
        },
    }
}

fn own_at<'x>(outline: &Outline, own: &'x [ExtraMember], n: u32) -> Option<&'x ExtraMember>
    requires { length (seats outline.now) ≤ n }
    ensures { option_copied result ≡ own_at_number outline.now own.now n }
{
    own.get((n - outline.members()) as usize)
}

/// The dimension of a member.
pub fn dim_of(outline: &Outline, own: &[ExtraMember], n: u32) -> DimRef
    ensures { result ≡ dim_of_member outline.now own.now n }
{
    if n < outline.members() {
        return outline.dim_of(n);
    }
    match own_at(outline, own, n) {
        Some(member) => DimRef::Base(member.dim),
        None => DimRef::Base(0),
    }
}

/// The name of a member.
pub fn name_of<'a>(outline: &'a Outline, own: &'a [ExtraMember], n: u32) -> &'a str
    ensures { result.now ≡ name_of_member outline.now own.now n }
{
    if n < outline.members() {
        return outline.name(n);
    }
    match own_at(outline, own, n) {
        Some(member) => member.name.as_str(),
        None => "",
    }
}

/// The number of a member's dimension's own member.
fn own_number(outline: &Outline, n: u32) -> u32
    requires { n < length (seats outline.now) }
    ensures { result ≡ number_of outline.now (root_of outline.now (dim_ref (seat_of outline.now n))) }
{
    outline.keeps_numbers();
    let seat = outline.seat(n);
    let dim = dim_of_seat(seat);
    outline.root(dim)
}

fn dim_of_seat(seat: Seat) -> DimRef
    ensures { result ≡ dim_ref seat }
{
    match seat {
        Seat::Whole { dim } => DimRef::Base(dim),
        Seat::Inner { dim, .. } => DimRef::Base(dim),
        Seat::Carried { attr, .. } => DimRef::Attr(attr),
    }
}

/// The member is its dimension's own.
pub fn is_root(outline: &Outline, n: u32) -> bool
    ensures { result ≡ is_root_of outline.now n }
{
    n < outline.members() && n == own_number(outline, n)
}
