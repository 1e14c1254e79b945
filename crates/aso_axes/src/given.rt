// What the functions of a member give.
ghost use Rattle.std.specs.Prelude.{◌≡◌, ◌<◌, ◌≤◌, ◌-◌, ◌∷◌, ◌++◌, [], length, map, IfOk, OnOk};
ghost use Rattle.std.specs.List.{filter, range_with_len};
ghost use Rattle.aso_outline.specs.declared.seat.Seat.TheVariants.{Whole, Inner};
ghost use Rattle.aso_outline.specs.Members.{dim_at, seats};
ghost use Rattle.aso_outline.specs.Numbers.{IsNumberOf, IsSeat, seat_of};
ghost use Rattle.aso_outline.specs.Rules.{is_base as is_base_seat, is_shared as is_shared_at};
ghost use Rattle.aso_outline.specs.Targets.{number_of};
ghost use Rattle.aso_tree.specs.Trees.{places_of};
ghost use Rattle.aso_axes.specs.Members.{below, children_of, descendants as descendants_of, given as given_by, given_in as given_in_outline, given_own as given_of_own, is_at_bottom as is_bottom, is_unshared as is_unshared_at, may_have as may_have_member, unshared as unshared_at};

use crate::below::end_below;
use crate::part::{Part, Purpose};
use aso_memory::NoMemory;
use aso_outline::{Outline, Seat};
use std::alloc::Global;

/// A shared member stands at a seat.
fn is_shared(outline: &Outline, seat: Seat) -> bool
    ensures { result ≡ is_shared_at outline.now seat }
{
    match seat {
        Seat::Whole { .. } => false,
        Seat::Inner { at, .. } => match outline.tree(seat).get(at as usize) {
            Some(member) => member.shared,
            None => false,
        },
        Seat::Carried { at, .. } => match outline.tree(seat).get(at as usize) {
            Some(member) => member.shared,
            None => false,
        },
    }
}

/// A shared member has the number.
fn is_shared_number(outline: &Outline, n: u32) -> bool
    ensures { result ≡ is_shared_at outline.now (seat_of outline.now n) }
{
    n < outline.members() && is_shared(outline, outline.seat(n))
}

/// The member has its own name.
fn is_unshared(outline: &Outline, n: u32) -> bool
    ensures { result ≡ is_unshared_at outline.now n }
{
    !is_shared_number(outline, n)
}

/// The member itself, or the data leaf that it shares.
fn unshared(outline: &Outline, n: u32) -> u32
    ensures { result ≡ unshared_at outline.now n }
{
    if n >= outline.members() || !is_shared_number(outline, n) {
        return n;
    }
    match outline.find(outline.name(n)) {
        Some(found) => found,
        None => n,
    }
}

/// The member has height 0.
fn is_at_bottom(outline: &Outline, n: u32) -> bool
    ensures { result ≡ is_bottom outline.now n }
{
    n < outline.members() && outline.height(n) == 0
}

/// The members of a range of numbers, with the data leaves of shared ones in their place.
fn unshared_range(
    alloc: Global,
    outline: &Outline,
    from: u32,
    to: u32,
) -> Result<Vec<u32>, NoMemory>
    requires { from ≤ to }
    ensures { IfOk result (λ v. v.items ≡ map (unshared_at outline.now) (range_with_len from (to - from))) }
{
    let mut all = Vec::new(alloc);
    for n in from..to {
        all.push(unshared(outline, n))?;
    }
    Ok(all)
}

fn push_unshared(outline: &Outline, n: u32, all: &mut Vec<u32>) -> Result<(), NoMemory>
    ensures { OnOk result (all.new.items ≡ all.old.items ++ filter (is_unshared_at outline.now) (n ∷ [])) }
{
    if is_unshared(outline, n) {
        all.push(n)?;
    }
    Ok(())
}

/// The members of a range of numbers that aren't shared.
fn unshared_only(alloc: Global, outline: &Outline, from: u32, to: u32) -> Result<Vec<u32>, NoMemory>
    requires { from ≤ to }
    ensures { IfOk result (λ v. v.items ≡ filter (is_unshared_at outline.now) (range_with_len from (to - from))) }
{
    let mut all = Vec::new(alloc);
    for n in from..to {
        push_unshared(outline, n, &mut all)?;
    }
    Ok(all)
}

/// Those of some members that have height 0.
fn at_bottom(alloc: Global, outline: &Outline, members: &[u32]) -> Result<Vec<u32>, NoMemory>
    ensures { IfOk result (λ v. v.items ≡ filter (is_bottom outline.now) members.now) }
{
    let mut all = Vec::new(alloc);
    for n in members {
        if is_at_bottom(outline, *n) {
            all.push(*n)?;
        }
    }
    Ok(all)
}

/// The root of a hierarchy.
fn root_of(outline: &Outline, dim: u32, hier: u32) -> u32
    requires there { IsSeat outline.now (Whole dim) }
    requires hier { hier < length (dim_at outline.now dim).hiers }
    ensures { result ≡ number_of outline.now (Inner dim hier 0) }
{
    outline.keeps_roots();
    outline.keeps_numbers();
    outline.number(Seat::Inner { dim, hier, at: 0 })
}

/// The roots of a dimension's hierarchies.
fn roots(alloc: Global, outline: &Outline, dim: u32) -> Result<Vec<u32>, NoMemory>
    requires { IsSeat outline.now (Whole dim) }
    ensures { IfOk result (λ v. v.items ≡ map (λ h. number_of outline.now (Inner dim h 0)) (places_of (dim_at outline.now dim).hiers)) }
{
    let mut all = Vec::new(alloc);
    for hier in 0..outline.hiers(dim) {
        all.push(root_of(outline, dim, hier))?;
    }
    Ok(all)
}

/// Some members, with the data leaves of shared ones in their place.
fn unshared_all(alloc: Global, outline: &Outline, members: &[u32]) -> Result<Vec<u32>, NoMemory>
    ensures { IfOk result (λ v. v.items ≡ map (unshared_at outline.now) members.now) }
{
    let mut all = Vec::new(alloc);
    for n in members {
        all.push(unshared(outline, *n))?;
    }
    Ok(all)
}

/// The children as they stand in the outline.
fn children_there(alloc: Global, outline: &Outline, n: u32) -> Result<Vec<u32>, NoMemory>
    requires { n < length (seats outline.now) }
    ensures { IfOk result (λ v. v.items ≡ children_of outline.now n (seat_of outline.now n)) }
{
    match outline.seat(n) {
        Seat::Whole { dim } => roots(alloc, outline, dim),
        Seat::Inner { .. } => outline.children(alloc, n),
        Seat::Carried { .. } => outline.children(alloc, n),
    }
}

fn children(alloc: Global, outline: &Outline, n: u32) -> Result<Vec<u32>, NoMemory>
    requires { n < length (seats outline.now) }
    ensures { IfOk result (λ v. v.items ≡ map (unshared_at outline.now) (children_of outline.now n (seat_of outline.now n))) }
{
    let all = children_there(alloc, outline, n)?;
    unshared_all(alloc, outline, all.as_slice())
}

fn descendants(alloc: Global, outline: &Outline, n: u32) -> Result<Vec<u32>, NoMemory>
    requires { n < length (seats outline.now) }
    ensures { IfOk result (λ v. v.items ≡ descendants_of outline.now n) }
{
    unshared_range(alloc, outline, n, end_below(outline, n))
}

fn leaves(alloc: Global, outline: &Outline, n: u32) -> Result<Vec<u32>, NoMemory>
    requires { n < length (seats outline.now) }
    ensures { IfOk result (λ v. v.items ≡ filter (is_bottom outline.now) (descendants_of outline.now n)) }
{
    let all = descendants(alloc, outline, n)?;
    at_bottom(alloc, outline, all.as_slice())
}

fn members(alloc: Global, outline: &Outline, n: u32) -> Result<Vec<u32>, NoMemory>
    requires { n < length (seats outline.now) }
    ensures { IfOk result (λ v. v.items ≡ filter (is_unshared_at outline.now) (below outline.now n (seat_of outline.now n))) }
{
    unshared_only(alloc, outline, n, end_below(outline, n))
}

fn itself(alloc: Global, n: u32) -> Result<Vec<u32>, NoMemory>
    ensures { IfOk result (λ v. v.items ≡ n ∷ []) }
{
    let mut all = Vec::new(alloc);
    all.push(n)?;
    Ok(all)
}

fn given_in(alloc: Global, outline: &Outline, part: Part, n: u32) -> Result<Vec<u32>, NoMemory>
    requires { n < length (seats outline.now) }
    ensures { IfOk result (λ v. v.items ≡ given_in_outline outline.now part n) }
{
    match part {
        Part::Itself => itself(alloc, n),
        Part::Children => children(alloc, outline, n),
        Part::Members => members(alloc, outline, n),
        Part::Descendants => descendants(alloc, outline, n),
        Part::Leaves => leaves(alloc, outline, n),
    }
}

fn given_own(alloc: Global, part: Part, n: u32) -> Result<Vec<u32>, NoMemory>
    ensures { IfOk result (λ v. v.items ≡ given_of_own part n) }
{
    match part {
        Part::Itself => itself(alloc, n),
        Part::Children => Ok(Vec::new(alloc)),
        Part::Members => Ok(Vec::new(alloc)),
        Part::Descendants => itself(alloc, n),
        Part::Leaves => itself(alloc, n),
    }
}

/// The members that a function gives of a member, in outline order.
pub fn given(alloc: Global, outline: &Outline, part: Part, n: u32) -> Result<Vec<u32>, NoMemory>
    ensures { IfOk result (λ v. v.items ≡ given_by outline.now part n) }
{
    if n < outline.members() {
        return given_in(alloc, outline, part, n);
    }
    given_own(alloc, part, n)
}

fn is_base(seat: Seat) -> bool
    ensures { result ≡ is_base_seat seat }
{
    match seat {
        Seat::Carried { .. } => false,
        _ => true,
    }
}

/// A set that is read for this purpose may have the member.
pub fn may_have(outline: &Outline, purpose: Purpose, n: u32) -> bool
    ensures { result ≡ may_have_member outline.now purpose n }
{
    match purpose {
        Purpose::Axis => true,
        Purpose::Region => n < outline.members()
            && is_base(outline.seat(n))
            && outline.is_stored(n),
    }
}
