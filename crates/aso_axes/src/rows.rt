// The tuples of a set.
ghost use Rattle.std.specs.Prelude.{◌≡◌, ◌++◌, ◌∷◌, [], true, length, map, IfOk, OnOk};
ghost use Rattle.std.specs.List.{flat_map};
ghost use Rattle.aso_axes.specs.Members.{IsNumbered};
ghost use Rattle.aso_axes.specs.Sets.{alone, crossed, given_rows, member_at as member_named_at, rows_of};

use crate::counts::count_rows;
use crate::given::given;
use crate::names::member_at;
use crate::part::Part;
use aso_mdx::SetText;
use aso_memory::NoMemory;
use aso_num::{List, Text};
use aso_outline::{ExtraMember, Outline};
use std::alloc::Global;

/// Adds a tuple of one member.
fn push_alone(alloc: Global, n: u32, rows: &mut Vec<List<u32>>) -> Result<(), NoMemory>
    ensures { OnOk result (rows.new.items ≡ rows.old.items ++ alone n ∷ []) }
{
    let mut row = Vec::new(alloc);
    row.push(n)?;
    rows.push(List::of(row))?;
    Ok(())
}

fn push_each(alloc: Global, members: &[u32], rows: &mut Vec<List<u32>>) -> Result<(), NoMemory>
    ensures { OnOk result (rows.new.items ≡ rows.old.items ++ map alone members.now) }
{
    for n in members {
        push_alone(alloc, *n, rows)?;
    }
    Ok(())
}

fn push_given(
    alloc: Global,
    outline: &Outline,
    own: &[ExtraMember],
    part: Part,
    path: &[Text],
    rows: &mut Vec<List<u32>>,
) -> Result<(), NoMemory>
    requires { IsNumbered outline.now own.now }
    ensures { OnOk result (rows.new.items ≡ rows.old.items ++ given_rows outline.now own.now part path.now) }
{
    let members = given(alloc, outline, part, member_at(outline, own, path))?;
    push_each(alloc, members.as_slice(), rows)
}

/// The members of a tuple.
pub fn members_at(
    alloc: Global,
    outline: &Outline,
    own: &[ExtraMember],
    paths: &[List<Text>],
) -> Result<List<u32>, NoMemory>
    requires { IsNumbered outline.now own.now }
    ensures { IfOk result (λ row. row ≡ map (member_named_at outline.now own.now) paths.now) }
{
    let mut row = Vec::new(alloc);
    for path in paths {
        row.push(member_at(outline, own, path.items()))?;
    }
    Ok(List::of(row))
}

fn push_tuple(
    alloc: Global,
    outline: &Outline,
    own: &[ExtraMember],
    paths: &[List<Text>],
    rows: &mut Vec<List<u32>>,
) -> Result<(), NoMemory>
    requires { IsNumbered outline.now own.now }
    ensures { OnOk result (rows.new.items ≡ rows.old.items ++ map (member_named_at outline.now own.now) paths.now ∷ []) }
{
    let row = members_at(alloc, outline, own, paths)?;
    rows.push(row)?;
    Ok(())
}

fn joined(alloc: Global, left: &[u32], right: &[u32]) -> Result<List<u32>, NoMemory>
    ensures { IfOk result (λ row. row ≡ left.now ++ right.now) }
{
    let mut row = Vec::new(alloc);
    row.extend_from_slice(left)?;
    row.extend_from_slice(right)?;
    Ok(List::of(row))
}

fn push_joined(
    alloc: Global,
    left: &[u32],
    right: &[List<u32>],
    rows: &mut Vec<List<u32>>,
) -> Result<(), NoMemory>
    ensures { OnOk result (rows.new.items ≡ rows.old.items ++ map (λ y. left.now ++ y) right.now) }
{
    for row in right {
        rows.push(joined(alloc, left, row.items())?)?;
    }
    Ok(())
}

/// Adds each tuple of the left set with each of the right one.
fn push_crossed(
    alloc: Global,
    left: &[List<u32>],
    right: &[List<u32>],
    rows: &mut Vec<List<u32>>,
) -> Result<(), NoMemory>
    ensures { OnOk result (rows.new.items ≡ rows.old.items ++ crossed left.now right.now) }
{
    for row in left {
        push_joined(alloc, row.items(), right, rows)?;
    }
    Ok(())
}

/// A crossing has no tuple.
#[tactic(auto, using(crate::proofs::CountLemmas::empty_left, crate::proofs::CountLemmas::empty_right))]
fn is_empty_crossing(
    alloc: Global,
    outline: &Outline,
    own: &[ExtraMember],
    left: &SetText,
    right: &SetText,
) -> Result<bool, NoMemory>
    requires { IsNumbered outline.now own.now }
    ensures { IfOk result (λ b. b ≡ true → crossed (rows_of outline.now own.now left.now) (rows_of outline.now own.now right.now) ≡ []) }
{
    let left = count_rows(alloc, outline, own, left)?;
    let right = count_rows(alloc, outline, own, right)?;
    Ok(left == 0 || right == 0)
}

#[cycle(rows)]
fn push_items(
    alloc: Global,
    outline: &Outline,
    own: &[ExtraMember],
    items: &[SetText],
    rows: &mut Vec<List<u32>>,
) -> Result<(), NoMemory>
    requires { IsNumbered outline.now own.now }
    ensures { OnOk result (rows.new.items ≡ rows.old.items ++ flat_map (rows_of outline.now own.now) items.now) }
{
    for item in items {
        push_rows(alloc, outline, own, item, rows)?;
    }
    Ok(())
}

/// Adds the tuples of a set, in order. A side of a crossing is only made where the other has a tuple, so none is longer than the
/// whole.
#[cycle(rows)]
#[tactic(auto, using(crate::proofs::SetSteps::rows_braced, crate::proofs::SetSteps::rows_member, crate::proofs::SetSteps::rows_tuple, crate::proofs::SetSteps::rows_children, crate::proofs::SetSteps::rows_members, crate::proofs::SetSteps::rows_descendants, crate::proofs::SetSteps::rows_leaves, crate::proofs::SetSteps::rows_crossjoin))]
pub fn push_rows(
    alloc: Global,
    outline: &Outline,
    own: &[ExtraMember],
    set: &SetText,
    rows: &mut Vec<List<u32>>,
) -> Result<(), NoMemory>
    requires { IsNumbered outline.now own.now }
    ensures { OnOk result (rows.new.items ≡ rows.old.items ++ rows_of outline.now own.now set.now) }
{
    match set {
        SetText::Braced(items) => push_items(alloc, outline, own, items.as_slice(), rows),
        SetText::Member(path) => push_given(alloc, outline, own, Part::Itself, path.items(), rows),
        SetText::Tuple(paths) => push_tuple(alloc, outline, own, paths.items(), rows),
        SetText::Children(path) => {
            push_given(alloc, outline, own, Part::Children, path.items(), rows)
        }
        SetText::Members(path) => {
            push_given(alloc, outline, own, Part::Members, path.items(), rows)
        }
        SetText::Descendants(path) => {
            push_given(alloc, outline, own, Part::Descendants, path.items(), rows)
        }
        SetText::Leaves(path) => push_given(alloc, outline, own, Part::Leaves, path.items(), rows),
        SetText::Crossjoin(left, right) => {
            if is_empty_crossing(alloc, outline, own, left.get(), right.get())? {
                return Ok(());
            }
            let mut lefts = Vec::new(alloc);
            push_rows(alloc, outline, own, left.get(), &mut lefts)?;
            let mut rights = Vec::new(alloc);
            push_rows(alloc, outline, own, right.get(), &mut rights)?;
            push_crossed(alloc, lefts.as_slice(), rights.as_slice(), rows)
        }
    }
}
