// What the rank of each member needs.
ghost use Rattle.std.specs.Prelude.{◌≡◌, ◌<◌, ◌≤◌, ◌^◌, ◌++◌, ◌∷◌, [], ℕ, true, length, map, slice_get, IfOk, OnOk, if◌then◌else◌};
ghost use Rattle.std.specs.List.{cons_option, filter, filter_map};
ghost use Rattle.aso_outline.specs.Atoms.{atoms};
ghost use Rattle.aso_outline.specs.Graph.{AreRows, row_at, row_of};
ghost use Rattle.aso_outline.specs.Members.{is_computed, place_of, seats, tree_of};
ghost use Rattle.aso_outline.specs.Named.{Finds};
ghost use Rattle.aso_outline.specs.Numbers.{IsSeat};
ghost use Rattle.aso_outline.specs.Ranks.{at_number, children, is_child_place, is_label, is_of_dim, needs_at, number_in, operands_in, own_operands, standing_at};
ghost use Rattle.aso_outline.specs.Small.{HasTrees};

use crate::draft::{Draft, DraftMember, Expr};
use crate::find::seat_at;
use crate::look::member_at;
use crate::resolve::{is_computed, resolve};
use crate::row::{Row, Standing};
use crate::seat::Seat;
use crate::sharing::{dim_of, is_of_dim};
use crate::table::NameTable;
use crate::trees::{place_of, sound_tree};
use aso_num::{NoMemory, Text};
use aso_tree::{Node, is_under};
use std::alloc::Global;

/// The member is label only, as a dimension's own member above several hierarchies is.
fn is_label(draft: &Draft, seat: Seat) -> bool
    ensures { result ≡ is_label draft.now seat }
{
    if let Seat::Whole { .. } = seat {
        return true;
    }
    match member_at(draft, seat) {
        Some(member) => member.label_only,
        None => false,
    }
}

/// The number of the member at a place of a member's tree.
fn number_in(number: u32, seat: Seat, place: u32) -> usize
    ensures { result ≡ number_in number seat place }
{
    match seat {
        Seat::Whole { .. } => number as usize + 1 + place as usize,
        Seat::Inner { at, .. } => number.saturating_sub(at) as usize + place as usize,
        Seat::Carried { at, .. } => number.saturating_sub(at) as usize + place as usize,
    }
}

/// The member of the number is one of the dimension.
fn is_number_of_dim(_draft: &Draft, table: &[Seat], dim: u32, number: u32) -> bool
    requires is { table.now ≡ seats _draft.now }
    ensures { result ≡ at_number (is_of_dim dim) _draft.now number }
{
    match seat_at(table, number) {
        Some(seat) => is_of_dim(dim, seat),
        None => false,
    }
}

/// Adds the number of a name's member, where it is of the dimension.
fn push_operand(
    draft: &Draft,
    table: &[Seat],
    dim: u32,
    number: Option<u32>,
    needs: &mut Vec<usize>,
) -> Result<(), NoMemory>
    requires is { table.now ≡ seats draft.now }
    ensures { OnOk result (needs.new.items ≡ needs.old.items ++ filter (at_number (is_of_dim dim) draft.now) (cons_option number [])) }
{
    if let Some(number) = number {
        if is_number_of_dim(draft, table, dim, number) {
            needs.push(number as usize)?;
        }
    }
    Ok(())
}

/// Adds the members of the dimension that an atom names.
fn push_atom(
    draft: &Draft,
    table: &[Seat],
    names: &NameTable,
    dim: u32,
    wanted: &[Text],
    needs: &mut Vec<usize>,
) -> Result<(), NoMemory>
    requires is { table.now ≡ seats draft.now }
    requires finds { Finds draft.now names.now }
    ensures { OnOk result (needs.new.items ≡ needs.old.items ++ operands_in draft.now dim wanted.now) }
{
    for name in wanted {
        push_operand(draft, table, dim, names.find(name.as_str()), needs)?;
    }
    Ok(())
}

/// Adds the members of the dimension that a formula names.
#[tactic(auto, using(crate::proofs::Operands::operands_cell, crate::proofs::Operands::operands_neg, crate::proofs::Operands::operands_bin))]
pub fn push_operands(
    draft: &Draft,
    table: &[Seat],
    names: &NameTable,
    dim: u32,
    formula: &Expr,
    needs: &mut Vec<usize>,
) -> Result<(), NoMemory>
    requires is { table.now ≡ seats draft.now }
    requires finds { Finds draft.now names.now }
    ensures { OnOk result (needs.new.items ≡ needs.old.items ++ own_operands draft.now dim (atoms formula.now)) }
{
    match formula {
        Expr::Num(_) => Ok(()),
        Expr::Cell(wanted) => push_atom(draft, table, names, dim, wanted.items(), needs),
        Expr::Neg(operand) => push_operands(draft, table, names, dim, operand.get(), needs),
        Expr::Bin { left, right, .. } => {
            push_operands(draft, table, names, dim, left.get(), needs)?;
            push_operands(draft, table, names, dim, right.get(), needs)?;
            Ok(())
        }
    }
}

/// Adds the member at a place of the tree where it is a child.
fn push_child(
    draft: &Draft,
    number: u32,
    seat: Seat,
    at: u32,
    needs: &mut Vec<usize>,
) -> Result<(), NoMemory>
    requires trees { HasTrees draft.now }
    requires within { at < length (tree_of draft.now seat) }
    ensures { OnOk result (needs.new.items ≡ needs.old.items ++ map (number_in number seat) (filter (is_child_place draft.now seat) (at ∷ []))) }
{
    let parent = DraftMember::parent_at(sound_tree(draft, seat), at);
    if parent == place_of(seat) {
        needs.push(number_in(number, seat, at))?;
    }
    Ok(())
}

/// Adds the children: they stand among those that follow as far as these lie below the member.
pub fn push_children(
    draft: &Draft,
    number: u32,
    seat: Seat,
    needs: &mut Vec<usize>,
) -> Result<(), NoMemory>
    requires trees { HasTrees draft.now }
    requires placed { place_of seat < length (tree_of draft.now seat) }
    ensures { OnOk result (needs.new.items ≡ needs.old.items ++ children draft.now number seat) }
{
    let tree = sound_tree(draft, seat);
    let place = place_of(seat);
    for at in place + 1..tree.len() as u32 {
        if !is_under(tree, place, at) {
            return Ok(());
        }
        push_child(draft, number, seat, at, needs)?;
    }
    Ok(())
}

/// Adds what the rank of a computed member needs.
fn push_needs(
    draft: &Draft,
    table: &[Seat],
    names: &NameTable,
    number: u32,
    seat: Seat,
    needs: &mut Vec<usize>,
) -> Result<(), NoMemory>
    requires is { table.now ≡ seats draft.now }
    requires finds { Finds draft.now names.now }
    requires trees { HasTrees draft.now }
    requires placed { IsSeat draft.now seat }
    ensures { OnOk result (needs.new.items ≡ needs.old.items ++ needs_at draft.now number seat) }
{
    if is_label(draft, seat) {
        needs.push(number_in(number, seat, place_of(resolve(draft, seat))))?;
        return Ok(());
    }
    if let Some(member) = member_at(draft, seat) {
        if let Some(formula) = &member.formula {
            return push_operands(draft, table, names, dim_of(seat), formula, needs);
        }
    }
    push_children(draft, number, seat, needs)
}

fn standing_at(draft: &Draft, seat: Seat) -> Standing
    requires { HasTrees draft.now }
    ensures { result ≡ standing_at draft.now seat }
{
    if !is_computed(draft, seat) {
        return Standing::Stored;
    }
    if is_label(draft, seat) {
        Standing::Label
    } else {
        Standing::Computed
    }
}

/// What the rank of a member needs; a stored member needs none.
fn needs_of(
    alloc: Global,
    draft: &Draft,
    table: &[Seat],
    names: &NameTable,
    number: u32,
    seat: Seat,
) -> Result<Vec<usize>, NoMemory>
    requires is { table.now ≡ seats draft.now }
    requires finds { Finds draft.now names.now }
    requires trees { HasTrees draft.now }
    requires placed { IsSeat draft.now seat }
    ensures { IfOk result (λ v. v.items ≡ (if is_computed draft.now seat then needs_at draft.now number seat else [])) }
{
    let mut needs = Vec::new(alloc);
    if !is_computed(draft, seat) {
        return Ok(needs);
    }
    push_needs(draft, table, names, number, seat, &mut needs)?;
    Ok(needs)
}

/// A member with what its rank needs.
fn row(
    alloc: Global,
    draft: &Draft,
    table: &[Seat],
    names: &NameTable,
    number: u32,
) -> Result<Row, NoMemory>
    requires is { table.now ≡ seats draft.now }
    requires finds { Finds draft.now names.now }
    requires trees { HasTrees draft.now }
    requires within { number < length table.now }
    ensures { IfOk result (λ r. row_of r ≡ row_at draft.now number) }
{
    let seat = table[number as usize];
    let standing = standing_at(draft, seat);
    let needs = needs_of(alloc, draft, table, names, number, seat)?;
    Ok(Row { standing, needs })
}

/// What the rank of each member needs, in the order of the numbers.
pub fn rows(
    alloc: Global,
    draft: &Draft,
    table: &[Seat],
    names: &NameTable,
) -> Result<Vec<Row>, NoMemory>
    requires is { table.now ≡ seats draft.now }
    requires short { length table.now < 2 ^ 32 }
    requires finds { Finds draft.now names.now }
    requires trees { HasTrees draft.now }
    ensures { IfOk result (λ v. AreRows draft.now v.items) }
{
    let mut rows = Vec::new(alloc);
    for number in 0..table.len() as u32 {
        rows.push(row(alloc, draft, table, names, number)?)?;
    }
    Ok(rows)
}
