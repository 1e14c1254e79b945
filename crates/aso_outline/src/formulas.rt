// O11: the atoms of formulas, and ranks.
ghost use Rattle.std.specs.Prelude.{◌≡◌, ◌==◌, ◌&&◌, ◌||◌, ◌<◌, ◌≤◌, ◌^◌, not, length, map, nat_le, slice_get, unwrap_or, IfOk};
ghost use Rattle.std.specs.Option.{option_map};
ghost use Rattle.std.specs.List.{list_all};
ghost use Rattle.aso_outline.specs.Atoms.{atoms};
ghost use Rattle.aso_outline.specs.Graph.{AreRanks, AreRows};
ghost use Rattle.aso_outline.specs.Members.{seats};
ghost use Rattle.aso_outline.specs.Named.{Finds, IsRanked};
ghost use Rattle.aso_outline.specs.Parts.{AreInOrder};
ghost use Rattle.aso_outline.specs.Ranks.{at_number, rank};
ghost use Rattle.aso_outline.specs.Rules.{are_of_different_dims, breaks_formulas, breaks_rank, count_in, has_wrong_atom, is_atom, is_base, is_operand, is_well_named, least_formula};
ghost use Rattle.aso_outline.specs.Small.{HasTrees};

use crate::circles::needs_itself;
use crate::draft::{Draft, Expr};
use crate::find::find_all;
use crate::look::member_at;
use crate::needs::rows;
use crate::parts::parts;
use crate::ranks::ranks;
use crate::resolve::is_computed;
use crate::row::Row;
use crate::seat::Seat;
use crate::sharing::{dim_of, is_of_dim};
use crate::table::{NameTable, Ranked};
use aso_num::{NoMemory, Text};
use std::alloc::Global;

/// How many of the members are of the dimension.
fn count_in(dim: u32, found: &[Seat]) -> usize
    ensures value { result ≡ count_in dim found.now }
    ensures bound { result ≤ length found.now }
{
    let mut count = 0;
    for seat in found {
        if is_of_dim(dim, *seat) {
            count += 1;
        }
    }
    count
}

/// At most one member for each dimension.
fn are_of_different_dims(draft: &Draft, found: &[Seat]) -> bool
    requires { length draft.now.dims < 2 ^ 32 }
    ensures { result ≡ are_of_different_dims draft.now found.now }
{
    for dim in 0..draft.dims.items().len() as u32 {
        if count_in(dim, found) > 1 {
            return false;
        }
    }
    true
}

fn is_base(seat: Seat) -> bool
    ensures { result ≡ is_base seat }
{
    match seat {
        Seat::Carried { .. } => false,
        _ => true,
    }
}

/// A member of the formula's own dimension, or a stored one of another.
fn is_operand(draft: &Draft, dim: u32, seat: Seat) -> bool
    requires { HasTrees draft.now }
    ensures { result ≡ is_operand draft.now dim seat }
{
    is_base(seat) && (is_of_dim(dim, seat) || !is_computed(draft, seat))
}

fn are_operands(draft: &Draft, dim: u32, found: &[Seat]) -> bool
    requires { HasTrees draft.now }
    ensures { result ≡ list_all (is_operand draft.now dim) found.now }
{
    found.iter().all(|seat| is_operand(draft, dim, *seat))
}

fn is_well_named(draft: &Draft, dim: u32, found: &[Seat]) -> bool
    requires trees { HasTrees draft.now }
    requires few { length draft.now.dims < 2 ^ 32 }
    ensures { result ≡ is_well_named draft.now dim found.now }
{
    count_in(dim, found) == 1
        && (are_of_different_dims(draft, found) && are_operands(draft, dim, found))
}

/// The names are those of an atom of a formula in the dimension.
#[tactic(auto, unfolding(crate::specs::Rules::is_atom))]
pub fn is_atom(
    draft: &Draft,
    table: &[Seat],
    names: &NameTable,
    dim: u32,
    wanted: &[Text],
    found: &mut Vec<Seat>,
) -> Result<bool, NoMemory>
    requires is { table.now ≡ seats draft.now }
    requires finds { Finds draft.now names.now }
    requires trees { HasTrees draft.now }
    requires few { length draft.now.dims < 2 ^ 32 }
    ensures { IfOk result (λ b. b ≡ is_atom draft.now dim wanted.now) }
{
    let all = find_all(draft, table, names, wanted, found)?;
    Ok(all && is_well_named(draft, dim, found.as_slice()))
}

fn both(a: bool, b: bool) -> bool
    ensures { result ≡ (a && b) }
{
    a && b
}

/// Each atom of the formula is one in the dimension.
#[tactic(auto, using(crate::proofs::AtomSteps::all_cell, crate::proofs::AtomSteps::all_neg, crate::proofs::AtomSteps::all_bin))]
fn are_atoms(
    draft: &Draft,
    table: &[Seat],
    names: &NameTable,
    dim: u32,
    formula: &Expr,
    found: &mut Vec<Seat>,
) -> Result<bool, NoMemory>
    requires is { table.now ≡ seats draft.now }
    requires finds { Finds draft.now names.now }
    requires trees { HasTrees draft.now }
    requires few { length draft.now.dims < 2 ^ 32 }
    ensures { IfOk result (λ b. b ≡ list_all (is_atom draft.now dim) (atoms formula.now)) }
{
    match formula {
        Expr::Num(_) => Ok(true),
        Expr::Cell(wanted) => is_atom(draft, table, names, dim, wanted.items(), found),
        Expr::Neg(operand) => are_atoms(draft, table, names, dim, operand.get(), found),
        Expr::Bin { left, right, .. } => {
            let first = are_atoms(draft, table, names, dim, left.get(), found)?;
            let second = are_atoms(draft, table, names, dim, right.get(), found)?;
            Ok(both(first, second))
        }
    }
}

/// The member's formula has an atom that it may not have.
fn has_wrong_atom(
    draft: &Draft,
    table: &[Seat],
    names: &NameTable,
    seat: Seat,
    found: &mut Vec<Seat>,
) -> Result<bool, NoMemory>
    requires is { table.now ≡ seats draft.now }
    requires finds { Finds draft.now names.now }
    requires trees { HasTrees draft.now }
    requires few { length draft.now.dims < 2 ^ 32 }
    ensures { IfOk result (λ b. b ≡ has_wrong_atom draft.now seat) }
{
    if let Some(member) = member_at(draft, seat) {
        if let Some(formula) = &member.formula {
            let are_right = are_atoms(draft, table, names, dim_of(seat), formula, found)?;
            return Ok(!are_right);
        }
    }
    Ok(false)
}

/// The rank is past 64, or there is none since it needs itself.
fn breaks_rank(
    alloc: Global,
    draft: &Draft,
    rows: &[Row],
    parts: &[usize],
    own: Option<u32>,
    number: u32,
) -> Result<bool, NoMemory>
    requires rows { AreRows draft.now rows.now }
    requires short { length rows.now < 2 ^ 32 }
    requires order { AreInOrder draft.now parts.now }
    requires rank { own ≡ rank draft.now number }
    ensures { IfOk result (λ b. b ≡ breaks_rank draft.now number) }
{
    match own {
        Some(rank) => Ok(rank > 64),
        None => needs_itself(alloc, draft, rows, parts, number),
    }
}

/// O11: a wrong atom, or a wrong rank.
fn breaks_formulas(
    alloc: Global,
    draft: &Draft,
    table: &[Seat],
    names: &NameTable,
    rows: &[Row],
    parts: &[usize],
    own: Option<u32>,
    number: u32,
    found: &mut Vec<Seat>,
) -> Result<bool, NoMemory>
    requires is { table.now ≡ seats draft.now }
    requires finds { Finds draft.now names.now }
    requires trees { HasTrees draft.now }
    requires few { length draft.now.dims < 2 ^ 32 }
    requires rows { AreRows draft.now rows.now }
    requires short { length rows.now < 2 ^ 32 }
    requires order { AreInOrder draft.now parts.now }
    requires rank { own ≡ rank draft.now number }
    requires within { number < length table.now }
    ensures { IfOk result (λ b. b ≡ breaks_formulas draft.now number) }
{
    let is_wrong = has_wrong_atom(draft, table, names, table[number as usize], found)?;
    if is_wrong {
        return Ok(true);
    }
    breaks_rank(alloc, draft, rows, parts, own, number)
}

/// The first member with a wrong atom or a wrong rank, given all ranks.
fn first_wrong(
    alloc: Global,
    draft: &Draft,
    table: &[Seat],
    names: &NameTable,
    rows: &[Row],
    ranks: &[Option<u32>],
) -> Result<Option<u32>, NoMemory>
    requires is { table.now ≡ seats draft.now }
    requires finds { Finds draft.now names.now }
    requires trees { HasTrees draft.now }
    requires few { length draft.now.dims < 2 ^ 32 }
    requires rows { AreRows draft.now rows.now }
    requires short { length rows.now < 2 ^ 32 }
    requires ranks { AreRanks draft.now ranks.now }
    ensures { IfOk result (λ r. r ≡ least_formula draft.now) }
{
    let parts = parts(alloc, draft, rows, ranks)?;
    let mut found = Vec::new(alloc);
    for number in 0..rows.len() as u32 {
        let own = ranks[number as usize];
        let breaks = breaks_formulas(
            alloc,
            draft,
            table,
            names,
            rows,
            parts.as_slice(),
            own,
            number,
            &mut found,
        )?;
        if breaks {
            return Ok(Some(number));
        }
    }
    Ok(None)
}

/// O11: the first member with a wrong atom, a rank past 64, or a rank that needs itself; else all ranks.
pub fn rank_members(
    alloc: Global,
    draft: &Draft,
    table: &[Seat],
    names: &NameTable,
) -> Result<Ranked, NoMemory>
    requires is { table.now ≡ seats draft.now }
    requires short { length table.now < 2 ^ 32 }
    requires finds { Finds draft.now names.now }
    requires trees { HasTrees draft.now }
    requires few { length draft.now.dims < 2 ^ 32 }
    ensures { IfOk result (IsRanked draft.now) }
{
    let rows = rows(alloc, draft, table, names)?;
    let ranks = ranks(alloc, draft, rows.as_slice())?;
    match first_wrong(
        alloc,
        draft,
        table,
        names,
        rows.as_slice(),
        ranks.as_slice(),
    )? {
        Some(number) => Ok(Ranked::Wrong(number)),
        None => Ok(Ranked::Right(ranks)),
    }
}
