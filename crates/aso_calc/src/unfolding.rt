// The value of a tuple by unfolding. What was worked out once is known from then on.
ghost use Rattle.std.specs.Prelude.{◌≡◌, ◌<◌, ◌∷◌, ◌++◌, [], ◌≤◌, ℕ, Some, Ok, IfOk, IfErr, OnOk, length, map, set, slice_get};
ghost use Rattle.aso_num.specs.Numbers.{IsInRange};
ghost use Rattle.aso_outline.specs.declared.draft.Tuple.{Tuple as Coordinates};
ghost use Rattle.aso_outline.specs.Atoms.{atoms};
ghost use Rattle.aso_outline.specs.Extend.{AreOwn};
ghost use Rattle.aso_outline.specs.Marks.{op_of};
ghost use Rattle.aso_outline.specs.Members.{seats};
ghost use Rattle.aso_outline.specs.Numbers.{seat_of};
ghost use Rattle.aso_calc.specs.Belongs.{Unfolds};
ghost use Rattle.aso_calc.specs.Known.{IsAt, IsFault, IsFirstFault, Knows, by_atoms, by_children};
ghost use Rattle.aso_calc.specs.Stored.{given, given_at};
ghost use Rattle.aso_calc.specs.Values.{applied, ranks_of, replaced, unfolding_of, value, value_step, value_within};

use crate::arithmetic::{Outcome, applied};
use crate::choice::unfolded;
use crate::fault::CalcFault;
use crate::formula::{checked, evaluate};
use crate::key::step_key;
use crate::members::{children_at, formula_at, rank_at};
use crate::operands::{replaced, resolved, with_child};
use crate::stored::{StoredValues, stored_value};
use crate::table::Table;
use aso_memory::NoMemory;
use aso_num::{List, Val};
use aso_outline::{Expr, Extra, Op, Outline, Tuple, atoms_of};
use std::alloc::Global;

/// The values of the atoms of a formula, each with its members in place of the coordinates.
#[cycle(values)]
fn atom_values(
    alloc: Global,
    outline: &Outline,
    extra: &Extra,
    stored: &StoredValues,
    attrs: &[Option<u32>],
    known: &mut Table<Outcome>,
    ranks: u32,
    base: &[u32],
    formula: &Expr,
) -> Result<Vec<Outcome>, NoMemory>
    requires known { Knows outline.now extra.now.members.items (given_at stored.now) known.old }
    ensures known { OnOk result (Knows outline.now extra.now.members.items (given_at stored.now) known.new) }
    ensures values { IfOk result (λ v. v.items ≡ map (λ names. value_within ranks outline.now extra.now.members.items (given_at stored.now attrs.now) (replaced outline.now base.now names)) (atoms formula.now)) }
{
    let all = atoms_of(alloc, formula)?;
    let mut values = Vec::new(alloc);
    for names in all.as_slice() {
        let place = replaced(alloc, outline, base, names)?;
        let value = value_within(
            alloc,
            outline,
            extra,
            stored,
            attrs,
            known,
            ranks,
            place.as_slice(),
        )?;
        values.push(value)?;
    }
    Ok(values)
}

/// The value by a formula.
#[cycle(values)]
fn by_formula(
    alloc: Global,
    outline: &Outline,
    extra: &Extra,
    stored: &StoredValues,
    attrs: &[Option<u32>],
    known: &mut Table<Outcome>,
    ranks: u32,
    base: &[u32],
    formula: &Expr,
) -> Result<Outcome, NoMemory>
    requires known { Knows outline.now extra.now.members.items (given_at stored.now) known.old }
    ensures known { OnOk result (Knows outline.now extra.now.members.items (given_at stored.now) known.new) }
    ensures value { IfOk result (λ r. r ≡ by_atoms outline.now (value_within ranks outline.now extra.now.members.items (given_at stored.now attrs.now)) base.now formula.now) }
{
    let values = atom_values(
        alloc, outline, extra, stored, attrs, known, ranks, base, formula,
    )?;
    let (value, _) = evaluate(formula, values.as_slice());
    Ok(value)
}

/// The value so far, with that of a child by its operator.
#[cycle(values)]
fn with_value(
    alloc: Global,
    outline: &Outline,
    extra: &Extra,
    stored: &StoredValues,
    attrs: &[Option<u32>],
    known: &mut Table<Outcome>,
    ranks: u32,
    base: &[u32],
    at: usize,
    child: u32,
    total: Outcome,
) -> Result<Outcome, NoMemory>
    requires known { Knows outline.now extra.now.members.items (given_at stored.now) known.old }
    requires within { at < length base.now }
    requires child { child < length (seats outline.now) }
    requires range { IfOk total IsInRange }
    ensures known { OnOk result (Knows outline.now extra.now.members.items (given_at stored.now) known.new) }
    ensures value { IfOk result (λ r. r ≡ applied (op_of outline.now (seat_of outline.now child)) total (value_within ranks outline.now extra.now.members.items (given_at stored.now attrs.now) (set base.now at child))) }
    ensures range { IfOk result (λ r. IfOk r IsInRange) }
{
    let op = outline.op(child);
    if let Op::Skip = op {
        return Ok(total);
    }
    let place = with_child(alloc, base, at, child)?;
    let value = value_within(
        alloc,
        outline,
        extra,
        stored,
        attrs,
        known,
        ranks,
        place.as_slice(),
    )?;
    Ok(applied(op, total, checked(value)))
}

/// The value of a parent: from missing on, its children by their operators.
#[cycle(values)]
fn by_children(
    alloc: Global,
    outline: &Outline,
    extra: &Extra,
    stored: &StoredValues,
    attrs: &[Option<u32>],
    known: &mut Table<Outcome>,
    ranks: u32,
    base: &[u32],
    at: usize,
) -> Result<Outcome, NoMemory>
    requires known { Knows outline.now extra.now.members.items (given_at stored.now) known.old }
    requires within { at < length base.now }
    ensures known { OnOk result (Knows outline.now extra.now.members.items (given_at stored.now) known.new) }
    ensures value { IfOk result (λ r. r ≡ by_children outline.now (value_within ranks outline.now extra.now.members.items (given_at stored.now attrs.now)) base.now at) }
{
    let children = children_at(alloc, outline, base[at])?;
    let mut total = Ok(Val::Missing);
    for child in children.as_slice() {
        total = with_value(
            alloc, outline, extra, stored, attrs, known, ranks, base, at, *child, total,
        )?;
    }
    Ok(total)
}

/// The value where a computed member is unfolded.
#[cycle(values)]
fn unfold(
    alloc: Global,
    outline: &Outline,
    extra: &Extra,
    stored: &StoredValues,
    attrs: &[Option<u32>],
    known: &mut Table<Outcome>,
    ranks: u32,
    base: &[u32],
    at: usize,
) -> Result<Outcome, NoMemory>
    requires known { Knows outline.now extra.now.members.items (given_at stored.now) known.old }
    requires within { at < length base.now }
    ensures known { OnOk result (Knows outline.now extra.now.members.items (given_at stored.now) known.new) }
    ensures value { IfOk result (λ r. r ≡ unfolding_of outline.now extra.now.members.items (value_within ranks outline.now extra.now.members.items (given_at stored.now attrs.now)) base.now at) }
{
    match formula_at(outline, extra, base[at]) {
        Some(formula) => by_formula(
            alloc, outline, extra, stored, attrs, known, ranks, base, formula,
        ),
        None => by_children(alloc, outline, extra, stored, attrs, known, ranks, base, at),
    }
}

/// The value at resolved coordinates.
#[cycle(values)]
fn value_step(
    alloc: Global,
    outline: &Outline,
    extra: &Extra,
    stored: &StoredValues,
    attrs: &[Option<u32>],
    known: &mut Table<Outcome>,
    ranks: u32,
    base: &[u32],
) -> Result<Outcome, NoMemory>
    requires known { Knows outline.now extra.now.members.items (given_at stored.now) known.old }
    ensures known { OnOk result (Knows outline.now extra.now.members.items (given_at stored.now) known.new) }
    ensures value { IfOk result (λ r. r ≡ value_step outline.now extra.now.members.items (given_at stored.now attrs.now) (value_within ranks outline.now extra.now.members.items (given_at stored.now attrs.now)) base.now) }
{
    match unfolded(outline, extra, base) {
        Some(at) => unfold(alloc, outline, extra, stored, attrs, known, ranks, base, at),
        None => stored_value(alloc, stored, base, attrs),
    }
}

/// The value with the sum of ranks at most so many.
#[cycle(values)]
fn value_within(
    alloc: Global,
    outline: &Outline,
    extra: &Extra,
    stored: &StoredValues,
    attrs: &[Option<u32>],
    known: &mut Table<Outcome>,
    ranks: u32,
    base: &[u32],
) -> Result<Outcome, NoMemory>
    requires known { Knows outline.now extra.now.members.items (given_at stored.now) known.old }
    ensures known { OnOk result (Knows outline.now extra.now.members.items (given_at stored.now) known.new) }
    ensures value { IfOk result (λ r. r ≡ value_within ranks outline.now extra.now.members.items (given_at stored.now attrs.now) base.now) }
{
    let place = resolved(alloc, outline, base)?;
    if ranks == 0 {
        return stored_value(alloc, stored, place.as_slice(), attrs);
    }
    let key = step_key(alloc, ranks - 1, place.as_slice(), attrs)?;
    if let Some(value) = known.find(key.as_slice()) {
        return Ok(value);
    }
    let value = value_step(
        alloc,
        outline,
        extra,
        stored,
        attrs,
        known,
        ranks - 1,
        place.as_slice(),
    )?;
    known.add(key, value)?;
    Ok(value)
}

/// The sum of the ranks.
pub fn ranks_of(
    alloc: Global,
    outline: &Outline,
    extra: &Extra,
    base: &[u32],
) -> Result<u32, NoMemory>
    requires { length base.now ≤ 16 }
    ensures { IfOk result (λ r. r ≡ ranks_of outline.now extra.now.members.items base.now) }
{
    let mut ranks = 0;
    for member in base {
        let rank = rank_at(alloc, outline, extra, *member)?;
        ranks += rank;
    }
    Ok(ranks)
}

fn outcome(
    alloc: Global,
    outline: &Outline,
    extra: &Extra,
    tuple: &Tuple,
    stored: &StoredValues,
    known: &mut Table<Outcome>,
) -> Result<Outcome, NoMemory>
    requires known { Knows outline.now extra.now.members.items (given_at stored.now) known.old }
    requires long { length tuple.now.base ≡ length outline.now.dims }
    ensures known { OnOk result (Knows outline.now extra.now.members.items (given_at stored.now) known.new) }
    ensures value { IfOk result (λ r. r ≡ value outline.now extra.now.members.items (given stored.now) tuple.now) }
{
    outline.keeps_counts();
    let base = tuple.base.items();
    let ranks = ranks_of(alloc, outline, extra, base)?;
    value_within(
        alloc,
        outline,
        extra,
        stored,
        tuple.attrs.items(),
        known,
        ranks,
        base,
    )
}

/// A tuple of the same members.
fn copied(alloc: Global, tuple: &Tuple) -> Result<Tuple, NoMemory>
    ensures { IfOk result (λ t. t ≡ tuple.now) }
{
    let mut base = Vec::new(alloc);
    base.extend_from_slice(tuple.base.items())?;
    let mut attrs = Vec::new(alloc);
    attrs.extend_from_slice(tuple.attrs.items())?;
    Ok(Tuple {
        base: List::of(base),
        attrs: List::of(attrs),
    })
}

fn fault_at(alloc: Global, tuple: &Tuple) -> CalcFault
    ensures { IsAt tuple.now result }
{
    match copied(alloc, tuple) {
        Ok(tuple) => CalcFault::Range { tuple },
        Err(e) => CalcFault::NoMemory(e),
    }
}

/// The value, or the fault at the tuple where it is out of range.
fn value_or_fault(
    alloc: Global,
    outline: &Outline,
    extra: &Extra,
    tuple: &Tuple,
    stored: &StoredValues,
    known: &mut Table<Outcome>,
) -> Result<Val, CalcFault>
    requires known { Knows outline.now extra.now.members.items (given_at stored.now) known.old }
    requires long { length tuple.now.base ≡ length outline.now.dims }
    ensures known { OnOk result (Knows outline.now extra.now.members.items (given_at stored.now) known.new) }
    ensures found { IfOk result (λ v. value outline.now extra.now.members.items (given stored.now) tuple.now ≡ Ok v) }
    ensures range { IfErr result (IsFault tuple.now (value outline.now extra.now.members.items (given stored.now) tuple.now)) }
{
    match outcome(alloc, outline, extra, tuple, stored, known) {
        Ok(Ok(value)) => Ok(value),
        Ok(Err(_)) => Err(fault_at(alloc, tuple)),
        Err(e) => Err(CalcFault::NoMemory(e)),
    }
}

fn push_value(value: Val, all: &mut Vec<Val>) -> Result<(), NoMemory>
    ensures { OnOk result (all.new.items ≡ all.old.items ++ value ∷ []) }
{
    all.push(value)?;
    Ok(())
}

/// The value of a tuple, given the values of the stored tuples that it rests on. It is `Range`, with the tuple, where the value
/// is out of range. Each coordinate is resolved and each tuple of an unfolding is worked out once. The value of coordinates that
/// belong is the stored one where none is computed, else that of its unfolding by values of the same kind.
pub fn value(
    alloc: Global,
    outline: &Outline,
    extra: &Extra,
    tuple: &Tuple,
    stored: &StoredValues,
) -> Result<Val, CalcFault>
    requires { length tuple.now.base ≡ length outline.now.dims }
    ensures found { IfOk result (λ v. value outline.now extra.now.members.items (given stored.now) tuple.now ≡ Ok v) }
    ensures range { IfErr result (IsFault tuple.now (value outline.now extra.now.members.items (given stored.now) tuple.now)) }
    ensures unfolds { AreOwn outline.now extra.now.members.items → Unfolds outline.now extra.now.members.items (given_at stored.now) }
{
    outline.keeps();
    let mut known = Table::new(alloc);
    value_or_fault(alloc, outline, extra, tuple, stored, &mut known)
}

/// The values of some tuples, as of the cells of a grid, in their order. `Range` has the first tuple whose value is out of range.
/// What was worked out for one tuple is known to those behind it.
pub fn values(
    alloc: Global,
    outline: &Outline,
    extra: &Extra,
    tuples: &[Tuple],
    stored: &StoredValues,
) -> Result<Vec<Val>, CalcFault>
    requires { (k : ℕ) (t : Coordinates) → slice_get tuples.now k ≡ Some t → length t.base ≡ length outline.now.dims }
    ensures found { IfOk result (λ v. map (λ x. Ok x) v.items ≡ map (value outline.now extra.now.members.items (given stored.now)) tuples.now) }
    ensures range { IfErr result (IsFirstFault (value outline.now extra.now.members.items (given stored.now)) tuples.now) }
{
    let mut known = Table::new(alloc);
    let mut all = Vec::new(alloc);
    for tuple in tuples {
        match value_or_fault(alloc, outline, extra, tuple, stored, &mut known) {
            Ok(value) => push_value(value, &mut all)?,
            Err(fault) => return Err(fault),
        }
    }
    Ok(all)
}
