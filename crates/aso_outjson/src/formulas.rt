// The formulas of a written outline are read in the order of its members.
ghost use Rattle.std.specs.Prelude.{◌≡◌, ◌++◌, ◌∷◌, [], length, flat_map, IfOk, IfErr, OnOk};
ghost use Rattle.std.specs.List.{AllZip};
ghost use Rattle.aso_outjson.specs.Formulas.{IsAttr, IsDim, IsDraft, IsFault, IsFormula, IsFurther, IsHier, IsMember, all_formulas, attr_formulas, dim_formulas, formula_of, hier_formulas, is_dynamic, whole};

use crate::fault::JsonFault;
use crate::members::capped;
use crate::parts::Parts;
use crate::written::{
    Kind, Written, WrittenAttr, WrittenDim, WrittenHier, WrittenMember, WrittenTree,
};
use aso_formula::FormulaFault;
use aso_memory::NoMemory;
use aso_num::{List, Text};
use aso_outline::{Draft, DraftAttr, DraftDim, DraftHier, DraftMember, Expr};
use std::alloc::Global;

// Adds to a list, for whose memory a refusal stands.
fn push<T: Drop>(made: &mut Vec<T>, part: T) -> Result<(), NoMemory>
    ensures { OnOk result (made.new.items ≡ made.old.items ++ part ∷ []) }
{
    made.push(part)?;
    Ok(())
}

// The formula that a text spells, for the member of a number.
fn formula(alloc: Global, number: u32, text: Option<Text>) -> Result<Option<Expr>, JsonFault>
    ensures found { IfOk result (IsFormula text) }
    ensures refused { IfErr result (IsFault (text ∷ []) number) }
{
    let Some(text) = text else {
        return Ok(None);
    };
    match aso_formula::parse(alloc, text.as_str()) {
        Ok(formula) => Ok(Some(formula)),
        Err(FormulaFault::Syntax { at }) => Err(JsonFault::Formula {
            member: number,
            at: capped(at),
        }),
        Err(FormulaFault::NoMemory(e)) => Err(JsonFault::NoMemory(e)),
        // It looks no member up.
        Err(FormulaFault::Unknown { .. }) => unreachable!(),
        Err(FormulaFault::Foreign { .. }) => unreachable!(),
    }
}

// The next number; past 32 bits it stays the greatest.
fn advance(number: &mut u32)
    ensures { IsFurther number.old 1 number.new }
{
    *number = number.saturating_add(1);
}

fn member(alloc: Global, number: &mut u32, written: WrittenMember) -> Result<DraftMember, JsonFault>
    ensures found { IfOk result (IsMember written) }
    ensures counted { OnOk result (IsFurther number.old 1 number.new) }
    ensures refused { IfErr result (IsFault (formula_of written) number.old) }
{
    let formula = formula(alloc, *number, written.formula)?;
    advance(number);
    Ok(DraftMember {
        name: written.name,
        parent: written.parent,
        shared: written.shared,
        label_only: written.label_only,
        op: written.op,
        solve: written.solve,
        formula,
        carries: List::of(written.carries.into_vec()),
    })
}

// The members of a tree, in their order.
fn members(
    alloc: Global,
    number: &mut u32,
    written: WrittenTree,
) -> Result<List<DraftMember>, JsonFault>
    ensures found { IfOk result (AllZip IsMember written.members) }
    ensures counted { OnOk result (IsFurther number.old (length (flat_map formula_of written.members)) number.new) }
    ensures refused { IfErr result (IsFault (flat_map formula_of written.members) number.old) }
{
    let mut made = Vec::new(alloc);
    for part in written.members.into_vec() {
        let member = member(alloc, number, part)?;
        push(&mut made, member)?;
    }
    Ok(List::of(made))
}

fn is_dynamic(kind: Kind) -> bool
    ensures { result ≡ is_dynamic kind }
{
    match kind {
        Kind::Stored => false,
        Kind::Dynamic => true,
    }
}

fn hier(alloc: Global, number: &mut u32, written: WrittenHier) -> Result<DraftHier, JsonFault>
    ensures found { IfOk result (IsHier written) }
    ensures counted { OnOk result (IsFurther number.old (length (hier_formulas written)) number.new) }
    ensures refused { IfErr result (IsFault (hier_formulas written) number.old) }
{
    let dynamic = is_dynamic(written.kind);
    let members = members(alloc, number, written.root)?;
    Ok(DraftHier { dynamic, members })
}

fn hiers(
    alloc: Global,
    number: &mut u32,
    written: Parts<WrittenHier>,
) -> Result<List<DraftHier>, JsonFault>
    ensures found { IfOk result (AllZip IsHier written) }
    ensures counted { OnOk result (IsFurther number.old (length (flat_map hier_formulas written)) number.new) }
    ensures refused { IfErr result (IsFault (flat_map hier_formulas written) number.old) }
{
    let mut made = Vec::new(alloc);
    for part in written.into_vec() {
        let hier = hier(alloc, number, part)?;
        push(&mut made, hier)?;
    }
    Ok(List::of(made))
}

// A dimension with several hierarchies has a number of its own.
fn advance_whole(number: &mut u32, hiers: &Parts<WrittenHier>)
    ensures { IsFurther number.old (length (whole hiers.now)) number.new }
{
    if 1 < hiers.len() {
        advance(number);
    }
}

fn dim(alloc: Global, number: &mut u32, written: WrittenDim) -> Result<DraftDim, JsonFault>
    ensures found { IfOk result (IsDim written) }
    ensures counted { OnOk result (IsFurther number.old (length (dim_formulas written)) number.new) }
    ensures refused { IfErr result (IsFault (dim_formulas written) number.old) }
{
    advance_whole(number, &written.hiers);
    let hiers = hiers(alloc, number, written.hiers)?;
    Ok(DraftDim {
        name: written.name,
        aggregate: written.aggregate,
        hiers,
    })
}

fn dims(
    alloc: Global,
    number: &mut u32,
    written: Parts<WrittenDim>,
) -> Result<List<DraftDim>, JsonFault>
    ensures found { IfOk result (AllZip IsDim written) }
    ensures counted { OnOk result (IsFurther number.old (length (flat_map dim_formulas written)) number.new) }
    ensures refused { IfErr result (IsFault (flat_map dim_formulas written) number.old) }
{
    let mut made = Vec::new(alloc);
    for part in written.into_vec() {
        let dim = dim(alloc, number, part)?;
        push(&mut made, dim)?;
    }
    Ok(List::of(made))
}

fn attr(alloc: Global, number: &mut u32, written: WrittenAttr) -> Result<DraftAttr, JsonFault>
    ensures found { IfOk result (IsAttr written) }
    ensures counted { OnOk result (IsFurther number.old (length (attr_formulas written)) number.new) }
    ensures refused { IfErr result (IsFault (attr_formulas written) number.old) }
{
    let members = members(alloc, number, written.root)?;
    Ok(DraftAttr {
        name: written.name,
        base: written.base,
        members,
    })
}

fn attrs(
    alloc: Global,
    number: &mut u32,
    written: Parts<WrittenAttr>,
) -> Result<List<DraftAttr>, JsonFault>
    ensures found { IfOk result (AllZip IsAttr written) }
    ensures counted { OnOk result (IsFurther number.old (length (flat_map attr_formulas written)) number.new) }
    ensures refused { IfErr result (IsFault (flat_map attr_formulas written) number.old) }
{
    let mut made = Vec::new(alloc);
    for part in written.into_vec() {
        let attr = attr(alloc, number, part)?;
        push(&mut made, attr)?;
    }
    Ok(List::of(made))
}

/// The draft that a written outline makes, once its formulas are read.
pub fn draft(alloc: Global, written: Written) -> Result<Draft, JsonFault>
    ensures found { IfOk result (IsDraft written) }
    ensures refused { IfErr result (IsFault (all_formulas written) 0) }
{
    let mut number = 0;
    let dims = dims(alloc, &mut number, written.dims)?;
    let attrs = attrs(alloc, &mut number, written.attrs)?;
    Ok(Draft {
        app: written.app,
        db: written.db,
        dims,
        attrs,
    })
}
