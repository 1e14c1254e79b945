// The grid of a sheet.
ghost use Rattle.std.specs.Prelude.{◌≡◌, [], None, true, map, IfOk, IfErr, OnOk};
ghost use Rattle.aso_sheettext.specs.Faults.{TextSaysSheet};
ghost use Rattle.aso_sheettext.specs.Texts.{cell as the_cell, sheet as the_sheet};
ghost use Rattle.aso_grid.specs.Plans.{IsTaken};
ghost use Rattle.aso_sums.specs.Stored.{stored_value};
ghost use Rattle.aso_query.specs.Answers.{IsAsked, IsAskedRefusal, IsReady};
ghost use Rattle.aso_query.specs.declared.refusal.QueryRefusal.TheVariants.{Dimension, UnknownMember};
ghost use Rattle.aso_cellnames.specs.Leaves.{are_leaves, leaf_counts};
ghost use Rattle.aso_cellnames.specs.Names.{cell_names as names_of_cell, texts};
ghost use Rattle.aso_eval.specs.declared.refusal.SheetRefusal.TheVariants.{Amount, Names};
ghost use Rattle.aso_eval.specs.Faults.{HasRefusal};
ghost use Rattle.aso_eval.specs.Sheets.{AreCells, IsFitRefusal, IsRefusal, IsReply, IsReplyOf, axes_query as axes_query_of, cells_of as cells_said, past as past_cell, unknown_in_cells as unknown_name, wrong_in_cells as wrong_name};

use crate::axes::axes_query;
use crate::cells::{cells_of, past, stored_values, unknown_in_cells, wrong_in_cells};
use crate::refusal::{EvalFault, SheetRefusal};
use crate::reply::reply;
use aso_axes::copied;
use aso_cellnames::cell_names;
use aso_mdx::Query;
use aso_memory::NoMemory;
use aso_num::{List, Text, Val};
use aso_outline::{Outline, OutlineFault, Tuple};
use aso_outtext::{TextFault, draft_of};
use aso_query::{AskFault, Asked, QueryRefusal, answer, ask};
use aso_sheettext::{SheetFault, SheetText, read_sheet};
use std::alloc::Global;

fn unknown(alloc: Global, name: &str) -> EvalFault
    ensures { HasRefusal (λ r. r ≡ Names (UnknownMember name.now)) result }
{
    match copied(alloc, name) {
        Ok(name) => EvalFault::Refused(SheetRefusal::Names(QueryRefusal::UnknownMember { name })),
        Err(e) => EvalFault::NoMemory(e),
    }
}

fn wrong(alloc: Global, name: &str) -> EvalFault
    ensures { HasRefusal (λ r. r ≡ Names (Dimension name.now)) result }
{
    match copied(alloc, name) {
        Ok(name) => EvalFault::Refused(SheetRefusal::Names(QueryRefusal::Dimension { name })),
        Err(e) => EvalFault::NoMemory(e),
    }
}

// The refusal of a sheet whose axes are refused. A name that is wrong in a cell comes before one that is wrong in an axis.
fn axes_refused(
    alloc: Global,
    outline: &Outline,
    sheet: &SheetText,
    refusal: QueryRefusal,
) -> EvalFault
    requires known { unknown_name outline.now (map the_cell sheet.now.cells.items) ≡ None }
    requires refused { IsAskedRefusal outline.now (axes_query_of (the_sheet sheet.now)) refusal }
    ensures { HasRefusal (IsFitRefusal outline.now (the_sheet sheet.now)) result }
{
    if let QueryRefusal::UnknownMember { name } = refusal {
        return EvalFault::Refused(SheetRefusal::Names(QueryRefusal::UnknownMember { name }));
    }
    match wrong_in_cells(alloc, outline, &sheet.cells) {
        Ok(Some(name)) => wrong(alloc, name),
        Ok(None) => EvalFault::Refused(SheetRefusal::Names(refusal)),
        Err(e) => EvalFault::NoMemory(e),
    }
}

// What the query of the axes asks, where no name of a cell is unknown.
fn taken(
    alloc: Global,
    outline: &Outline,
    sheet: &SheetText,
    query: &Query,
) -> Result<Asked, EvalFault>
    requires known { unknown_name outline.now (map the_cell sheet.now.cells.items) ≡ None }
    requires query { query.now ≡ axes_query_of (the_sheet sheet.now) }
    ensures asked { IfOk result (IsAsked outline.now (axes_query_of (the_sheet sheet.now))) }
    ensures ready { IfOk result (IsReady outline.now) }
    ensures cells { OnOk result (wrong_name outline.now (map the_cell sheet.now.cells.items) ≡ None) }
    ensures refused { IfErr result (HasRefusal (IsFitRefusal outline.now (the_sheet sheet.now))) }
{
    match ask(alloc, outline, query) {
        Ok(asked) => match wrong_in_cells(alloc, outline, &sheet.cells)? {
            Some(name) => Err(wrong(alloc, name)),
            None => Ok(asked),
        },
        Err(AskFault::Refused(refusal)) => Err(axes_refused(alloc, outline, sheet, refusal)),
        Err(AskFault::NoMemory(e)) => Err(EvalFault::NoMemory(e)),
    }
}

// What the axes ask, where all names are in order.
fn asked_of(alloc: Global, outline: &Outline, sheet: &SheetText) -> Result<Asked, EvalFault>
    ensures asked { IfOk result (IsAsked outline.now (axes_query_of (the_sheet sheet.now))) }
    ensures ready { IfOk result (IsReady outline.now) }
    ensures known { OnOk result (unknown_name outline.now (map the_cell sheet.now.cells.items) ≡ None) }
    ensures cells { OnOk result (wrong_name outline.now (map the_cell sheet.now.cells.items) ≡ None) }
    ensures refused { IfErr result (HasRefusal (IsFitRefusal outline.now (the_sheet sheet.now))) }
{
    if let Some(name) = unknown_in_cells(outline, &sheet.cells) {
        return Err(unknown(alloc, name));
    }
    let query = axes_query(alloc, sheet)?;
    taken(alloc, outline, sheet, &query)
}

fn copied_all(alloc: Global, names: &[&str]) -> Result<Vec<Text>, NoMemory>
    ensures { IfOk result (λ v. v.items ≡ texts names.now) }
{
    let mut all = Vec::new(alloc);
    for name in names {
        all.push(copied(alloc, name)?)?;
    }
    Ok(all)
}

// The names of a cell's leaves.
fn leaf_names(alloc: Global, outline: &Outline, leaves: &[u32]) -> Result<Vec<Text>, NoMemory>
    requires { are_leaves (leaf_counts outline.now) leaves.now ≡ true }
    ensures { IfOk result (λ names. names.items ≡ names_of_cell outline.now leaves.now) }
{
    let names = cell_names(alloc, outline, leaves)?;
    copied_all(alloc, &names)
}

fn past_amount(alloc: Global, outline: &Outline, cell: &(Vec<u32>, i128)) -> EvalFault
    requires { are_leaves (leaf_counts outline.now) cell.now.0.items ≡ true }
    ensures { HasRefusal (λ r. r ≡ Amount (names_of_cell outline.now cell.now.0.items) cell.now.1) result }
{
    match leaf_names(alloc, outline, &cell.0) {
        Ok(names) => EvalFault::Refused(SheetRefusal::Amount {
            names: List::of(names),
            sum: cell.1,
        }),
        Err(e) => EvalFault::NoMemory(e),
    }
}

// The stored values of tuples, where no amount is out of range.
fn values_of(
    alloc: Global,
    outline: &Outline,
    sheet: &SheetText,
    tuples: &[Tuple],
) -> Result<Vec<Val>, EvalFault>
    requires cells { AreCells outline.now (the_sheet sheet.now) }
    requires axes { IsTaken outline.now [] (axes_query_of (the_sheet sheet.now)) }
    ensures values { IfOk result (λ v. v.items ≡ map (stored_value outline.now (cells_said outline.now (map the_cell sheet.now.cells.items))) tuples.now) }
    ensures range { OnOk result (past_cell (cells_said outline.now (map the_cell sheet.now.cells.items)) ≡ None) }
    ensures refused { IfErr result (HasRefusal (IsFitRefusal outline.now (the_sheet sheet.now))) }
{
    let cells = cells_of(alloc, outline, &sheet.cells)?;
    if let Some(cell) = past(&cells) {
        return Err(past_amount(alloc, outline, cell));
    }
    Ok(stored_values(alloc, outline, &cells, tuples)?)
}

// The grid of a sheet over its outline.
fn grid_of(alloc: Global, outline: &Outline, sheet: &SheetText) -> Result<Vec<u8>, EvalFault>
    ensures found { IfOk result (λ out. IsReplyOf outline.now (the_sheet sheet.now) out.items) }
    ensures refused { IfErr result (HasRefusal (IsFitRefusal outline.now (the_sheet sheet.now))) }
{
    let asked = asked_of(alloc, outline, sheet)?;
    let values = values_of(alloc, outline, sheet, &asked.needs)?;
    match answer(alloc, outline, asked, values) {
        Ok(grid) => Ok(reply(alloc, grid.rows, grid.columns, &grid.text)?),
        Err(AskFault::Refused(refusal)) => Err(EvalFault::Refused(SheetRefusal::Names(refusal))),
        Err(AskFault::NoMemory(e)) => Err(EvalFault::NoMemory(e)),
    }
}

fn said(alloc: Global, text: &[u8]) -> Result<SheetText<'_>, EvalFault>
    ensures found { IfOk result (λ s. TextSaysSheet text.now (the_sheet s)) }
    ensures refused { IfErr result (HasRefusal (IsRefusal text.now)) }
{
    match read_sheet(alloc, text) {
        Ok(sheet) => Ok(sheet),
        Err(SheetFault::Line { at }) => Err(EvalFault::Refused(SheetRefusal::Text(TextFault::Line {
            at,
        }))),
        Err(SheetFault::NoMemory(e)) => Err(EvalFault::NoMemory(e)),
    }
}

/// The reply to a sheet: its grid as the reply to statement 1 at commit 0, and the line behind it. Else the first of these: the text is no
/// sheet; a rule of outlines; an unknown name, of a cell and then of an axis; a name that is wrong in its cell, or in its axis; more than
/// 100,000 columns, rows or values; a cell whose amounts sum past the range of amounts, the least one.
pub fn eval(alloc: Global, text: &[u8]) -> Result<Vec<u8>, EvalFault>
    ensures found { IfOk result (λ out. IsReply text.now out.items) }
    ensures refused { IfErr result (HasRefusal (IsRefusal text.now)) }
{
    let sheet = said(alloc, text)?;
    let draft = draft_of(alloc, &sheet.outline)?;
    match Outline::verify(alloc, draft) {
        Ok(outline) => grid_of(alloc, &outline, &sheet),
        Err(OutlineFault::Refused { rule, member }) => {
            Err(EvalFault::Refused(SheetRefusal::Text(TextFault::Refused { rule, member })))
        }
        Err(OutlineFault::NoMemory(e)) => Err(EvalFault::NoMemory(e)),
    }
}
