// The text of a grid.
ghost use Rattle.std.specs.Prelude.{◌≡◌, ◌++◌, length, IfOk, OnErr, OnOk};
ghost use Rattle.aso_grid.specs.Grids.{grid_lines, kept_columns as kept_columns_of, kept_rows as kept_rows_of};
ghost use Rattle.aso_grid.specs.Plans.{IsSized};

use crate::grid_plan::GridPlan;
use crate::kept::{kept_columns, kept_rows};
use crate::row_text::{put_head, put_rows};
use aso_memory::NoMemory;
use aso_num::Val;
use aso_outline::{Extra, ExtraMember, Outline};
use std::alloc::Global;

/// The lines of the rows and the columns at these places.
fn lines_of(
    alloc: Global,
    outline: &Outline,
    own: &[ExtraMember],
    plan: &GridPlan,
    values: &[Val],
    rows: &[usize],
    columns: &[usize],
) -> Result<Vec<u8>, NoMemory>
    requires sized { IsSized plan.now }
    requires rows { rows.now ≡ kept_rows_of plan.now values.now }
    requires columns { columns.now ≡ kept_columns_of plan.now values.now }
    ensures { IfOk result (λ text. text.items ≡ grid_lines outline.now own.now plan.now values.now) }
{
    let mut text = Vec::new(alloc);
    put_head(&mut text, outline, own, plan.columns.rows.items(), columns)?;
    put_rows(alloc, &mut text, outline, own, plan, values, rows, columns)?;
    Ok(text)
}

/// Appends the lines of a planned grid over the values of its cells, in the order of the cells: an empty field and the labels of
/// the columns, and for each row its label and its values, in fields with a tab between. It answers how many rows and columns are
/// printed. Where no memory is left, `text` stays as it was. It takes time in proportion to the cells and to the text.
pub fn grid(
    alloc: Global,
    outline: &Outline,
    extra: &Extra,
    plan: &GridPlan,
    values: &[Val],
    text: &mut Vec<u8>,
) -> Result<(u32, u32), NoMemory>
    requires sized { IsSized plan.now }
    requires each { length values.now ≡ length plan.now.cells }
    ensures lines { OnOk result (text.new.items ≡ text.old.items ++ grid_lines outline.now extra.now.members.items plan.now values.now) }
    ensures printed { IfOk result (λ size. size ≡ (length (kept_rows_of plan.now values.now), length (kept_columns_of plan.now values.now))) }
    ensures unchanged { OnErr result (text.new.items ≡ text.old.items) }
{
    let own = extra.members.as_slice();
    let rows = kept_rows(alloc, plan, values)?;
    let columns = kept_columns(alloc, plan, values)?;
    let lines = lines_of(alloc, outline, own, plan, values, &rows, &columns)?;
    text.extend_from_slice(&lines)?;
    Ok((rows.len() as u32, columns.len() as u32))
}
