// The lines of a grid.
ghost use Rattle.std.specs.Prelude.{◌≡◌, ◌<◌, ◌++◌, ◌∷◌, [], length, map, OnOk};
ghost use Rattle.std.specs.List.{All, flat_map};
ghost use Rattle.std.specs.String.{string_bytes};
ghost use Rattle.aso_num.specs.Numbers.{value_text};
ghost use Rattle.aso_spec.specs.Grid.{tabbed};
ghost use Rattle.aso_grid.specs.Grids.{label_of, placed, value_of, value_at as value_at_cell};
ghost use Rattle.aso_grid.specs.Lines.{IsBelow, head_line, row_line, values_text};
ghost use Rattle.aso_grid.specs.Plans.{IsSized};

use crate::grid_plan::GridPlan;
use crate::kept::value_at;
use crate::labels::put_label;
use aso_memory::NoMemory;
use aso_num::{List, Val, print_val};
use aso_outline::{ExtraMember, Outline};
use std::alloc::Global;

/// Appends the line of the columns at these places.
pub fn put_head(
    out: &mut Vec<u8>,
    outline: &Outline,
    own: &[ExtraMember],
    columns: &[List<u32>],
    kept: &[usize],
) -> Result<(), NoMemory>
    ensures { OnOk result (out.new.items ≡ out.old.items ++ head_line outline.now own.now columns.now kept.now) }
{
    for column in kept {
        out.push(b'\t')?;
        put_label(out, outline, own, columns, *column)?;
    }
    out.push(b'\n')?;
    Ok(())
}

/// Appends a tab and a value.
fn put_value(line: &mut String, value: Val) -> Result<(), NoMemory>
    ensures { OnOk result (string_bytes line.new ≡ string_bytes line.old ++ 9 ∷ value_text value) }
{
    line.push('\t')?;
    print_val(value, line)
}

/// Appends the values of a row in the columns at these places.
fn put_values(
    line: &mut String,
    plan: &GridPlan,
    values: &[Val],
    row: usize,
    kept: &[usize],
) -> Result<(), NoMemory>
    requires sized { IsSized plan.now }
    requires row { row < length plan.now.rows.rows }
    requires kept { All (IsBelow (length plan.now.columns.rows)) kept.now }
    ensures { OnOk result (string_bytes line.new ≡ string_bytes line.old ++ values_text plan.now values.now row kept.now) }
{
    for column in kept {
        put_value(line, value_at(plan, values, row, *column))?;
    }
    Ok(())
}

/// Appends the line of a row: its label, and its values in the columns at these places.
fn put_row(
    alloc: Global,
    out: &mut Vec<u8>,
    outline: &Outline,
    own: &[ExtraMember],
    plan: &GridPlan,
    values: &[Val],
    row: usize,
    kept: &[usize],
) -> Result<(), NoMemory>
    requires sized { IsSized plan.now }
    requires row { row < length plan.now.rows.rows }
    requires kept { All (IsBelow (length plan.now.columns.rows)) kept.now }
    ensures { OnOk result (out.new.items ≡ out.old.items ++ row_line outline.now own.now plan.now values.now kept.now row) }
{
    put_label(out, outline, own, plan.rows.rows.items(), row)?;
    let mut line = String::new(alloc);
    put_values(&mut line, plan, values, row, kept)?;
    line.push('\n')?;
    out.extend_from_slice(line.as_bytes())?;
    Ok(())
}

/// Appends the lines of the rows at these places.
pub fn put_rows(
    alloc: Global,
    out: &mut Vec<u8>,
    outline: &Outline,
    own: &[ExtraMember],
    plan: &GridPlan,
    values: &[Val],
    rows: &[usize],
    columns: &[usize],
) -> Result<(), NoMemory>
    requires sized { IsSized plan.now }
    requires rows { All (IsBelow (length plan.now.rows.rows)) rows.now }
    requires columns { All (IsBelow (length plan.now.columns.rows)) columns.now }
    ensures { OnOk result (out.new.items ≡ out.old.items ++ flat_map (row_line outline.now own.now plan.now values.now columns.now) rows.now) }
{
    for row in rows {
        put_row(alloc, out, outline, own, plan, values, *row, columns)?;
    }
    Ok(())
}
