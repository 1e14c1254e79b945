// The rows and columns that are printed: all, or those with a value that isn't missing.
ghost use Rattle.std.specs.Prelude.{◌≡◌, ◌<◌, ◌++◌, ◌∷◌, [], length, IfOk, OnOk, if◌then◌else◌};
ghost use Rattle.aso_grid.specs.Grids.{is_column_filled as is_column_filled_at, is_column_kept as is_column_kept_at, is_row_filled as is_row_filled_at, is_row_kept as is_row_kept_at, is_there as is_there_at, kept_columns as kept_columns_of, kept_rows as kept_rows_of, value_at as value_at_cell};
ghost use Rattle.aso_grid.specs.Plans.{IsSized};

use crate::grid_plan::GridPlan;
use aso_memory::NoMemory;
use aso_num::Val;
use std::alloc::Global;

/// The value at a row and a column, by their places.
pub fn value_at(plan: &GridPlan, values: &[Val], row: usize, column: usize) -> Val
    requires sized { IsSized plan.now }
    requires row { row < length plan.now.rows.rows }
    requires column { column < length plan.now.columns.rows }
    ensures { result ≡ value_at_cell plan.now values.now row column }
{
    match values.get(row * plan.columns.rows.items().len() + column) {
        Some(value) => *value,
        None => Val::Missing,
    }
}

fn is_there(value: Val) -> bool
    ensures { result ≡ is_there_at value }
{
    match value {
        Val::Missing => false,
        Val::Num(_) => true,
    }
}

fn is_row_filled(plan: &GridPlan, values: &[Val], row: usize) -> bool
    requires sized { IsSized plan.now }
    requires row { row < length plan.now.rows.rows }
    ensures { result ≡ is_row_filled_at plan.now values.now row }
{
    for column in 0..plan.columns.rows.items().len() {
        if is_there(value_at(plan, values, row, column)) {
            return true;
        }
    }
    false
}

fn is_column_filled(plan: &GridPlan, values: &[Val], column: usize) -> bool
    requires sized { IsSized plan.now }
    requires column { column < length plan.now.columns.rows }
    ensures { result ≡ is_column_filled_at plan.now values.now column }
{
    for row in 0..plan.rows.rows.items().len() {
        if is_there(value_at(plan, values, row, column)) {
            return true;
        }
    }
    false
}

/// Adds a place where it is kept.
fn push_if(kept: &mut Vec<usize>, is_kept: bool, place: usize) -> Result<(), NoMemory>
    ensures { OnOk result (kept.new.items ≡ kept.old.items ++ (if is_kept then place ∷ [] else [])) }
{
    if is_kept {
        kept.push(place)?;
    }
    Ok(())
}

fn is_row_kept(plan: &GridPlan, values: &[Val], row: usize) -> bool
    requires sized { IsSized plan.now }
    requires row { row < length plan.now.rows.rows }
    ensures { result ≡ is_row_kept_at plan.now values.now row }
{
    plan.empty_rows || is_row_filled(plan, values, row)
}

fn is_column_kept(plan: &GridPlan, values: &[Val], column: usize) -> bool
    requires sized { IsSized plan.now }
    requires column { column < length plan.now.columns.rows }
    ensures { result ≡ is_column_kept_at plan.now values.now column }
{
    plan.empty_columns || is_column_filled(plan, values, column)
}

/// The places of the rows that are printed.
pub fn kept_rows(alloc: Global, plan: &GridPlan, values: &[Val]) -> Result<Vec<usize>, NoMemory>
    requires { IsSized plan.now }
    ensures { IfOk result (λ v. v.items ≡ kept_rows_of plan.now values.now) }
{
    let mut kept = Vec::new(alloc);
    for row in 0..plan.rows.rows.items().len() {
        push_if(&mut kept, is_row_kept(plan, values, row), row)?;
    }
    Ok(kept)
}

/// The places of the columns that are printed.
pub fn kept_columns(alloc: Global, plan: &GridPlan, values: &[Val]) -> Result<Vec<usize>, NoMemory>
    requires { IsSized plan.now }
    ensures { IfOk result (λ v. v.items ≡ kept_columns_of plan.now values.now) }
{
    let mut kept = Vec::new(alloc);
    for column in 0..plan.columns.rows.items().len() {
        push_if(&mut kept, is_column_kept(plan, values, column), column)?;
    }
    Ok(kept)
}
