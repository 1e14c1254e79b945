// The grids of queries over values that a pattern gives.
ghost use Rattle.std.specs.Prelude.{◌≡◌, length};
ghost use Rattle.aso_grid.specs.Plans.{IsSized};

use crate::members::own;
use crate::plans::query;
use crate::texts::grid_told;
use aso_grid::{GridPlan, grid, plan};
use aso_memory::NoMemory;
use aso_num::Val;
use aso_outline::{Extra, Outline};
use aso_trials_cases::{CaseFault, field, text};
use serde_json::Value;
use std::alloc::Global;

// The value of the cell at a place: missing at a dot of the pattern, which goes on over and over, and else the place.
fn value_at(pattern: &[u8], place: usize) -> Val {
    if pattern.is_empty() || pattern[place % pattern.len()] == b'.' {
        return Val::Missing;
    }
    Val::Num(place as i128 * 10_000)
}

fn values_of(alloc: Global, count: usize, pattern: &[u8]) -> Result<Vec<Val>, NoMemory> {
    let mut values = Vec::new(alloc);
    for place in 0..count {
        values.push(value_at(pattern, place))?;
    }
    Ok(values)
}

fn lines_told(
    alloc: Global,
    outline: &Outline,
    extra: &Extra,
    plan: &GridPlan,
    values: &[Val],
) -> Result<String, CaseFault>
    requires sized { IsSized plan.now }
    requires each { length values.now ≡ length plan.now.cells }
{
    let mut lines = Vec::new(alloc);
    let (rows, columns) = grid(alloc, outline, extra, plan, values, &mut lines)?;
    grid_told(alloc, rows, columns, &lines)
}

/// The grid of a case's query over the values of its pattern.
pub fn told(alloc: Global, outline: &Outline, case: &Value) -> Result<String, CaseFault> {
    let extra = own(alloc, outline, case)?;
    let query = query(alloc, case)?;
    let pattern = text(alloc, field(case, "values")?)?;
    let Ok(plan) = plan(alloc, outline, &extra, &query) else {
        return Err(CaseFault::Value);
    };
    let values = values_of(alloc, plan.cells.items().len(), &pattern)?;
    if values.len() != plan.cells.items().len() {
        return Err(CaseFault::Value);
    }
    lines_told(alloc, outline, &extra, &plan, &values)
}
