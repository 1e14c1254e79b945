// The cells of queries, and the stored tuples that they need.
use crate::members::{own, put_fault, put_tuples};
use aso_grid::{GridPlan, plan};
use aso_mdx::{Query, read};
use aso_outline::{ExtraMember, Outline};
use aso_query::ask;
use aso_trials_cases::{CaseFault, field, string};
use serde_json::Value;
use std::alloc::{AllocError, Global};
use std::fmt::Write;

/// The query of a case.
pub fn query(alloc: Global, case: &Value) -> Result<Query, CaseFault> {
    let text = string(alloc, field(case, "query")?)?;
    match read(alloc, text.as_str()) {
        Ok(query) => Ok(query),
        Err(_fault) => Err(CaseFault::Value),
    }
}

fn put_plan(
    outline: &Outline,
    own: &[ExtraMember],
    plan: &GridPlan,
    out: &mut String,
) -> Result<(), AllocError> {
    let rows = plan.rows.rows.items().len();
    let columns = plan.columns.rows.items().len();
    write!(out, "rows {rows} columns {columns} cells ")?;
    put_tuples(outline, own, plan.cells.items(), out)
}

/// The size of a query's grid and its cells, attributes behind a plus; or what stands in its way.
pub fn cells_told(alloc: Global, outline: &Outline, case: &Value) -> Result<String, CaseFault> {
    let extra = own(alloc, outline, case)?;
    let query = query(alloc, case)?;
    let mut out = String::new(alloc);
    match plan(alloc, outline, &extra, &query) {
        Ok(plan) => put_plan(outline, extra.members.as_slice(), &plan, &mut out)?,
        Err(fault) => put_fault(&fault, &mut out)?,
    }
    Ok(out)
}

/// The stored tuples that the values of a query rest on, in the order in which they are reached.
pub fn needs_told(alloc: Global, outline: &Outline, case: &Value) -> Result<String, CaseFault> {
    let query = query(alloc, case)?;
    let Ok(asked) = ask(alloc, outline, &query) else {
        return Err(CaseFault::Value);
    };
    let mut out = String::from_str(alloc, "needs ")?;
    put_tuples(
        outline,
        asked.extra.members.as_slice(),
        &asked.needs,
        &mut out,
    )?;
    Ok(out)
}
