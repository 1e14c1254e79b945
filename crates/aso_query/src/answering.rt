// The grid of a query over the values that it needs.
ghost use Rattle.std.specs.Prelude.{◌≡◌, length, map, IfOk, IfErr};
ghost use Rattle.aso_calc.specs.Stored.{given};
ghost use Rattle.aso_grid.specs.Plans.{AreLong};
ghost use Rattle.aso_query.specs.declared.refusal.QueryRefusal.TheVariants.{Range as PastRange};
ghost use Rattle.aso_query.specs.Faults.{HasRefusal};
ghost use Rattle.aso_query.specs.Answers.{AreValues, IsGridOver, IsPast, IsReady, Stored, names_of};

use crate::asking::Asked;
use crate::names::cell_names;
use crate::refusal::{AskFault, QueryRefusal};
use aso_calc::{CalcFault, StoredValues, values};
use aso_grid::{GridPlan, grid};
use aso_num::{List, Val};
use aso_outline::{Extra, ExtraMember, Outline, Tuple};
use std::alloc::Global;

/// A query's grid: how many rows and columns are printed, and its lines.
#[derive(Debug, Drop)]
pub struct QueryGrid {
    pub rows: u32,
    pub columns: u32,
    pub text: Vec<u8>,
}

fn past(alloc: Global, outline: &Outline, own: &[ExtraMember], cell: &Tuple) -> AskFault
    ensures { HasRefusal (λ r. r ≡ PastRange (names_of outline.now own.now cell.now)) result }
{
    match cell_names(alloc, outline, own, cell) {
        Ok(names) => AskFault::Refused(QueryRefusal::Range {
            names: List::of(names),
        }),
        Err(e) => AskFault::NoMemory(e),
    }
}

/// The values of the cells of a plan.
fn cell_values(
    alloc: Global,
    outline: &Outline,
    extra: &Extra,
    plan: &GridPlan,
    stored: &StoredValues,
) -> Result<Vec<Val>, AskFault>
    requires { AreLong outline.now plan.now.cells }
    ensures found { IfOk result (λ v. AreValues outline.now extra.now.members.items (given stored.now) plan.now.cells v.items) }
    ensures refused { IfErr result (HasRefusal (IsPast outline.now extra.now.members.items (given stored.now) plan.now)) }
{
    match values(alloc, outline, extra, plan.cells.items(), stored) {
        Ok(values) => Ok(values),
        Err(CalcFault::Range { tuple }) => {
            Err(past(alloc, outline, extra.members.as_slice(), &tuple))
        }
        Err(CalcFault::NoMemory(e)) => Err(AskFault::NoMemory(e)),
    }
}

/// The grid of what was asked, over the values of the stored tuples that it needs, in their order. It is refused for the first cell
/// whose value is past the range of values. It takes time in proportion to the cells, what their values need, and the text.
pub fn answer(
    alloc: Global,
    outline: &Outline,
    asked: Asked,
    values: Vec<Val>,
) -> Result<QueryGrid, AskFault>
    requires ready { IsReady outline.now asked }
    requires each { length values.items ≡ length asked.needs.items }
    ensures grid { IfOk result (λ g. (stored : Stored) → map stored asked.needs.items ≡ values.items → IsGridOver outline.now asked.extra.members.items stored asked.plan g.rows g.columns g.text.items) }
    ensures refused { IfErr result (HasRefusal (λ r. (stored : Stored) → map stored asked.needs.items ≡ values.items → IsPast outline.now asked.extra.members.items stored asked.plan r)) }
{
    let Asked { extra, plan, needs } = asked;
    let stored = StoredValues::new(alloc, needs, values)?;
    let found = cell_values(alloc, outline, &extra, &plan, &stored)?;
    let mut text = Vec::new(alloc);
    let (rows, columns) = grid(alloc, outline, &extra, &plan, &found, &mut text)?;
    Ok(QueryGrid {
        rows,
        columns,
        text,
    })
}
