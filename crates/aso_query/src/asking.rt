// What a query asks.
ghost use Rattle.std.specs.Prelude.{◌≡◌, IfOk, IfErr, OnOk};
ghost use Rattle.aso_grid.specs.Plans.{AreLong, IsSized, IsTaken, plan_of};
ghost use Rattle.aso_query.specs.Faults.{HasRefusal};
ghost use Rattle.aso_query.specs.Answers.{IsAsked, IsAskedRefusal, IsPlanRefusal, IsReady};

use crate::owns::take_all;
use crate::refusal::{AskFault, QueryRefusal};
use aso_axes::AxisFault;
use aso_calc::needs;
use aso_grid::{GridPlan, plan};
use aso_mdx::Query;
use aso_outline::{Extra, Outline, Tuple};
use std::alloc::Global;

/// A query over an outline: the members of its own, the plan of its grid, and the stored tuples on which the values of its cells
/// rest, each once and no other.
#[derive(Debug, Drop)]
pub struct Asked {
    pub extra: Extra,
    pub plan: GridPlan,
    pub needs: Vec<Tuple>,
}

fn make_plan(
    alloc: Global,
    outline: &Outline,
    extra: &Extra,
    query: &Query,
) -> Result<GridPlan, AskFault>
    ensures planned { IfOk result (λ p. p ≡ plan_of outline.now extra.now.members.items query.now) }
    ensures sized { IfOk result IsSized }
    ensures long { IfOk result (λ p. AreLong outline.now p.cells) }
    ensures accepted { OnOk result (IsTaken outline.now extra.now.members.items query.now) }
    ensures refused { IfErr result (HasRefusal (IsPlanRefusal outline.now extra.now.members.items query.now)) }
{
    match plan(alloc, outline, extra, query) {
        Ok(plan) => Ok(plan),
        Err(AxisFault::UnknownMember { name }) => {
            Err(AskFault::Refused(QueryRefusal::UnknownMember { name }))
        }
        Err(AxisFault::Dimension { name }) => {
            Err(AskFault::Refused(QueryRefusal::Dimension { name }))
        }
        Err(AxisFault::TooLarge { cells }) => {
            Err(AskFault::Refused(QueryRefusal::TooLarge { cells }))
        }
        Err(AxisFault::NoMemory(e)) => Err(AskFault::NoMemory(e)),
    }
}

/// What a query asks of an outline, whatever the cells are. It is refused for the first of these: of its own members, in their order, one
/// whose dimension isn't a base dimension, whose formula's text is none, names an unknown member, or is wrong otherwise; an unknown
/// name; a name that breaks a rule of dimensions; more than 100,000 columns, rows or cells. Nothing is made before it is counted.
pub fn ask(alloc: Global, outline: &Outline, query: &Query) -> Result<Asked, AskFault>
    ensures asked { IfOk result (IsAsked outline.now query.now) }
    ensures ready { IfOk result (IsReady outline.now) }
    ensures refused { IfErr result (HasRefusal (IsAskedRefusal outline.now query.now)) }
{
    let extra = take_all(alloc, outline, query.own.items())?;
    let plan = make_plan(alloc, outline, &extra, query)?;
    let needs = needs(alloc, outline, &extra, plan.cells.items())?;
    Ok(Asked { extra, plan, needs })
}
