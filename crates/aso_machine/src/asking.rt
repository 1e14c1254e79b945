// What a query comes to.
ghost use Rattle.std.specs.Prelude.{◌≡◌, ◌<◌, ◌^◌, None, true, map, unsigned_abs, IfOk};
ghost use Rattle.std.specs.List.{list_all};
ghost use Rattle.aso_sums.specs.Stored.{stored_value};
ghost use Rattle.aso_cellnames.specs.Leaves.{leaf_counts};
ghost use Rattle.aso_query.specs.Answers.{IsAsked, IsReady, IsRefused};
ghost use Rattle.aso_machine.specs.Machine.{IsAnswer, other_database, values_of};
ghost use Rattle.aso_machine.specs.State.{entry, fits_outline, is_cell_of, state_with};
ghost use Rattle.aso_machine.specs.Verdicts.{IsVerdictIn};

use crate::refusing::other_database;
use crate::verdict::Verdict;
use aso_catalog::{LeafCell, Record};
use aso_mdx::Query;
use aso_memory::NoMemory;
use aso_num::{Amount, Val};
use aso_outline::{Outline, Tuple};
use aso_query::{AskFault, Asked, QueryRefusal, answer, ask};
use aso_sums::Sums;
use std::alloc::Global;

// The amount of so many units, which are in range.
fn amount_of(units: i128) -> Amount
    requires { unsigned_abs units < 10 ^ 18 }
    ensures { result ≡ units }
{
    match Amount::new(units as i64) {
        Some(amount) => amount,
        None => unreachable!(),
    }
}

// The stored values of tuples over the cells of a record.
fn stored_values(
    alloc: Global,
    outline: &Outline,
    cells: &[LeafCell],
    tuples: &[Tuple],
) -> Result<Vec<Val>, NoMemory>
    requires { list_all (λ c. is_cell_of (leaf_counts outline.now) (entry c)) cells.now ≡ true }
    ensures { IfOk result (λ v. v.items ≡ map (stored_value outline.now (map entry cells.now)) tuples.now) }
{
    let mut sums = Sums::new(alloc, outline, tuples)?;
    for cell in cells {
        sums.add(alloc, outline, cell.leaves.items(), amount_of(cell.amount))?;
    }
    Ok(sums.into_values())
}

// A query that is refused over the record's stored values.
fn refused(
    alloc: Global,
    outline: &Outline,
    saved: &Record,
    query: &Query,
    refusal: &QueryRefusal,
) -> Result<Verdict, NoMemory>
    requires database { other_database outline.now query.now.app query.now.db ≡ None }
    requires refused { IsRefused outline.now (values_of (state_with saved.now outline.now)) query.now refusal.now }
    ensures { IfOk result (IsVerdictIn (IsAnswer (state_with saved.now outline.now) query.now) outline.now saved.now) }
{
    let text = refusal.text(alloc)?;
    Ok(Verdict::Refused { text })
}

// The answer to what is asked.
fn answered(
    alloc: Global,
    outline: &Outline,
    saved: &Record,
    query: &Query,
    asked: Asked,
) -> Result<Verdict, NoMemory>
    requires fits { fits_outline saved.now outline.now ≡ true }
    requires database { other_database outline.now query.now.app query.now.db ≡ None }
    requires asked { IsAsked outline.now query.now asked }
    requires ready { IsReady outline.now asked }
    ensures { IfOk result (IsVerdictIn (IsAnswer (state_with saved.now outline.now) query.now) outline.now saved.now) }
{
    let values = stored_values(alloc, outline, saved.cells.items(), &asked.needs)?;
    match answer(alloc, outline, asked, values) {
        Ok(grid) => Ok(Verdict::Grid {
            rows: grid.rows,
            columns: grid.columns,
            text: grid.text,
        }),
        Err(AskFault::Refused(refusal)) => refused(alloc, outline, saved, query, &refusal),
        Err(AskFault::NoMemory(e)) => Err(e),
    }
}

// What a query of the outline's database comes to.
fn asked(
    alloc: Global,
    outline: &Outline,
    saved: &Record,
    query: &Query,
) -> Result<Verdict, NoMemory>
    requires fits { fits_outline saved.now outline.now ≡ true }
    requires database { other_database outline.now query.now.app query.now.db ≡ None }
    ensures { IfOk result (IsVerdictIn (IsAnswer (state_with saved.now outline.now) query.now) outline.now saved.now) }
{
    match ask(alloc, outline, query) {
        Ok(asked) => answered(alloc, outline, saved, query, asked),
        Err(AskFault::Refused(refusal)) => refused(alloc, outline, saved, query, &refusal),
        Err(AskFault::NoMemory(e)) => Err(e),
    }
}

/// What a query comes to over the cells of a record that fit the outline: a refusal, for its database first, or its grid.
pub fn asks(
    alloc: Global,
    outline: &Outline,
    saved: &Record,
    query: &Query,
) -> Result<Verdict, NoMemory>
    requires fits { fits_outline saved.now outline.now ≡ true }
    ensures { IfOk result (IsVerdictIn (IsAnswer (state_with saved.now outline.now) query.now) outline.now saved.now) }
{
    match other_database(alloc, outline, query.app.as_str(), query.db.as_str())? {
        Some(text) => Ok(Verdict::Refused { text }),
        None => asked(alloc, outline, saved, query),
    }
}
