// How many tuples and cells a query has. They are counted before they are made.
ghost use Rattle.std.specs.Prelude.{◌≡◌, length, IfOk};
ghost use Rattle.std.specs.Option.{option_map};
ghost use Rattle.aso_axes.specs.Answers.{counted};
ghost use Rattle.aso_axes.specs.Members.{IsNumbered};
ghost use Rattle.aso_grid.specs.Plans.{excess as excess_of, excess_in, rows_of};

use aso_axes::{MOST_TUPLES, count_rows};
use aso_mdx::Query;
use aso_memory::NoMemory;
use aso_outline::{ExtraMember, Outline};
use std::alloc::Global;

/// How many rows a query has, or 2^64 - 1 where it has more; one where it names none.
fn row_count(
    alloc: Global,
    outline: &Outline,
    own: &[ExtraMember],
    query: &Query,
) -> Result<u64, NoMemory>
    requires { IsNumbered outline.now own.now }
    ensures { IfOk result (λ n. n ≡ counted (length (rows_of outline.now own.now query.now).rows)) }
{
    match &query.rows {
        Some(rows) => count_rows(alloc, outline, own, &rows.set),
        None => Ok(1),
    }
}

/// The first size of a query that is too great, or 2^64 - 1 where that is less.
pub fn excess(
    alloc: Global,
    outline: &Outline,
    own: &[ExtraMember],
    query: &Query,
) -> Result<Option<u64>, NoMemory>
    requires { IsNumbered outline.now own.now }
    ensures { IfOk result (λ found. found ≡ option_map counted (excess_in outline.now own.now query.now)) }
{
    let columns = count_rows(alloc, outline, own, &query.columns.set)?;
    if columns > MOST_TUPLES {
        return Ok(Some(columns));
    }
    let rows = row_count(alloc, outline, own, query)?;
    if rows > MOST_TUPLES {
        return Ok(Some(rows));
    }
    if rows * columns > MOST_TUPLES {
        return Ok(Some(rows * columns));
    }
    Ok(None)
}
