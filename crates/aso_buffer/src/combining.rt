// The records at their keys, and what those of one key combine to.
ghost use Rattle.std.specs.Prelude.{◌≡◌, ℕ, ◌*◌, ◌^◌, ◌<◌, ◌≤◌, length, IfOk};
ghost use Rattle.aso_keys.specs.Axes.{bits_of};
ghost use Rattle.aso_runs.specs.Runs.{Rises, amounts_at, greatest, value_at};
ghost use Rattle.aso_runs.specs.Cells.{entries_of};
ghost use Rattle.aso_buffer.specs.Buffers.{HaveKeys, combined, keyed};
ghost use Rattle.aso_buffer.specs.Rows.{leaves_in, records_of};

use crate::kind::Kind;
use crate::row::Row;
use aso_keys::Layout;
use aso_memory::NoMemory;
use aso_runs::{Cell, Run, fold_last, fold_sum};
use std::alloc::Global;

/// The records of rows in order, each at the key of its leaves.
pub fn keyed_rows<const W: usize>(
    alloc: Global,
    rows: &[Row],
    leaves: &[u32],
    layout: &Layout,
) -> Result<Vec<Cell<W>>, NoMemory>
    requires some { 1 ≤ W }
    requires few { W ≤ 4 }
    requires wide { bits_of layout.now ≤ 64 * W }
    requires whole { leaves_in rows.now ≡ length leaves.now }
    requires keys { HaveKeys layout.now (records_of rows.now leaves.now) }
    ensures keyed { IfOk result (λ cells. entries_of cells.items ≡ keyed layout.now (records_of rows.now leaves.now)) }
    ensures small { IfOk result (λ cells. greatest (entries_of cells.items) < 10 ^ 18) }
{
    let mut cells = Vec::with_capacity(alloc, rows.len())?;
    let mut rest = leaves;
    for row in rows {
        let (own, behind) = rest.split_at(row.leaves);
        let key = layout.key_of::<W>(own);
        let amount = i128::from(row.amount.units());
        cells.push(Cell { key, amount })?;
        rest = behind;
    }
    Ok(cells)
}

/// The run that has at each key what the amounts of that key combine to.
pub fn combine<const W: usize>(kind: Kind, cells: Vec<Cell<W>>) -> Result<Run<W>, NoMemory>
    requires { greatest (entries_of cells.items) < 10 ^ 18 }
    ensures values { IfOk result (λ run. (key : ℕ) → value_at key run ≡ combined kind (amounts_at key (entries_of cells.entry.items))) }
    ensures rises { IfOk result Rises }
{
    match kind {
        Kind::Sum => fold_sum(cells),
        Kind::Last => fold_last(cells),
    }
}
