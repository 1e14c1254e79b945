// The record of a store once a cell is changed.
ghost use Rattle.std.specs.Prelude.{◌≡◌, ◌+◌, ◌-◌, ◌<◌, ◌^◌, true, length, map, nat_lt, unsigned_abs, IfOk};
ghost use Rattle.aso_catalog.specs.Record.{IsStorable};
ghost use Rattle.aso_spec.specs.Cells.{add_at};
ghost use Rattle.aso_machine.specs.CellSteps.{sum_in};
ghost use Rattle.aso_cellnames.specs.Leaves.{are_leaves, leaf_counts};
ghost use Rattle.aso_machine.specs.State.{committed, entry};
ghost use Rattle.aso_stage.specs.Store.{Stands};
ghost use Rattle.aso_stage.specs.Stores.{IsStore, state_of};

use crate::store::Store;
use aso_catalog::Record;
use aso_machine::add_cell;
use aso_num::{List, NoMemory};
use std::alloc::Global;

/// The record of the next layout and the next commit, with an amount added to a cell: it stands for the store's state
/// after that commit.
pub fn next_record(
    alloc: Global,
    store: &Store,
    key: &[u32],
    amount: i128,
) -> Result<Record, NoMemory>
    requires store { IsStore store.now }
    requires room { store.now.saved.layout < 2 ^ 64 - 1 }
    requires leaves { are_leaves (leaf_counts store.now.outline) key.now ≡ true }
    requires amount { unsigned_abs amount < 10 ^ 18 }
    requires sum { nat_lt (unsigned_abs (sum_in key.now amount store.now.saved.cells)) (10 ^ 18) ≡ true }
    requires storable { IsStorable store.now.saved }
    requires few { length (add_at key.now amount (map entry store.now.saved.cells)) < 2 ^ 32 }
    ensures stands { IfOk result (λ r. Stands r (committed (state_of store.now) (add_at key.now amount (map entry store.now.saved.cells)))) }
    ensures storable { IfOk result IsStorable }
    ensures layout { IfOk result (λ r. r.layout ≡ store.now.saved.layout + 1) }
    ensures outline { IfOk result (λ r. r.outline ≡ store.now.saved.outline) }
    ensures cells { IfOk result (λ r. length r.cells ≡ length (add_at key.now amount (map entry store.now.saved.cells))) }
{
    let saved = &store.saved;
    let cells = add_cell(alloc, saved.cells.items(), key, amount)?;
    let outline = Vec::from_slice(alloc, saved.outline.items())?;
    Ok(Record {
        layout: saved.layout + 1,
        commit: saved.commit + 1,
        outline: List::of(outline),
        dimensions: saved.dimensions,
        cells: List::of(cells),
    })
}
