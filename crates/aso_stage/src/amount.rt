// What a commit of an amount publishes.
ghost use Rattle.std.specs.Prelude.{◌≡◌, ◌+◌, ◌-◌, ◌≤◌, ◌<◌, ◌^◌, true, length, map, nat_lt, unsigned_abs, IfOk};
ghost use Rattle.aso_catalog.specs.Record.{IsRecord, IsStorable};
ghost use Rattle.aso_spec.specs.Cells.{add_at};
ghost use Rattle.aso_machine.specs.CellSteps.{sum_in};
ghost use Rattle.aso_cellnames.specs.Leaves.{are_leaves, leaf_counts};
ghost use Rattle.aso_machine.specs.State.{entry, state_with};
ghost use Rattle.aso_stage.specs.Store.{Stands};
ghost use Rattle.aso_stage.specs.Stores.{IsStore, added_state};

use crate::bodies::body_of;
use crate::next::next_record;
use crate::store::Store;
use aso_catalog::Record;
use aso_num::NoMemory;
use std::alloc::Global;

/// The next record of a store with an amount added to a cell, and its body: what a commit of the amount publishes.
pub fn next_body(
    alloc: Global,
    store: &Store,
    key: &[u32],
    amount: i128,
) -> Result<(Record, Vec<u8>), NoMemory>
    requires store { IsStore store.now }
    requires storable { IsStorable store.now.saved }
    requires room { store.now.saved.layout < 2 ^ 64 - 1 }
    requires leaves { are_leaves (leaf_counts store.now.outline) key.now ≡ true }
    requires amount { unsigned_abs amount < 10 ^ 18 }
    requires sum { nat_lt (unsigned_abs (sum_in key.now amount store.now.saved.cells)) (10 ^ 18) ≡ true }
    requires few { length (add_at key.now amount (map entry store.now.saved.cells)) ≤ 1000 }
    ensures spelled { IfOk result (λ p. IsRecord p.0 p.1.items) }
    ensures short { IfOk result (λ p. length p.1.items ≤ 131067) }
    ensures layout { IfOk result (λ p. p.0.layout ≡ store.now.saved.layout + 1) }
    ensures state { IfOk result (λ p. state_with p.0 store.now.outline ≡ added_state store.now key.now amount) }
    ensures stands { IfOk result (λ p. Stands p.0 (state_with p.0 store.now.outline)) }
{
    let next = next_record(alloc, store, key, amount)?;
    let body = body_of(alloc, &next)?;
    Ok((next, body))
}
