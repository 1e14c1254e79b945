// Stored values by their tuples.
ghost use Rattle.std.specs.Prelude.{◌≡◌, unwrap_or, IfOk};
ghost use Rattle.aso_num.specs.declared.value.Val.TheVariants.{Missing};
ghost use Rattle.aso_num.specs.Numbers.{ranged};
ghost use Rattle.aso_calc.specs.Stored.{given_at};

use crate::arithmetic::{Outcome, ranged};
use crate::key::key_of;
use crate::table::Table;
use aso_memory::NoMemory;
use aso_num::Val;
use aso_outline::Tuple;
use std::alloc::Global;

/// The values of some stored tuples. Another tuple has none and counts as missing.
#[derive(Drop)]
pub struct StoredValues {
    table: Table<Val>,
}

impl StoredValues {
    ghost use Rattle.std.specs.Prelude.{◌≡◌, ℕ, length, Some, None, slice_get, IfOk};
    ghost use Rattle.aso_num.specs.declared.value.Val.{Val as Value};
    ghost use Rattle.aso_outline.specs.declared.draft.Tuple.{Tuple as Coordinates};
    ghost use Rattle.aso_calc.specs.Needs.{AreDistinct};
    ghost use Rattle.aso_calc.specs.Stored.{given};

    /// The values of these tuples, in their order. No tuple stands twice among them.
    pub fn new(
        alloc: Global,
        tuples: Vec<Tuple>,
        values: Vec<Val>,
    ) -> Result<StoredValues, NoMemory>
        requires each { length tuples.items ≡ length values.items }
        requires once { AreDistinct tuples.items }
        ensures { IfOk result (λ s. (k : ℕ) (t : Coordinates) (v : Value) → slice_get tuples.items k ≡ Some t → slice_get values.items k ≡ Some v → given s t ≡ v) }
    {
        let mut table = Table::new(alloc);
        for at in 0..tuples.len() {
            let tuple = &tuples[at];
            let key = key_of(alloc, tuple.base.items(), tuple.attrs.items())?;
            table.add(key, values[at])?;
        }
        Ok(StoredValues { table })
    }
}

fn or_missing(value: Option<Val>) -> Val
    ensures { result ≡ unwrap_or value Missing }
{
    match value {
        Some(value) => value,
        None => Val::Missing,
    }
}

/// The stored value at coordinates, with the attributes asked.
pub fn stored_value(
    alloc: Global,
    stored: &StoredValues,
    base: &[u32],
    attrs: &[Option<u32>],
) -> Result<Outcome, NoMemory>
    ensures { IfOk result (λ r. r ≡ ranged (given_at stored.now attrs.now base.now)) }
{
    let key = key_of(alloc, base, attrs)?;
    Ok(ranged(or_missing(stored.table.find(key.as_slice()))))
}
