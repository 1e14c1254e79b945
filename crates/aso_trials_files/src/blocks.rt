// The bytes of blocks.
use crate::cells::{key, put_cells};
use crate::reading::small_number;
use crate::stop::Stop;
use aso_cellfile::{Steps, decode};
use aso_trials_cases::{CaseFault, field, text};
use serde_json::Value;
use std::alloc::Global;
use std::sync::ledger::Ledger;

/// The cells of a block of so many, whose first key is known, and the greatest that its keys may have.
pub fn told<L: Ledger>(alloc: Global, case: &Value, steps: &mut Steps<L>) -> Result<String, Stop> {
    let bytes = text(alloc, field(case, "bytes")?)?;
    let count = small_number(field(case, "count")?)?;
    let Some(first) = key::<2>(field(case, "first")?) else {
        return Err(Stop::Case(CaseFault::Value));
    };
    let Some(most) = key::<2>(field(case, "most")?) else {
        return Err(Stop::Case(CaseFault::Value));
    };
    let _bounded = most.words();
    let mut out = String::new(alloc);
    match decode(alloc, &bytes, count, &first, &most, steps)? {
        Some(cells) => {
            out.push_str("cells")?;
            put_cells(&cells, &mut out)?;
        }
        None => out.push_str("no block")?,
    }
    Ok(out)
}
