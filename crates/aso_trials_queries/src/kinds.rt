// The kinds of cases.
use crate::{answers, cells, grids, plans, sets};
use aso_axes::Purpose;
use aso_outline::Outline;
use aso_trials_cases::CaseFault;
use serde_json::Value;
use std::alloc::Global;

/// What a case is tried for.
#[derive(Clone, Copy, Debug)]
pub enum Kind {
    /// The tuples of a set on an axis.
    Set,
    /// The tuples of a set for a region, which has stored members alone.
    Region,
    /// A cell by the names of its leaves.
    Cell,
    /// The cells of a query's grid.
    Plan,
    /// The stored tuples that a query needs.
    Needs,
    /// The grid of a query over values as a pattern gives them.
    Grid,
    /// The grid of a query over stored cells.
    Answer,
}

/// What a case gives over an outline.
pub fn told(
    alloc: Global,
    kind: Kind,
    outline: &Outline,
    case: &Value,
) -> Result<String, CaseFault> {
    match kind {
        Kind::Set => sets::told(alloc, outline, Purpose::Axis, case),
        Kind::Region => sets::told(alloc, outline, Purpose::Region, case),
        Kind::Cell => cells::told(alloc, outline, case),
        Kind::Plan => plans::cells_told(alloc, outline, case),
        Kind::Needs => plans::needs_told(alloc, outline, case),
        Kind::Grid => grids::told(alloc, outline, case),
        Kind::Answer => answers::told(alloc, outline, case),
    }
}
