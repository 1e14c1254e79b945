//! What a query asks, as the cells of a grid, and the text of a grid over their values.
#![tactic(auto)]

mod cells;
mod grid_plan;
mod kept;
mod labels;
mod names;
mod places;
mod planning;
mod printing;
mod row_text;
mod sizes;

pub use grid_plan::GridPlan;
pub use planning::plan;
pub use printing::grid;
