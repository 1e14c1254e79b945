//! Sheets: the grid that one asks of its own cells, or why there is none.
#![tactic(auto)]

mod axes;
mod cells;
mod evaluating;
mod refusal;
mod reply;
mod text;

pub use evaluating::eval;
pub use refusal::{EvalFault, SheetRefusal};
