//! Formula texts: reading one, by itself or against an outline, and printing a formula with the fewest parentheses.
#![tactic(auto)]

mod fault;
mod places;
mod printing;
mod reading;
mod text;

pub use fault::FormulaFault;
pub use printing::print;
pub use text::{parse, read};
