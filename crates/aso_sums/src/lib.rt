//! The stored values of tuples, summed cell by cell.
#![tactic(auto)]

mod asked;
mod leaves;
mod rows;
mod sums;

pub use sums::Sums;
