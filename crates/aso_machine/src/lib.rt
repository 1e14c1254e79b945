//! The machine that a store is: what a line of a script says, and what it comes to on a state.
#![tactic(auto)]

mod asking;
mod cells;
mod changing;
mod fitting;
mod judging;
mod reading;
mod refusing;
mod verdict;

pub use cells::{add_cell, added_count, sum_in};
pub use fitting::fits;
pub use judging::judge;
pub use reading::{Reading, read_line};
pub use verdict::Verdict;
