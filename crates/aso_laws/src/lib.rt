//! Laws that no code needs: what a query, a line and a sheet come to, they come to alone.
#![tactic(auto)]

mod once;

pub use once::{one_answer_of_a_query, one_answer_of_a_sheet, one_outcome_of_a_line};
