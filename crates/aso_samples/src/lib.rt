//! Outlines as users write them, for the trials of several crates together: the Basic outline, wide ones, and members of a query's own.
#![tactic(auto)]

mod outlines;
mod own;

pub use outlines::{basic, outline, wide};
pub use own::extend;
