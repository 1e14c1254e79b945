//! Queries over an outline: what one asks, the stored tuples that it needs, and its grid once they are known.
#![tactic(auto)]

mod answering;
mod asking;
mod names;
mod owns;
mod refusal;
mod text;

pub use answering::{QueryGrid, answer};
pub use asking::{Asked, ask};
pub use refusal::{AskFault, QueryRefusal};
