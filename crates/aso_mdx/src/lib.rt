//! Queries: what they say, and the grammar of their texts.
#![tactic(auto)]

mod fault;
mod names;
mod queries;
mod query;
mod query_text;
mod sets;
mod shape;
mod single;
mod text;
mod tokens;

pub use fault::SyntaxFault;
pub use query::{Axis, Own, Query, SetText};
pub use query_text::read;
pub use single::spells_one_query;
pub use text::read_set;
