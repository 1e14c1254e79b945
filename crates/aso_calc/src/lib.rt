//! Values of tuples: which stored tuples they rest on, and what they come to.
#![tactic(auto)]

mod arithmetic;
mod choice;
mod fault;
mod formula;
mod key;
mod listing;
mod members;
mod operands;
mod stored;
mod table;
mod unfolding;
mod visits;

pub use fault::CalcFault;
pub use stored::StoredValues;
pub use unfolding::{value, values};
pub use visits::needs;
