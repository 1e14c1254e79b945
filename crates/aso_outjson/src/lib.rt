//! Outlines as JSON.
#![tactic(auto)]

mod fault;
mod fields;
mod formulas;
mod hierarchies;
mod members;
mod object;
mod outlines;
mod part;
mod parts;
mod path;
mod pointer;
mod printing;
mod reading;
mod trouble;
mod values;
mod written;

pub use fault::JsonFault;
pub use printing::print;
pub use reading::read;
