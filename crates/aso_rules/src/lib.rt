//! Rules files: how the records of a data file become amounts at the data leaves of an outline.
#![tactic(auto)]

mod columns;
mod cover;
mod fault;
mod fields;
mod has_only;
mod head;
mod known;
mod reading;
mod rules;
mod texts;
mod written;

pub use aso_num::NoMemory;
pub use fault::RulesFault;
pub use reading::read;
pub use rules::{Column, Rules};
