//! Outlines from texts, which are the outline's lines of a sheet or JSON.
#![tactic(auto)]

mod drafting;
mod fault;
mod reading;
mod text;

pub use drafting::draft_of;
pub use fault::TextFault;
pub use reading::read;
