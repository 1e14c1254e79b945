//! The texts of sheets and of their outlines: what a text says, or the byte at which its first faulty line begins.
#![tactic(auto)]

mod fault;
mod line;
mod outline;
mod part;
mod sheet;
mod stage;
mod text;

pub use fault::SheetFault;
pub use outline::read_outline;
pub use sheet::read_sheet;
pub use text::{CellText, MemberText, OutlineText, SheetText};
