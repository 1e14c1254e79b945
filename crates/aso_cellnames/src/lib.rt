//! Cells by the names of their leaves: the first name that is unknown or wrong, the cell that names name, and its names.
#![tactic(auto)]

mod labels;
mod naming;
mod slots;

pub use labels::{cell_names, put_label, put_shown};
pub use naming::{first_unknown, seat_of};
pub use slots::{key_named, wrong_in_cell};
