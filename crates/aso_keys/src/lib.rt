//! Layouts of keys: where the classes of each dimension stand in a key, and how keys are rolled up to a coarser view.
#![tactic(auto)]

mod axis;
mod build;
mod keys;
mod layout;
mod making;
mod ranges;
mod views;

pub use aso_outline::View;
pub use layout::Layout;
pub use views::{is_coarser, view_of};
