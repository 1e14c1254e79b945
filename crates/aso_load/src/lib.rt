//! Data files: the amounts that their records give under the rules of a rules file.
#![tactic(auto)]

mod amounts;
mod fields;
mod gather;
mod gathered;
mod load_file;
mod loaded;
mod members;
mod reader;
mod reasons;
mod spaces;
mod told;

pub use aso_num::NoMemory;
pub use load_file::load;
pub use loaded::{Loaded, Reject};
