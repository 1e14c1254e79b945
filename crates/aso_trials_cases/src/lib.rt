//! The cases of trials as data: a JSON list of objects in a file, and the texts, numbers and lists that their fields are. It tries
//! nothing itself.
#![tactic(auto)]

mod fault;
mod fields;
mod numbers;
mod reading;
mod texts;

pub use fault::CaseFault;
pub use fields::{field, is_set, list, optional};
pub use numbers::{integer, number};
pub use reading::cases;
pub use texts::{string, strings, text};
