//! Scripts: lines, and the additions that some of them spell.
#![tactic(auto)]

mod addition;
mod cutting;
mod laws;
mod name;
mod parts;
mod reading;
mod stop;

pub use addition::Addition;
pub use cutting::{Line, cut_lines};
pub use laws::spells_one_addition;
pub use name::{Name, WrittenAmount};
pub use reading::read_addition;
