//! A store of one record: how it is made, opened and published, and a run of lines over it, through every crash.
#![tactic(auto)]

mod amount;
mod answer;
mod bits;
mod bodies;
mod committing;
mod making;
mod next;
mod opening;
mod reopening;
mod replying;
mod running;
mod store;

pub use amount::next_body;
pub use answer::Answer;
pub use committing::publish_next;
pub use making::create;
pub use next::next_record;
pub use reopening::open_store;
pub use replying::error_line;
pub use running::{run_lines, run_text};
pub use store::{LONGEST_TEXT, Store, recover};
