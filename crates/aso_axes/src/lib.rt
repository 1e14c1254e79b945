//! The tuples of a set over an outline and a query's own members, or why it has none.
#![tactic(auto)]

mod axis;
mod below;
mod counts;
mod fault;
mod given;
mod members;
mod names;
mod part;
mod paths;
mod rows;
mod said;
mod wrong;

pub use axis::{MOST_TUPLES, are_numbered, copied, make_tuples, tuples, tuples_for};
pub use counts::count_rows;
pub use fault::{AxisFault, AxisTuples};
pub use members::{name_of, same_dim};
pub use names::{dim_at, first_unknown, member_at};
pub use part::{Part, Purpose};
pub use paths::{push_paths, push_tuple};
pub use said::{said_of_set, said_of_tuple};
pub use wrong::{wrong_in, wrong_tuple};
