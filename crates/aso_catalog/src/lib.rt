//! The catalog: two areas of a device behind gate bytes, of which one holds the current record, so that a crash leaves
//! the record before a publish or the one that is published.
#![tactic(auto)]

mod catalog;
mod fault;
mod opening;
mod reading;
mod record;
mod session;
mod writing;

pub use catalog::Catalog;
pub use fault::{CatalogFault, PublishFault, RecordFault};
pub use reading::decode;
pub use record::{LeafCell, Record};
pub use session::publish_all;
pub use writing::encode;
