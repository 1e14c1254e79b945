//! Regions: the cells that the tuples of a set cover.
#![tactic(auto)]

mod chosen;
mod cover;
mod fault;
mod region;
mod rows;
mod tables;
mod text;

pub use fault::RegionFault;
pub use region::Region;
pub use text::read;
