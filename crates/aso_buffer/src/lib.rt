//! Load buffers: the records of loads in order, and the cells that they combine to.
#![tactic(auto)]

mod buffer;
mod combining;
mod fault;
mod kind;
mod past;
mod records;
mod row;

pub use aso_memory::NoMemory;
pub use buffer::Buffer;
pub use fault::BufferFault;
pub use kind::Kind;
pub use records::Records;
