//! The real devices: a catalog in a file, texts that are files, and output to a file or the standard one. What they hold
//! is told to no proof; each failure of the system is counted.
#![tactic(auto)]

mod count;
mod library;
mod sink;
mod slots;

pub use library::FolderLibrary;
pub use sink::RealSink;
pub use slots::FileSlots;

#[cfg(test)]
mod tests;
