//! A run's directory: its store and its event log, on a disk.
#![tactic(auto)]

mod events;
mod file;
mod log;
mod paths;
mod reader;
mod store;
mod store_parts;

pub use events::RecordEventIter;
pub use file::read_file;
pub use paths::join;
pub use reader::RecordReader;
