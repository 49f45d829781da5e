//! Makes a bundle of a run's directory.
#![tactic(auto)]

mod errors;
mod names;
mod packing;
mod replacing;
mod run_files;
mod writer;

pub use errors::PortableRecordingError;
pub use names::temporary_path;
pub use packing::PortableRecordingResult;
pub use replacing::replace_file;
pub use writer::PortableRecordingWriter;
