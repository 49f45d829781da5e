//! The words of the command line: the commands and their options, the faults of words, and the
//! texts that say how the program is used.
#![tactic(auto)]

mod options;
mod usage;
mod words;

pub use rec_errors::WordsError;
pub use usage::{USAGE, versions};
pub use words::{Command, bundle_path, directory_path, read_words};
