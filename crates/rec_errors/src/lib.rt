//! Why the program doesn't do what it is asked: faulty words, a session that isn't exported, a
//! bundle of which nothing is printed.
#![tactic(auto)]

mod export_error;
mod reading_error;
mod words_error;

pub use export_error::RecordExportError;
pub use reading_error::ReadingError;
pub use words_error::WordsError;
