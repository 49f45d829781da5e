//! What the program `rezovamy` does: it records a test run, or one that it makes, into a portable
//! bundle, draws the trace of a run that it records or that a bundle holds, prints the events, the
//! reports and the manifest of a bundle, and upgrades or salvages one. It records a run while it
//! goes on, and packs what such a recording left.
//!
//! The program itself only hands over the words, the standard streams and the files. So whatever it
//! promises is a clause of `run_program`, and others can call `record_and_export` with a source, a
//! namer and sinks of their own.
#![tactic(auto)]

mod counts;
mod live;
mod log_trace;
mod pack;
mod program;
mod reading;
mod salvage;
mod salvage_refusal;
mod sample;
mod streams;
mod trace;

pub use program::run_program;
pub use rec_export::{Exported, RecordExportError, Settings, laws, record_and_export};
pub use rec_faults::{FAULTY_WORDS, Line, OUT_OF_MEMORY, Refusal, refuse, write_fault};
pub use rec_live_recording::RunFiles;
pub use rec_reading::ReadingError;
pub use rec_words::{Command, WordsError, bundle_path, directory_path, read_words};
pub use streams::{Ended, Streams};
pub use trace::{Trace, trace_text};
