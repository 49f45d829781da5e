//! The recording of a session while it runs: line by line into the files of a run, with an
//! acknowledgement for each event that stands there.
#![tactic(auto)]

mod acknowledging;
mod errors;
mod line_reader;
mod live;
mod recording;

pub use errors::LiveError;
pub use line_reader::LineReader;
pub use live::{LiveEnd, RunFiles, record_live};
