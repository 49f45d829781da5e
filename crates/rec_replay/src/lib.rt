//! Replays of recorded runs: recorded events become live ones again, and reporters show them.
#![tactic(auto)]

mod context;
mod conversion;
mod conversion_error;
mod core_conversion;
mod event_reporter;
mod header;
pub mod laws;
mod line_reporter;
mod lines;
mod loading;
mod output_load;
mod replay_reporter;
mod settings;

pub use context::ReplayContext;
pub use conversion_error::ReplayConversionError;
pub use event_reporter::{EventReporter, WriteEventError, write_event_dyn};
pub use header::ReplayHeader;
pub use line_reporter::LineReporter;
pub use output_load::{LoadOutput, OutputLoadDecider};
pub use replay_reporter::{ReplayReporter, ReplayReporterBuilder};
pub use settings::{
    Configuration, DisplaySettings, FinalStatusLevel, MaxProgressRunning, Redactor, ShowProgress,
    StatusLevel,
};
