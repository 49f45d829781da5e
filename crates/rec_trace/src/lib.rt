//! The trace of a test run: a timeline for trace viewers, in which pauses are gaps.
#![tactic(auto)]

mod build_error;
mod builder;
mod convert;
mod drawing;
mod event_texts;
mod known;
pub mod laws;
mod layout;
mod other_data;
mod printed;
pub mod printed_laws;
mod printed_trace;
mod putting;
mod run_start;
mod settings;
mod target;
mod tracer;
mod vec_target;
mod whole_text;

pub use build_error::TraceBuildError;
pub use builder::TraceBuilder;
pub use convert::convert_to_chrome_trace;
pub use printed_trace::PrintedTrace;
pub use rec_spans::{ChromeTraceError, ChromeTraceGroupBy, RecordReadErrorText, SpanKey};
pub use rec_trace_events::TraceEvent;
pub use settings::ChromeTraceMessageFormat;
pub use target::{TargetFailed, TraceTarget};
pub use vec_target::VecTarget;
