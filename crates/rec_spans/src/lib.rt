//! The spans of a test run: which are open after each event,
//! and why a history of events is refused.
#![tactic(auto)]

mod acts;
mod binaries;
mod commits;
mod errors;
mod judged;
mod judging;
pub mod laws;
mod open_spans;
mod opened;
mod script_notes;
mod settings;
mod span_tracker;
mod spans;
mod starts;

pub use errors::{ChromeTraceError, RecordReadErrorText};
pub use judged::JudgedEvent;
pub use open_spans::OpenSpans;
pub use opened::OpenedEvent;
pub use settings::ChromeTraceGroupBy;
pub use span_tracker::SpanTracker;
pub use spans::{Phase, Place, Span, SpanKey};
