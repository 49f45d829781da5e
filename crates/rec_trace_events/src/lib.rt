//! The events of a trace as JSON texts: what each of them is, whatever came before it.
#![tactic(auto)]

mod args;
mod arrows;
mod attempt_args;
mod counters;
mod counts;
mod error_args;
mod event;
mod event_parts;
mod instants;
pub mod laws;
mod members;
mod metadata;
mod row_names;
mod rows;
mod run_args;
mod script_args;
mod slices;
mod test_args;

pub use args::{Args, NoArgs};
pub use arrows::{arrow_finish, arrow_start};
pub use attempt_args::{FailedAttemptArgs, LastAttemptArgs, counted_flaky_result};
pub use counters::{concurrency_event, results_event};
pub use counts::{RunningCounts, TestCounts};
pub use event::TraceEvent;
pub use instants::{RunMark, mark_event, slow_event};
pub use metadata::{process_metadata, thread_metadata};
pub use row_names::{run_process_name, script_name, slot_name};
pub use rows::{Category, Row};
pub use run_args::{RunBeginArgs, RunEndArgs, SubRunBeginArgs, SubRunEndArgs};
pub use script_args::{ScriptEndArgs, SlowScriptArgs};
pub use slices::{begin_event, end_event};
pub use test_args::{RetryBeginArgs, SlowTestArgs, TestBeginArgs};
