//! What live events are recorded as.
#![tactic(auto)]

mod copies;
mod core_kinds;
mod output_kinds;
mod run_kinds;
mod script_kinds;
mod stress;
mod summaries;
mod test_kinds;

pub use summaries::from_test_event;
