//! The lines of sessions and event logs, and the JSON forms of events.
#![tactic(auto)]

mod core_kinds;
mod errors;
mod event;
mod event_parts;
pub mod laws;
mod line_events;
mod line_iter;
mod lines;
mod live;
mod loaded;
mod loaded_fields;
mod loaded_form;
mod log_lines;
mod output;
mod output_kinds;
mod run_kinds;
mod script_kinds;
mod script_status;
mod status;
mod test_kinds;

pub use errors::ToValueError;
pub use event::{event_from_node, event_from_value, event_to_value, write_event};
pub use line_events::{LineError, read_line};
pub use line_iter::LineIter;
pub use lines::{Line, Lines, line_end};
pub use loaded::has_all_outputs;
pub use loaded_form::LoadedForm;
pub use log_lines::log_line;
pub use output::OutputForm;
