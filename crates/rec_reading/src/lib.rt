//! What is printed of a bundle: its manifest, the lines of its replay, its reports, how its slots
//! were used, which tests are to run again, and a view of its run.
#![tactic(auto)]

mod bundle_text;
mod events;
mod info;
mod outputs;
mod parts;
mod printer;
mod registration;
mod replay;
mod report;
mod report_printer;
mod rerun;
mod run;
mod slots;
mod view;

pub use bundle_text::{BundleText, Info, Replay, Report, Rerun, Slots, View};
pub use info::info_text;
pub use rec_errors::ReadingError;
pub use replay::replay_text;
pub use report::report_text;
pub use rerun::rerun_text;
pub use slots::slots_text;
pub use view::view_text;
