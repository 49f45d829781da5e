//! How the slots of a run were used: for how long each ran an attempt, stood in a pause or idled.
#![tactic(auto)]

mod acts;
mod attempts;
mod beats;
mod clocks;
pub mod laws;
mod phases;
mod report;
mod times;
mod usage;
mod walk;

pub use report::{SlotError, SlotReport, SlotUsage};
pub use usage::slot_usage;
