//! Sources and sinks in memory that end, fail or run full as a caller says,
//! for trying what reads and writes.
#![tactic(auto)]

mod failing;
mod memory;

pub use failing::{FailingSink, FailingSource};
pub use memory::{EndlessSource, MemorySink};
