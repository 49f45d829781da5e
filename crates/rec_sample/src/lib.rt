//! A generated session of any size, to try a program on.
#![tactic(auto)]

mod attempts;
mod batches;
mod events;
mod head;
mod instants;
pub mod laws;
mod names;
mod session;

pub use session::{MAX_TESTS, sample_session};
