//! The bundle of a run's directory, of a run that was recorded to its end or was stopped.
#![tactic(auto)]

mod errors;
mod packing;
mod run;

pub use errors::PackError;
pub use packing::{Packed, pack};
