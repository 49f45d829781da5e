//! Salvage of a recording that was stopped: a bundle of the events that stand whole in its log,
//! with the outputs that they name.
#![tactic(auto)]

mod errors;
mod gathering;
mod log_lines;
mod metadata;
mod salvaging;
mod store;

pub use errors::SalvageError;
pub use salvaging::{Salvaged, salvage};
