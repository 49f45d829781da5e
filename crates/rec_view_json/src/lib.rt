//! What a viewer wants to know of a run, as one JSON object: its tests, their attempts and slices,
//! its pauses and its counts.
#![tactic(auto)]

mod attempts;
mod counts;
mod lists;
mod marks;
mod positions;
mod scripts;
mod slices;
mod statuses;
mod tests;
mod told;
mod view;

pub use view::view_text;
