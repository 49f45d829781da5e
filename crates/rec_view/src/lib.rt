//! What a viewer wants to know of the events of a run: its tests, what became of each, and their
//! attempts.
#![tactic(auto)]

mod acts;
mod counts;
mod instants;
pub mod laws;
mod scripts;
mod shown_gaps;
mod test_views;
mod unnamed;
mod verdicts;
mod view;
mod walk;

pub use counts::Counts;
pub use instants::Instants;
pub use scripts::ScriptView;
pub use shown_gaps::{ShownGaps, Slice};
pub use test_views::{Attempt, TestView};
pub use verdicts::Verdict;
pub use view::{RunView, view_events};
