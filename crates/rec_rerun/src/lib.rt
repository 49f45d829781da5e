//! Which tests are to run again: what a run's log and what it reruns say of each test, and what of
//! a list of tests is to run by that.
#![tactic(auto)]

mod acts;
mod plan;
mod selection;
mod standings;
mod suites;

pub use plan::{RerunPlan, plan_rerun};
pub use selection::{RerunSelector, select_rerun};
