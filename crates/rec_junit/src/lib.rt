//! The report of a run, for tools of continuous integration.
#![tactic(auto)]

mod additions;
mod builder;
mod describer;
mod errors;
mod failing;
mod other_cases;
mod report;
mod reruns;
mod shell;
mod stored_outputs;
mod suite_keys;
mod suites;
mod test_cases;
mod texts;
mod values;

pub use builder::JunitBuilder;
pub use describer::{ErrorDescriber, ErrorText, PlainDescriber};
pub use errors::JunitError;
pub use report::{
    JunitCase, JunitKind, JunitProperty, JunitReport, JunitRerun, JunitRerunKind, JunitStatus,
    JunitSuite,
};
pub use shell::shell_join;
pub use values::{report_text, report_to_value};
