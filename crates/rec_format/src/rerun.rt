//! What a rerun is a rerun of.
ghost use Rattle.std.specs.Prelude.{◌≡◌};

use crate::{RecordedBuildScope, RerunSuites};
use rec_events::ReportUuid;

/// Describes the first run of a chain of reruns, and what was built for it.
#[derive(Drop)]
pub struct RerunRootInfo {
    /// The id of the first run.
    pub run_id: ReportUuid,
    /// What was built for the first run.
    pub build_scope: RecordedBuildScope,
}

impl RerunRootInfo {
    /// Makes the description of the first run of a chain, and of what was built for it.
    pub fn new(run_id: ReportUuid, build_scope: RecordedBuildScope) -> Self
        ensures { result ≡ record { run_id = run_id; build_scope = build_scope } }
    {
        RerunRootInfo {
            run_id,
            build_scope,
        }
    }
}

/// Describes what a rerun is a rerun of, and which tests had passed by then.
#[derive(Drop)]
pub struct RerunInfo {
    /// The run just before this one.
    pub parent_run_id: ReportUuid,
    /// The first run of the chain.
    pub root_info: RerunRootInfo,
    /// The tests that had passed by then, and those that are still to pass, by binary.
    pub test_suites: RerunSuites,
}
