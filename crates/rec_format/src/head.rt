//! The first line of a session.
ghost use Rattle.std.specs.Prelude.{◌≡◌, IfOk};
ghost use Rattle.rec_format.specs.Runs.{recorded_info};

use crate::run::copied;
use crate::{
    RecordedBuildScope, RecordedRunInfo, RecordedRunStatus, RecordedSizes, RerunInfo,
    STORE_FORMAT_VERSION,
};
use rec_events::{
    Duration, Items, RecordOpts, ReportUuid, Stamp, TestListSummary, Text, TextMap, Version,
};
use std::alloc::{AllocError, Global};

/// Describes a session: what is known of a run beside its events. `docs/FORMATS.md#head` has its
/// JSON.
#[derive(Drop)]
pub struct SessionHead {
    /// The id of the run.
    pub run_id: ReportUuid,
    /// The version of the test runner.
    pub nextest_version: Version,
    /// When the run began.
    pub started_at: Stamp,
    /// When the recording was last written to.
    pub last_written_at: Stamp,
    /// How long the run took, where that is known.
    pub duration: Option<Duration>,
    /// The command line of the run.
    pub cli_args: Items<Text>,
    /// The environment variables that were kept of the run, by their names.
    pub env_vars: TextMap<Text>,
    /// The run of which this one is a rerun.
    pub parent_run_id: Option<ReportUuid>,
    /// How the run ended, if it did.
    pub status: RecordedRunStatus,
    /// What cargo printed about the workspace, as JSON.
    pub cargo_metadata: Text,
    /// The tests of the run, by binary.
    pub test_list: TestListSummary,
    /// What a replay has to know of how the run was made.
    pub record_opts: RecordOpts,
    /// What was built for the run.
    pub build_scope: RecordedBuildScope,
    /// What the run is a rerun of; `None` where it is no rerun.
    pub rerun_info: Option<RerunInfo>,
}

impl SessionHead {
    /// Makes the metadata of the run as it is recorded: that of the head, with the store's version
    /// and the sizes of its log and store.
    ///
    /// # Errors
    ///
    /// `AllocError` where memory is short.
    pub fn run_info(
        &self,
        alloc: Global,
        sizes: RecordedSizes,
    ) -> Result<RecordedRunInfo, AllocError>
        ensures { IfOk result (λ info. info ≡ recorded_info self.now sizes) }
    {
        let (nextest_version, cli_args, env_vars) = copied(
            alloc,
            &self.nextest_version,
            &self.cli_args,
            &self.env_vars,
        )?;
        Ok(RecordedRunInfo {
            run_id: self.run_id,
            store_format_version: STORE_FORMAT_VERSION,
            nextest_version,
            started_at: self.started_at,
            last_written_at: self.last_written_at,
            duration: self.duration,
            cli_args,
            env_vars,
            parent_run_id: self.parent_run_id,
            sizes,
            status: self.status,
        })
    }

    /// Drops the head. It is a call so that this is proved once, here: where a crate drops a head
    /// in place, its own proof goes over each part of the head again.
    pub fn discard(self) {
        drop(self);
    }
}
