//! The metadata of a recorded run, as it is used and as it stands in JSON.
ghost use Rattle.std.specs.Prelude.{◌≡◌, IfOk};
ghost use Rattle.rec_format.specs.Runs.{run_of, info_of};

use crate::{
    RecordedRunStatus, RecordedRunStatusFormat, RecordedSizes, RecordedSizesFormat,
    StoreFormatMajorVersion, StoreFormatMinorVersion, StoreFormatVersion,
};
use rec_events::{Duration, Items, ReportUuid, Stamp, Text, TextMap, TryClone, Version};
use std::alloc::{AllocError, Global};

/// Describes a recorded run, with its store's version as one value.
#[derive(Drop)]
pub struct RecordedRunInfo {
    /// The id of the run.
    pub run_id: ReportUuid,
    /// The version of the run's store.
    pub store_format_version: StoreFormatVersion,
    /// The version of the test runner.
    pub nextest_version: Version,
    /// When the run began.
    pub started_at: Stamp,
    /// When the recording was last written to.
    pub last_written_at: Stamp,
    /// How long the run took, where that is known.
    pub duration: Option<Duration>,
    /// The command line of the run.
    pub cli_args: Items<Text>,
    /// The environment variables that were kept of the run, by their names.
    pub env_vars: TextMap<Text>,
    /// The run of which this one is a rerun.
    pub parent_run_id: Option<ReportUuid>,
    /// The sizes of the run's event log and store.
    pub sizes: RecordedSizes,
    /// How the run ended, if it did.
    pub status: RecordedRunStatus,
}

impl RecordedRunInfo {
    /// Drops the information, by a call for the same reason as `PortableManifest::discard`.
    pub fn discard(self) {
        drop(self);
    }
}

/// Describes a recorded run as it stands in manifests and run lists, where the two numbers of its
/// store's version stand apart.
#[derive(Drop)]
pub struct RecordedRun {
    /// The id of the run.
    pub run_id: ReportUuid,
    /// The major version of the run's store.
    pub store_format_version: StoreFormatMajorVersion,
    /// The minor version of the run's store.
    pub store_format_minor_version: StoreFormatMinorVersion,
    /// The version of the test runner.
    pub nextest_version: Version,
    /// When the run began.
    pub started_at: Stamp,
    /// When the recording was last written to.
    pub last_written_at: Stamp,
    /// How long the run took, where that is known.
    pub duration: Option<Duration>,
    /// The command line of the run.
    pub cli_args: Items<Text>,
    /// The environment variables that were kept of the run, by their names.
    pub env_vars: TextMap<Text>,
    /// The run of which this one is a rerun.
    pub parent_run_id: Option<ReportUuid>,
    /// The sizes of the run's event log and store.
    pub sizes: RecordedSizesFormat,
    /// How the run ended, if it did.
    pub status: RecordedRunStatusFormat,
}

/// Copies what a run's metadata owns, in one call: each copy in place would be held over the next.
pub(crate) fn copied(
    alloc: Global,
    nextest_version: &Version,
    cli_args: &Items<Text>,
    env_vars: &TextMap<Text>,
) -> Result<(Version, Items<Text>, TextMap<Text>), AllocError>
    ensures { IfOk result (λ copies. copies ≡ (nextest_version.now, cli_args.now, env_vars.now)) }
{
    let nextest_version = nextest_version.try_clone(alloc)?;
    let cli_args = cli_args.try_clone(alloc)?;
    let env_vars = env_vars.try_clone(alloc)?;
    Ok((nextest_version, cli_args, env_vars))
}

impl RecordedRun {
    /// Makes the run of this metadata, field by field.
    ///
    /// # Errors
    ///
    /// `AllocError` where memory is short.
    pub fn from_info(alloc: Global, info: &RecordedRunInfo) -> Result<RecordedRun, AllocError>
        ensures { IfOk result (λ run. run ≡ run_of info.now) }
    {
        let (nextest_version, cli_args, env_vars) = copied(
            alloc,
            &info.nextest_version,
            &info.cli_args,
            &info.env_vars,
        )?;
        let status = RecordedRunStatusFormat::from(info.status);
        Ok(RecordedRun {
            run_id: info.run_id,
            store_format_version: info.store_format_version.major,
            store_format_minor_version: info.store_format_version.minor,
            nextest_version,
            started_at: info.started_at,
            last_written_at: info.last_written_at,
            duration: info.duration,
            cli_args,
            env_vars,
            parent_run_id: info.parent_run_id,
            sizes: info.sizes.into(),
            status,
        })
    }

    /// Copies the metadata of the run, field by field.
    ///
    /// # Errors
    ///
    /// `AllocError` where memory is short.
    pub fn to_info(&self, alloc: Global) -> Result<RecordedRunInfo, AllocError>
        ensures { IfOk result (λ info. info ≡ info_of self.now) }
    {
        let (nextest_version, cli_args, env_vars) = copied(
            alloc,
            &self.nextest_version,
            &self.cli_args,
            &self.env_vars,
        )?;
        Ok(RecordedRunInfo {
            run_id: self.run_id,
            store_format_version: StoreFormatVersion::new(
                self.store_format_version,
                self.store_format_minor_version,
            ),
            nextest_version,
            started_at: self.started_at,
            last_written_at: self.last_written_at,
            duration: self.duration,
            cli_args,
            env_vars,
            parent_run_id: self.parent_run_id,
            sizes: self.sizes.into(),
            status: self.status.into(),
        })
    }
}
