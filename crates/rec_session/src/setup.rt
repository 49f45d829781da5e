//! How a session is set up.
ghost use Rattle.std.specs.Prelude.{◌≡◌, ◌≤◌, IfErr, IfOk, string_bytes};
ghost use Rattle.rec_session.specs.Keepers.{Told};
ghost use Rattle.rec_session.specs.SettingUp.{refusal_of, CreatesLocked};
ghost use Rattle.rec_session.specs.SettingUp.{IsRefusalCause, LocksState};

use crate::keeper::{KeeperError, RunKeeper};
use crate::session::RecordSession;
use rec_container::Sink;
use rec_events::{Items, ReportUuid, Stamp, Text, TextMap, Version};
use rec_format::{
    RecordedBuildScope, RecordedRunInfo, RerunInfo, ShortestRunIdPrefix, StoreFormatVersion,
};
use rec_store::{OutputNamer, RunRecorder, RunStoreError};
use std::fmt;
use thiserror::Error;

/// Says what a session is to record.
#[derive(Drop)]
pub struct RecordSessionConfig<'a> {
    /// The root of the workspace, by which the keeper finds the state's directory.
    pub workspace_root: &'a str,
    /// The id of the run.
    pub run_id: ReportUuid,
    /// The version of the run's store.
    pub store_format_version: StoreFormatVersion,
    /// The version of the test runner.
    pub nextest_version: Version,
    /// When the run began.
    pub started_at: Stamp,
    /// The command line of the run.
    pub cli_args: Items<Text>,
    /// What was built for the run.
    pub build_scope: RecordedBuildScope,
    /// The environment variables that are kept of the run, by their names.
    pub env_vars: TextMap<Text>,
    /// The most bytes of an output that are kept.
    pub max_output_size: u64,
    /// What the run is a rerun of, if it is one.
    pub rerun_info: Option<RerunInfo>,
}

/// Says why no recorder was made.
#[derive(Debug, Drop, Error)]
pub enum RecorderCreateError {
    /// The keeper did not create the run.
    #[error("creating the run failed")]
    Keeper,
    /// The recorder refused what was built, or what the run is a rerun of.
    #[error("storing the run's metadata failed")]
    Store(RunStoreError),
}

/// Says why no session was set up.
#[derive(Debug, Drop, Error)]
pub enum RecordSetupError {
    /// The keeper did not answer the directory of the workspace's state.
    #[error("the state directory was not found")]
    StateDirNotFound,
    /// The keeper did not open the store.
    #[error("opening the store failed")]
    StoreCreate,
    /// The keeper did not lock the store.
    #[error("locking the store failed")]
    StoreLock,
    /// No recorder was made.
    #[error("no recorder was made")]
    RecorderCreate(RecorderCreateError),
    /// Memory ran out.
    #[error("out of memory")]
    OutOfMemory,
}

/// Holds a session that was set up, and the recorder of its run.
#[derive(Drop)]
pub struct RecordSessionSetup<'n, S: Sink, L: Sink, N: OutputNamer> {
    /// The session.
    pub session: RecordSession,
    /// The recorder of its run.
    pub recorder: RunRecorder<'n, S, L, N>,
}

/// Says why no session was set up, and hands the sinks back.
#[derive(Drop, Error)]
#[error("{error}")]
pub struct RecordSetupFailed<S, L> {
    /// Why no session was set up.
    pub error: RecordSetupError,
    /// The sink of the store.
    pub store: S,
    /// The sink of the log.
    pub log: L,
}

/// Prints the error as `Display` does, since sinks needn't have `Debug`.
impl<S, L> fmt::Debug for RecordSetupFailed<S, L> {
    fn fmt<W: fmt::Write>(&self, f: &mut fmt::Formatter<W>) -> fmt::Result {
        fmt::Display::fmt(self, f)
    }
}

/// Makes a keeper's error the refusal of its call, or want of memory.
fn or_refuse<T>(
    answer: Result<T, KeeperError>,
    refusal: RecordSetupError,
) -> Result<T, RecordSetupError>
    ensures { result ≡ refusal_of refusal answer }
{
    match answer {
        Ok(value) => {
            drop(refusal);
            Ok(value)
        }
        Err(KeeperError::Failed) => Err(refusal),
        Err(KeeperError::OutOfMemory) => {
            drop(refusal);
            Err(RecordSetupError::OutOfMemory)
        }
    }
}

/// Finds the directory of the state that belongs to a workspace, and locks the store in it.
///
/// # Errors
///
/// `StateDirNotFound`, `StoreCreate` or `StoreLock` by the call that failed, or `OutOfMemory`.
pub(crate) fn lock_state<K: RunKeeper>(
    keeper: &mut K,
    workspace_root: &str,
) -> Result<String, RecordSetupError>
    ensures told { Told (K.known keeper.old) (K.known keeper.new)
        (λ k j. LocksState (K.directory workspace_root.now) k j result) }
    ensures named { IfOk result (λ dir. string_bytes dir ≡ K.directory workspace_root.now) }
    ensures cause { IfErr result (IsRefusalCause (K.faults keeper.old) (K.faults keeper.new)) }
    ensures later { K.faults keeper.old ≤ K.faults keeper.new }
{
    let state_dir = or_refuse(
        keeper.state_dir(workspace_root),
        RecordSetupError::StateDirNotFound,
    )?;
    or_refuse(
        keeper.open_store(state_dir.as_str()),
        RecordSetupError::StoreCreate,
    )?;
    or_refuse(keeper.lock(), RecordSetupError::StoreLock)?;
    Ok(state_dir)
}

/// Creates a run.
///
/// # Errors
///
/// `RecorderCreate(Keeper)` where the keeper failed, or `OutOfMemory`.
pub(crate) fn create_run<K: RunKeeper>(
    keeper: &mut K,
    run: RecordedRunInfo,
) -> Result<ShortestRunIdPrefix, RecordSetupError>
    ensures told { Told (K.known keeper.old) (K.known keeper.new)
        (λ k j. CreatesLocked run k j result) }
    ensures cause { IfErr result (IsRefusalCause (K.faults keeper.old) (K.faults keeper.new)) }
    ensures later { K.faults keeper.old ≤ K.faults keeper.new }
{
    let created = keeper.create_run(&run);
    drop(run);
    or_refuse(
        created,
        RecordSetupError::RecorderCreate(RecorderCreateError::Keeper),
    )
}
