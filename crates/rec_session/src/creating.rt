//! How the recorder of a session begins.
ghost use Rattle.std.specs.Prelude.{◌≡◌, ◌≤◌, [], ◌∷◌, IfOk, IfErr, OnOk};
ghost use Rattle.rec_store.specs.Recording.{KeepsCounts, Stores, Unstored};
ghost use Rattle.rec_store.specs.Store.{build_scope_entry};
ghost use Rattle.rec_session.specs.Creating.{Ends, first_entries, new_recorder};
ghost use Rattle.rec_session.specs.SettingUp as setting_up;
ghost use Rattle.rec_session.specs.SettingUp.{begun_run, EndsRefused, IsStartCause};

use crate::setup::{RecordSessionConfig, RecordSetupError, RecordSetupFailed, RecorderCreateError};
use rec_container::Sink;
use rec_format::{
    RecordedBuildScope, RecordedRunInfo, RecordedRunStatus, RecordedSizes, RerunInfo,
};
use rec_store::{OutputNamer, RecorderEnd, RunRecorder, RunStoreError};
use std::alloc::Global;

/// Holds the sinks of a recorder that is to be made, and what it stores first.
#[derive(Drop)]
pub(crate) struct RecorderPlan<'n, S, L, N> {
    pub(crate) store: S,
    pub(crate) log: L,
    pub(crate) namer: &'n N,
    pub(crate) max_output_size: u64,
    pub(crate) build_scope: RecordedBuildScope,
    pub(crate) rerun_info: Option<RerunInfo>,
}

/// Returns the run that a session creates, and the plan of its recorder.
pub(crate) fn planned<'n, S, L, N>(
    config: RecordSessionConfig<'_>,
    store: S,
    log: L,
    namer: &'n N,
) -> (RecordedRunInfo, RecorderPlan<'n, S, L, N>)
    ensures run { result.0 ≡ begun_run config.entry }
    ensures plan { result.1 ≡ record {
      store = store;
      log = log;
      namer = namer.entry;
      max_output_size = config.entry.max_output_size;
      build_scope = config.entry.build_scope;
      rerun_info = config.entry.rerun_info;
    } }
{
    let parent_run_id = config.rerun_info.as_ref().map(|rerun| rerun.parent_run_id);
    let run = RecordedRunInfo {
        run_id: config.run_id,
        store_format_version: config.store_format_version,
        nextest_version: config.nextest_version,
        started_at: config.started_at,
        last_written_at: config.started_at,
        duration: None,
        cli_args: config.cli_args,
        env_vars: config.env_vars,
        parent_run_id,
        sizes: RecordedSizes::default(),
        status: RecordedRunStatus::Incomplete,
    };
    let plan = RecorderPlan {
        store,
        log,
        namer,
        max_output_size: config.max_output_size,
        build_scope: config.build_scope,
        rerun_info: config.rerun_info,
    };
    (run, plan)
}

impl<'n, S: Sink, L: Sink, N: OutputNamer> RecorderPlan<'n, S, L, N> {
    /// Hands the sinks back beside this error.
    pub(crate) fn refuse(self, error: RecordSetupError) -> RecordSetupFailed<S, L>
        ensures { result
            ≡ record { error = error; store = self.entry.store; log = self.entry.log } }
    {
        let RecorderPlan {
            store,
            log,
            namer: _,
            max_output_size: _,
            build_scope,
            rerun_info,
        } = self;
        drop(build_scope);
        drop(rerun_info);
        RecordSetupFailed { error, store, log }
    }

    /// Makes the recorder, which stores what was built, and what the run is a rerun of.
    ///
    /// # Errors
    ///
    /// `RecorderCreate(Store(error))` where the recorder refused with this error, or `OutOfMemory`.
    /// The recorder is ended, and its sinks stand beside the error.
    pub(crate) fn start(
        self,
        alloc: Global,
    ) -> Result<RunRecorder<'n, S, L, N>, RecordSetupFailed<S, L>>
        ensures ok { IfOk result (λ r. Stores S.taken S.faults
            (new_recorder self.entry.store self.entry.log self.entry.namer.now
            self.entry.max_output_size) r
            (first_entries self.entry.build_scope self.entry.rerun_info)) }
        ensures err { IfErr result (λ f. EndsRefused S.taken S.faults
            (new_recorder self.entry.store self.entry.log self.entry.namer.now
            self.entry.max_output_size)
            (first_entries self.entry.build_scope self.entry.rerun_info) f.error f.store) }
        ensures cause { IfErr result
            (λ f. IsStartCause (first_entries self.entry.build_scope self.entry.rerun_info)
            (S.faults self.entry.store) (S.faults f.store) f.error) }
        ensures log { IfErr result (λ f. f.log ≡ self.entry.log) }
    {
        let RecorderPlan {
            store,
            log,
            namer,
            max_output_size,
            build_scope,
            rerun_info,
        } = self;
        let mut recorder = RunRecorder::new(alloc, store, log, namer, max_output_size);
        let written = write_first(&mut recorder, build_scope, rerun_info);
        match written {
            Ok(()) => Ok(recorder),
            Err(error) => Err(end_refused(recorder, error)),
        }
    }
}

/// Stores what was built, and what the run is a rerun of.
fn write_first<S: Sink, L: Sink, N: OutputNamer>(
    recorder: &mut RunRecorder<'_, S, L, N>,
    build_scope: RecordedBuildScope,
    rerun_info: Option<RerunInfo>,
) -> Result<(), RunStoreError>
    requires fresh { recorder.old.store.entries ≡ [] }
    ensures ok { OnOk result
        (Stores S.taken S.faults recorder.old recorder.new (first_entries build_scope rerun_info)) }
    ensures err { IfErr result
        (Unstored S.taken S.faults recorder.old recorder.new
        (first_entries build_scope rerun_info)) }
    ensures log { recorder.new.log ≡ recorder.old.log }
    ensures later { S.faults recorder.old.store.sink ≤ S.faults recorder.new.store.sink }
{
    let written = write_scope(recorder, build_scope);
    match rerun_info {
        Some(rerun_info) => {
            written?;
            recorder.write_rerun_info(&rerun_info)
        }
        None => written,
    }
}

/// Stores what was built.
fn write_scope<S: Sink, L: Sink, N: OutputNamer>(
    recorder: &mut RunRecorder<'_, S, L, N>,
    build_scope: RecordedBuildScope,
) -> Result<(), RunStoreError>
    ensures ok { OnOk result
        (Stores S.taken S.faults recorder.old recorder.new (build_scope_entry build_scope ∷ [])) }
    ensures err { IfErr result
        (Unstored S.taken S.faults recorder.old recorder.new (build_scope_entry build_scope ∷ [])) }
    ensures later { KeepsCounts S.faults L.faults recorder.old recorder.new }
{
    recorder.write_build_scope(&build_scope)
}

/// Ends a recorder that refused, and hands its sinks back.
fn end_refused<S: Sink, L: Sink, N: OutputNamer>(
    recorder: RunRecorder<'_, S, L, N>,
    error: RunStoreError,
) -> RecordSetupFailed<S, L>
    ensures error { result.error ≡ setting_up.store_refusal error }
    ensures log { result.log ≡ recorder.entry.log }
    ensures ends { Ends S.taken S.faults recorder.entry result.store }
    ensures later { S.faults recorder.entry.store.sink ≤ S.faults result.store }
{
    let RecorderEnd { result, store, log } = recorder.finish();
    drop(result);
    RecordSetupFailed {
        error: store_refusal(error),
        store,
        log,
    }
}

/// Returns the refusal of a session whose recorder refused.
fn store_refusal(error: RunStoreError) -> RecordSetupError
    ensures { result ≡ setting_up.store_refusal error }
{
    if matches!(&error, RunStoreError::OutOfMemory) {
        return RecordSetupError::OutOfMemory;
    }
    RecordSetupError::RecorderCreate(RecorderCreateError::Store(error))
}
