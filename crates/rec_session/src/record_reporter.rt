//! The reporter that records a run.
ghost use Rattle.std.specs.Prelude.{◌≡◌, None};
ghost use Rattle.rec_session.specs.Reporting.{Ends, Records, ReportsEvent, ReportsMeta, end_result};

use rec_container::Sink;
use rec_events::{RecordOpts, TestEvent, TestListSummary};
use rec_store::{OutputNamer, RecorderEnd, RunRecorder, RunStoreError, StoreSizes};
use rec_summaries::from_test_event;
use std::alloc::Global;
use thiserror::Error;

/// Says why a run was not recorded whole.
#[derive(Debug, Drop, Error)]
pub enum RecordReporterError {
    /// The recorder refused a write or its end, or memory ran out.
    #[error("recording failed: {0}")]
    RunStore(RunStoreError),
}

/// Says how a record reporter ended, and holds its sinks.
#[derive(Drop)]
pub struct ReporterEnd<S, L> {
    /// The sizes of log and store, or the first error.
    pub result: Result<StoreSizes, RecordReporterError>,
    /// The sink of the store.
    pub store: S,
    /// The sink of the log.
    pub log: L,
}

/// Records what a run reports, until the first error, want of memory included. The error is kept,
/// and what is reported after it is dropped; [`RecordReporter::finish`] returns it.
#[derive(Drop)]
pub struct RecordReporter<'n, S: Sink, L: Sink, N: OutputNamer> {
    recorder: RunRecorder<'n, S, L, N>,
    error: Option<RecordReporterError>,
}

impl<'n, S: Sink, L: Sink, N: OutputNamer> RecordReporter<'n, S, L, N> {
    /// Makes a reporter without an error, which records by this recorder.
    pub fn new(run_recorder: RunRecorder<'n, S, L, N>) -> RecordReporter<'n, S, L, N>
        ensures recorder { result.recorder ≡ run_recorder.entry }
        ensures error { result.error ≡ None }
    {
        RecordReporter {
            recorder: run_recorder,
            error: None,
        }
    }

    /// Stores test list, cargo's metadata and options by [`RunRecorder::write_meta`], and keeps its
    /// error. Nothing is done where an error is kept already.
    pub fn write_meta(
        &mut self,
        cargo_metadata_json: &str,
        test_list: &TestListSummary,
        opts: &RecordOpts,
    )
        ensures { ReportsMeta S.taken S.faults L.faults self.old cargo_metadata_json.now
            test_list.now opts.now self.new }
    {
        if self.error.is_some() {
            return;
        }
        let written = self
            .recorder
            .write_meta(cargo_metadata_json, test_list, opts);
        self.error = written.err().map(RecordReporterError::RunStore);
    }

    /// Records an event by [`RunRecorder::write_event`], and keeps its error or want of memory. An
    /// event that only informs is skipped. Nothing is done where an error is kept already.
    pub fn write_event(&mut self, alloc: Global, event: &TestEvent<'_>)
        ensures { ReportsEvent S.taken S.faults L.taken L.faults N.number self.old event.now
            self.new }
    {
        if self.error.is_none() {
            let recorded = record(alloc, &mut self.recorder, event);
            self.error = recorded.err().map(RecordReporterError::RunStore);
        }
    }

    /// Ends the recorder by [`RunRecorder::finish`], whether an error is kept or not, and hands
    /// back both sinks.
    ///
    /// # Errors
    ///
    /// - The kept error, where there is one.
    /// - Otherwise the error of the recorder's own call.
    pub fn finish(self) -> ReporterEnd<S, L>
        ensures { Ends S.taken S.faults self.entry result }
    {
        let RecordReporter { recorder, error } = self;
        let RecorderEnd {
            result: ended,
            store,
            log,
        } = recorder.finish();
        ReporterEnd {
            result: first_error(error, ended),
            store,
            log,
        }
    }
}

/// Returns the kept error, or where there is none what the recorder's end returned.
fn first_error(
    error: Option<RecordReporterError>,
    ended: Result<StoreSizes, RunStoreError>,
) -> Result<StoreSizes, RecordReporterError>
    ensures { result ≡ end_result error ended }
{
    match error {
        Some(error) => Err(error),
        None => ended.map_err(RecordReporterError::RunStore),
    }
}

/// Records an event, unless it only informs.
fn record<S: Sink, L: Sink, N: OutputNamer>(
    alloc: Global,
    recorder: &mut RunRecorder<'_, S, L, N>,
    event: &TestEvent<'_>,
) -> Result<(), RunStoreError>
    ensures { Records S.taken S.faults L.taken L.faults N.number recorder.old event.now result
        recorder.new }
{
    match from_test_event(alloc, event)? {
        Some(summary) => recorder.write_event(summary),
        None => Ok(()),
    }
}
