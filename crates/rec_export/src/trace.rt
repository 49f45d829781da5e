//! The trace of a session's events.
ghost use Rattle.std.specs.Prelude.{◌≡◌, ◌≢◌, List, [], ◌∷◌, ◌++◌, IfOk, OnOk};
ghost use Rattle.semver.specs.Parse.{Parts};
ghost use Rattle.rec_spans.specs.declared.errors.ChromeTraceError.TheVariants.{OutOfMemory};
ghost use Rattle.rec_spans.specs.declared.settings.ChromeTraceGroupBy.{ChromeTraceGroupBy};
ghost use Rattle.rec_spans.specs.Plain.{PlainEvent, plain};
ghost use Rattle.rec_trace.specs.declared.settings.ChromeTraceMessageFormat.{
  ChromeTraceMessageFormat,
};
ghost use Rattle.rec_trace.specs.Traces.{trace_text};
ghost use Rattle.rec_export.specs.SessionTraces.{IsTraceOf, AnswersTrace};

use rec_errors::RecordExportError;
use rec_events::{LiveSpec, TestEventSummary, Version};
use rec_trace::{ChromeTraceError, ChromeTraceGroupBy, ChromeTraceMessageFormat, PrintedTrace};
use std::alloc::{AllocError, Global};

/// Holds the trace of the events so far, or why they have none. A refusal is kept while further
/// lines are read, since a line that fails comes before it.
#[derive(Drop)]
pub struct SessionTrace {
    trace: PrintedTrace,
    refusal: Option<ChromeTraceError>,
}

impl SessionTrace {
    /// Makes the trace of no event, of runs by this version of the runner,
    /// which is written in this form.
    pub fn new(
        alloc: Global,
        version: Version,
        group_by: ChromeTraceGroupBy,
        message_format: ChromeTraceMessageFormat,
    ) -> SessionTrace
        ensures { IsTraceOf message_format group_by version [] result }
    {
        SessionTrace {
            trace: PrintedTrace::new(alloc, version, group_by, message_format),
            refusal: None,
        }
    }

    /// Adds what an event shows.
    ///
    /// # Errors
    ///
    /// Fails only where memory ran out.
    pub fn add(
        &mut self,
        alloc: Global,
        event: &TestEventSummary<LiveSpec>,
    ) -> Result<(), AllocError>
        ensures { (format : ChromeTraceMessageFormat) (g : ChromeTraceGroupBy) (version : Parts)
            (events : List PlainEvent)
            → IsTraceOf format g version events self.old
            → OnOk result (IsTraceOf format g version (events ++ plain event.now ∷ []) self.new) }
    {
        if self.refusal.is_some() {
            return Ok(());
        }
        match self.trace.process_event(alloc, event) {
            Ok(()) => Ok(()),
            Err(error) => {
                self.refusal = Some(refusal_of(error)?);
                Ok(())
            }
        }
    }

    /// Drops the trace, by a call for the same reason as [`PrintedTrace::discard`].
    pub fn discard(self) {
        let SessionTrace { trace, refusal } = self;
        trace.discard();
        drop(refusal);
    }

    /// Writes the text of the trace, in UTF-8.
    ///
    /// # Errors
    ///
    /// Why there is no trace, or `OutOfMemory`.
    pub fn into_bytes(self, alloc: Global) -> Result<Vec<u8>, RecordExportError>
        ensures { (format : ChromeTraceMessageFormat) (g : ChromeTraceGroupBy) (version : Parts)
            (events : List PlainEvent)
            → IsTraceOf format g version events self
            → AnswersTrace version g events (trace_text format g version events) result }
    {
        let SessionTrace { trace, refusal } = self;
        match refusal {
            None => Ok(trace.into_bytes(alloc)?),
            Some(refusal) => {
                trace.discard();
                Err(RecordExportError::from(refusal))
            }
        }
    }
}

/// Returns why events have no trace, unless that is want of memory.
fn refusal_of(error: ChromeTraceError) -> Result<ChromeTraceError, AllocError>
    ensures { IfOk result (λ refusal. (refusal ≡ error) × (error ≢ OutOfMemory)) }
{
    match error {
        ChromeTraceError::OutOfMemory => Err(AllocError),
        ChromeTraceError::ReadError(_)
        | ChromeTraceError::MissingTestStart { .. }
        | ChromeTraceError::MissingScriptStart { .. }
        | ChromeTraceError::MissingStressSubRunStart { .. }
        | ChromeTraceError::SpanAlreadyOpen { .. }
        | ChromeTraceError::SlotBusy { .. }
        | ChromeTraceError::TimestampOutOfRange { .. }
        | ChromeTraceError::RowOutOfRange { .. }
        | ChromeTraceError::CountOutOfRange { .. } => Ok(error),
    }
}
