//! Records a session into memory.
ghost use Rattle.std.specs.Option.{option_to_list};
ghost use Rattle.std.specs.Prelude.{◌≡◌, ◌⊎◌, ◌++◌, ◌∷◌, [], List, map, ℕ, false};
ghost use Rattle.std.specs.Prelude.{true, None, Some, Ok, length, IfOk, IfErr, OnOk};
ghost use Rattle.semver.specs.Parse.{Parts};
ghost use Rattle.rec_format.specs.declared.head.SessionHead.{SessionHead};
ghost use Rattle.rec_codec.specs.Event.{LiveEvent};
ghost use Rattle.rec_codec.specs.EventForms.{kind_loaded};
ghost use Rattle.rec_codec.specs.LineView.{line_view};
ghost use Rattle.rec_codec.specs.Live.{is_loaded};
ghost use Rattle.rec_store.specs.Bundle.{run_store};
ghost use Rattle.rec_store.specs.Recording.{Stores, has_failed};
ghost use Rattle.rec_store.specs.Store.{store_entries};
ghost use Rattle.rec_spans.specs.declared.settings.ChromeTraceGroupBy.{ChromeTraceGroupBy};
ghost use Rattle.rec_spans.specs.Plain.{PlainEvent, plain};
ghost use Rattle.rec_trace.specs.declared.settings.ChromeTraceMessageFormat.{
  ChromeTraceMessageFormat,
};
ghost use Rattle.rec_errors.specs.declared.export_error.RecordExportError.TheVariants.{OutOfMemory};
ghost use Rattle.rec_export.specs.declared.discarding.DiscardingSink.{DiscardingSink};
ghost use Rattle.rec_export.specs.Recorded.{HasRecorded, IsRunOf, RecordsEvent};
ghost use Rattle.rec_export.specs.Recorded.{RecordsLine, RecordsLines};
ghost use Rattle.rec_export.specs.RecorderFaults.{ComesOfEvent, ComesOfHead, event_fault};
ghost use Rattle.rec_export.specs.Session.{event_at, events_of, lines_refusal};
ghost use Rattle.rec_export.specs.SessionTraces.{IsTraceOf};
ghost use Rattle.rec_export.specs.Sizes.{entries_refusal};

use crate::discarding::DiscardingSink;
use crate::session_lines::SessionLines;
use crate::settings::Settings;
use crate::sizes::first_too_large;
use crate::trace::SessionTrace;
use rec_codec::{Line, read_line};
use rec_container::{ContainerWriter, GrowingSink, Sink};
use rec_errors::RecordExportError;
use rec_events::{LiveSpec, TestEventSummary, TryClone};
use rec_format::{RecordedSizes, SessionHead};
use rec_json::Scratch;
use rec_store::{OutputNamer, RunRecorder, RunStoreError, write_metadata};
use std::alloc::{AllocError, Global};

/// Holds a run that was recorded in memory.
#[derive(Drop)]
pub struct RecordedInMemory {
    /// The writer of the store, with all its entries.
    pub store: ContainerWriter<DiscardingSink>,
    /// The log.
    pub log: GrowingSink,
    /// The sizes of both.
    pub sizes: RecordedSizes,
    /// The refusal of the first entry of the store that is longer than the read limit, if one is.
    pub too_large: Option<RecordExportError>,
    /// The trace of its events.
    pub trace: SessionTrace,
}

/// Records a run into memory.
type MemoryRecorder<'n, N> = RunRecorder<'n, DiscardingSink, GrowingSink, N>;

/// Records a head, and the events of the lines after it.
///
/// # Errors
///
/// The first line's refusal, or `OutOfMemory`. Sinks in memory fail only for want of it, and a log
/// or store of more bytes than a u64 counts doesn't fit into it.
pub fn record_run<N: OutputNamer>(
    alloc: Global,
    settings: &Settings,
    namer: &N,
    head: &SessionHead,
    lines: SessionLines,
) -> Result<RecordedInMemory, RecordExportError>
    ensures valid { OnOk result
        (lines_refusal (N.number namer.now) settings.now.max_output [] lines ≡ None) }
    ensures run { IfOk result
        (λ r. IsRunOf (N.number namer.now) settings.now.max_output head.now (events_of lines)
        r.store.entries r.log.bytes r.sizes) }
    ensures too_large { IfOk result (λ r. r.too_large
        ≡ entries_refusal settings.now.read_limit
        (run_store (N.number namer.now) settings.now.max_output head.now (events_of lines))) }
    ensures traced { IfOk result
        (λ r. IsTraceOf settings.now.message_format settings.now.group_by head.now.nextest_version
        (map plain (events_of lines)) r.trace) }
    ensures err { IfErr result (λ e. (e ≡ OutOfMemory)
        ⊎ (lines_refusal (N.number namer.now) settings.now.max_output [] lines ≡ Some e)) }
{
    let mut trace = new_trace(alloc, settings, head)?;
    let mut recorder = RunRecorder::new(
        alloc,
        DiscardingSink,
        GrowingSink::new(alloc),
        namer,
        settings.max_output,
    );
    // Recorder and trace are let go of by calls: in place,
    // each of their parts would be a case of the proof.
    let Ok(()) = record_head(&mut recorder, head) else {
        drop(recorder);
        trace.discard();
        return Err(RecordExportError::OutOfMemory);
    };
    match record_lines(alloc, lines, &mut recorder, &mut trace) {
        Ok(()) => end_run(alloc, settings.read_limit, recorder, trace),
        Err(error) => {
            drop(recorder);
            trace.discard();
            Err(error)
        }
    }
}

/// Makes the trace of a run with this head, without an event so far.
fn new_trace(
    alloc: Global,
    settings: &Settings,
    head: &SessionHead,
) -> Result<SessionTrace, AllocError>
    ensures { IfOk result
        (IsTraceOf settings.now.message_format settings.now.group_by head.now.nextest_version []) }
{
    let version = head.nextest_version.try_clone(alloc)?;
    Ok(SessionTrace::new(alloc, version, settings.group_by, settings.message_format))
}

/// Judges the sizes of the store's entries, and takes a recording apart.
fn end_run<N: OutputNamer>(
    alloc: Global,
    limit: u64,
    recorder: MemoryRecorder<'_, N>,
    trace: SessionTrace,
) -> Result<RecordedInMemory, RecordExportError>
    ensures run { (namer : N) (m : ℕ) (head : SessionHead) (events : List LiveEvent)
        → HasRecorded N.number namer m head events recorder.entry
        → IfOk result
        (λ r. IsRunOf (N.number namer) m head events r.store.entries r.log.bytes r.sizes) }
    ensures too_large { (namer : N) (m : ℕ) (head : SessionHead) (events : List LiveEvent)
        → HasRecorded N.number namer m head events recorder.entry
        → IfOk result
        (λ r. r.too_large ≡ entries_refusal limit (run_store (N.number namer) m head events)) }
    ensures traced { IfOk result (λ r. r.trace ≡ trace) }
    ensures err { IfErr result (λ e. e ≡ OutOfMemory) }
{
    let Ok(too_large) = first_too_large(alloc, limit, recorder.store()) else {
        drop(recorder);
        trace.discard();
        return Err(RecordExportError::OutOfMemory);
    };
    let sizes = recorder.sizes();
    let (store, log) = recorder.into_parts();
    Ok(RecordedInMemory {
        store,
        log,
        sizes: RecordedSizes {
            log: sizes.log,
            store: sizes.store,
        },
        too_large,
        trace,
    })
}

/// Records the events of lines, and traces them.
fn record_lines<N: OutputNamer>(
    alloc: Global,
    mut lines: SessionLines,
    recorder: &mut MemoryRecorder<'_, N>,
    trace: &mut SessionTrace,
) -> Result<(), RecordExportError>
    requires sound { has_failed recorder.old ≡ false }
    ensures sound { OnOk result (has_failed recorder.new ≡ false) }
    ensures recorded { (head : SessionHead) (events : List LiveEvent)
        → HasRecorded N.number recorder.old.namer recorder.old.max_output head events recorder.old
        → RecordsLines N.number recorder.old.namer recorder.old.max_output head events lines
        recorder.new result }
    ensures traced { (format : ChromeTraceMessageFormat) (g : ChromeTraceGroupBy) (version : Parts)
        (before : List PlainEvent)
        → IsTraceOf format g version before trace.old
        → OnOk result
        (IsTraceOf format g version (before ++ map plain (events_of lines)) trace.new) }
{
    let mut scratch = Scratch::new(alloc);
    while let Some(line) = lines.first() {
        record_line(alloc, line, &mut scratch, recorder, trace)?;
        lines.drop_first();
    }
    Ok(())
}

/// Records the event of a line, if it has one, and traces it.
fn record_line<N: OutputNamer>(
    alloc: Global,
    line: Line<'_>,
    scratch: &mut Scratch,
    recorder: &mut MemoryRecorder<'_, N>,
    trace: &mut SessionTrace,
) -> Result<(), RecordExportError>
    requires sound { has_failed recorder.old ≡ false }
    ensures sound { OnOk result (has_failed recorder.new ≡ false) }
    ensures recorded { (head : SessionHead) (events : List LiveEvent)
        → HasRecorded N.number recorder.old.namer recorder.old.max_output head events recorder.old
        → RecordsLine N.number recorder.old.namer recorder.old.max_output head events
        (line_view line.entry) recorder.new result }
    ensures traced { (format : ChromeTraceMessageFormat) (g : ChromeTraceGroupBy) (version : Parts)
        (before : List PlainEvent)
        → IsTraceOf format g version before trace.old
        → OnOk result
        (IsTraceOf format g version
        (before ++ map plain (option_to_list (event_at (line_view line.entry)))) trace.new) }
{
    match read_line(alloc, line, scratch) {
        None => Ok(()),
        Some(event) => record_event(alloc, event?, recorder, trace),
    }
}

/// Records an event, and traces it.
fn record_event<N: OutputNamer>(
    alloc: Global,
    event: TestEventSummary<LiveSpec>,
    recorder: &mut MemoryRecorder<'_, N>,
    trace: &mut SessionTrace,
) -> Result<(), RecordExportError>
    requires sound { has_failed recorder.old ≡ false }
    requires loaded { kind_loaded is_loaded event.kind ≡ true }
    ensures sound { OnOk result (has_failed recorder.new ≡ false) }
    ensures recorded { (head : SessionHead) (events : List LiveEvent)
        → HasRecorded N.number recorder.old.namer recorder.old.max_output head events recorder.old
        → RecordsEvent N.number recorder.old.namer recorder.old.max_output head events event
        recorder.new result }
    ensures traced { (format : ChromeTraceMessageFormat) (g : ChromeTraceGroupBy) (version : Parts)
        (before : List PlainEvent)
        → IsTraceOf format g version before trace.old
        → OnOk result (IsTraceOf format g version (before ++ plain event ∷ []) trace.new) }
{
    let Ok(()) = trace.add(alloc, &event) else {
        // By a call: in place, each kind of event would be a case of the proof.
        event.discard();
        return Err(RecordExportError::OutOfMemory);
    };
    record_traced(event, recorder)
}

/// Records an event that is traced already.
fn record_traced<N: OutputNamer>(
    event: TestEventSummary<LiveSpec>,
    recorder: &mut MemoryRecorder<'_, N>,
) -> Result<(), RecordExportError>
    requires sound { has_failed recorder.old ≡ false }
    requires loaded { kind_loaded is_loaded event.kind ≡ true }
    ensures sound { OnOk result (has_failed recorder.new ≡ false) }
    ensures recorded { (head : SessionHead) (events : List LiveEvent)
        → HasRecorded N.number recorder.old.namer recorder.old.max_output head events recorder.old
        → RecordsEvent N.number recorder.old.namer recorder.old.max_output head events event
        recorder.new result }
{
    match recorder.write_event(event) {
        Ok(()) => Ok(()),
        Err(error) => Err(event_refusal(error)),
    }
}

/// Returns the refusal of a session for one of its events, which is loaded.
fn event_refusal(error: RunStoreError) -> RecordExportError
    requires { ComesOfEvent error }
    ensures { result ≡ event_fault error }
{
    match error {
        RunStoreError::NameCollision { file_name } => {
            RecordExportError::NameCollision { file_name }
        }
        // A sink in memory fails only for want of memory, and a log or a store of more bytes than a
        // u64 counts fits into no memory.
        RunStoreError::CountOutOfRange
        | RunStoreError::StoreWrite
        | RunStoreError::RunLogWrite
        | RunStoreError::OutOfMemory => RecordExportError::OutOfMemory,
        RunStoreError::Failed | RunStoreError::NotLoadedOutput => unreachable!(),
    }
}

/// Stores what a head says of the run.
fn record_head<N: OutputNamer>(
    recorder: &mut MemoryRecorder<'_, N>,
    head: &SessionHead,
) -> Result<(), AllocError>
    requires sound { has_failed recorder.old ≡ false }
    requires empty { recorder.old.store.entries ≡ [] }
    ensures ok { OnOk result
        (Stores (λ (s : DiscardingSink). None) (λ (s : DiscardingSink). 0) recorder.old recorder.new
        (store_entries head.now)) }
    ensures sound { OnOk result (has_failed recorder.new ≡ false) }
{
    match write_head(recorder, head) {
        Ok(()) => Ok(()),
        Err(error) => Err(head_refusal(error)),
    }
}

/// Returns the want of memory for which a head was not stored.
fn head_refusal(error: RunStoreError) -> AllocError
    requires { ComesOfHead error }
{
    match error {
        // As in `event_refusal`.
        RunStoreError::CountOutOfRange | RunStoreError::StoreWrite | RunStoreError::OutOfMemory =>
            AllocError,
        RunStoreError::Failed
        | RunStoreError::NotLoadedOutput
        | RunStoreError::NameCollision { .. }
        | RunStoreError::RunLogWrite => unreachable!(),
    }
}

/// Stores what a head says of the run, each part once and in order.
fn write_head<S: Sink, L: Sink, N: OutputNamer>(
    recorder: &mut RunRecorder<'_, S, L, N>,
    head: &SessionHead,
) -> Result<(), RunStoreError>
    requires sound { has_failed recorder.old ≡ false }
    requires empty { recorder.old.store.entries ≡ [] }
    ensures ok { OnOk result
        (Stores S.taken S.faults recorder.old recorder.new (store_entries head.now)) }
    ensures err { IfErr result ComesOfHead }
{
    write_metadata(
        recorder,
        &head.build_scope,
        &head.rerun_info,
        head.cargo_metadata.as_str(),
        &head.test_list,
        &head.record_opts,
    )
}
