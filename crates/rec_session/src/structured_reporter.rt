//! Several reporters of one run.
ghost use Rattle.std.specs.Prelude.{◌≡◌, ◌≤◌, IsSomeAnd, MatchOption, None, Ok, OnErr, OnOk, Some};
ghost use Rattle.rec_replay.specs.Reporting.{Shows, known};
ghost use Rattle.rec_session.specs.Reporting.{EndsSet, LeavesSet, ReportsEvent};
ghost use Rattle.rec_session.specs.Reporting.{ReportsMeta, structured_end};

use crate::record_reporter::{RecordReporter, RecordReporterError, ReporterEnd};
use rec_container::Sink;
use rec_events::{RecordOpts, TestEvent, TestListSummary};
use rec_replay::{EventReporter, WriteEventError, write_event_dyn};
use rec_store::{OutputNamer, StoreSizes};
use std::alloc::Global;

/// Says how a structured reporter ended, and holds its sinks.
#[derive(Drop)]
pub struct StructuredEnd<S, L> {
    /// The sizes of log and store, where a run was recorded whole.
    pub sizes: Option<StoreSizes>,
    /// The first error, where a run was not recorded whole.
    pub error: Option<RecordReporterError>,
    /// The sinks of store and log, where a record reporter was set.
    pub sinks: Option<(S, L)>,
}

/// Hands the events of a run to a libtest reporter and to a record reporter, each where it is set.
///
/// ```
/// let mut reporter = StructuredReporter::new();
/// reporter.set_libtest(libtest);
/// reporter.set_record(RecordReporter::new(recorder));
/// reporter.write_meta("{}", &test_list, &opts);
/// for event in events {
///     reporter.write_event(alloc, &event)?;
/// }
/// let end = reporter.finish();
/// ```
//
// A function of another crate that calls a reporter owns it: a call through a `&mut` of it counts
// as one that may put another box in the place of `libtest`.
#[derive(Drop)]
pub struct StructuredReporter<'n, S: Sink, L: Sink, N: OutputNamer> {
    libtest: Option<Box<dyn EventReporter>>,
    recording: Option<RecordReporter<'n, S, L, N>>,
}

impl<'n, S: Sink, L: Sink, N: OutputNamer> Default for StructuredReporter<'n, S, L, N> {
    ghost use Rattle.std.specs.Prelude.{◌≡◌, None};

    ghost is_default = { λ r. (r.libtest ≡ None) × (r.recording ≡ None) };

    fn default() -> StructuredReporter<'n, S, L, N> {
        StructuredReporter::new()
    }
}

impl<'n, S: Sink, L: Sink, N: OutputNamer> StructuredReporter<'n, S, L, N> {
    /// Makes a reporter in which none is set.
    pub fn new() -> StructuredReporter<'n, S, L, N>
        ensures libtest { result.libtest ≡ None }
        ensures recording { result.recording ≡ None }
    {
        StructuredReporter {
            libtest: None,
            recording: None,
        }
    }

    /// Sets the libtest reporter. One that was set before is dropped.
    pub fn set_libtest(&mut self, libtest: Box<dyn EventReporter>) -> &mut Self
        ensures same { result.ghost_name ≡ self.entry.ghost_name }
        ensures set { result.now ≡ record self.old { libtest = Some libtest } }
    {
        self.libtest = Some(libtest);
        self
    }

    /// Writes the metadata of a run by [`RecordReporter::write_meta`],
    /// where a record reporter is set.
    pub fn write_meta(
        &mut self,
        cargo_metadata_json: &str,
        test_list: &TestListSummary,
        opts: &RecordOpts,
    )
        ensures libtest { self.new.libtest ≡ self.old.libtest }
        ensures recording { LeavesSet
            (λ old. ReportsMeta S.taken S.faults L.faults old cargo_metadata_json.now test_list.now
            opts.now)
            self.old.recording self.new.recording }
    {
        if let Some(recording) = &mut self.recording {
            recording.write_meta(cargo_metadata_json, test_list, opts);
        }
    }

    /// Shows an event by the libtest reporter, and then records it by
    /// [`RecordReporter::write_event`], each where it is set.
    ///
    /// # Errors
    ///
    /// Those of the libtest reporter's own call, and none where no libtest reporter is set. The
    /// event isn't recorded then.
    ///
    /// - `SinkFault` where showing it failed: the libtest reporter's count of faults rose.
    /// - `OutOfMemory` where it had no memory for showing it.
    pub fn write_event(
        &mut self,
        alloc: Global,
        event: &TestEvent<'_>,
    ) -> Result<(), WriteEventError>
        ensures own { MatchOption self.old.libtest ((result ≡ Ok tt) × (self.new.libtest ≡ None))
            (λ old.
            (after : _)
            × ((⟦<dyn EventReporter as EventReporter>⟧ old.vtable).writes_event old.value event.now
            result after)
            × (self.new.libtest ≡ Some (record old { value = after }))) }
        ensures shown { MatchOption self.old.libtest (result ≡ Ok tt)
            (λ old. IsSomeAnd self.new.libtest (λ new.
            let before = ⟦<dyn EventReporter as EventReporter>⟧ old.vtable in
            let now = ⟦<dyn EventReporter as EventReporter>⟧ new.vtable in
            Shows (before.written old.value) (now.written new.value) (before.faults old.value)
            (now.faults new.value)
            (before.event_text (known (before.configured old.value)) event.now) result)) }
        ensures later { LeavesSet
            (λ old new. (⟦<dyn EventReporter as EventReporter>⟧ old.vtable).faults old.value
            ≤ (⟦<dyn EventReporter as EventReporter>⟧ new.vtable).faults new.value) self.old.libtest
            self.new.libtest }
        ensures wants { LeavesSet
            (λ old new. (⟦<dyn EventReporter as EventReporter>⟧ new.vtable).wants new.value
            ≡ (⟦<dyn EventReporter as EventReporter>⟧ old.vtable).wants old.value) self.old.libtest
            self.new.libtest }
        ensures configured { LeavesSet
            (λ old new. (⟦<dyn EventReporter as EventReporter>⟧ new.vtable).configured new.value
            ≡ (⟦<dyn EventReporter as EventReporter>⟧ old.vtable).configured old.value)
            self.old.libtest self.new.libtest }
        ensures finished { LeavesSet
            (λ old new. (⟦<dyn EventReporter as EventReporter>⟧ new.vtable).finished new.value
            ≡ (⟦<dyn EventReporter as EventReporter>⟧ old.vtable).finished old.value)
            self.old.libtest self.new.libtest }
        ensures recorded { OnOk result
            (LeavesSet
            (λ old. ReportsEvent S.taken S.faults L.taken L.faults N.number old event.now)
            self.old.recording self.new.recording) }
        ensures unrecorded { OnErr result (self.new.recording ≡ self.old.recording) }
    {
        show(&mut self.libtest, event)?;
        record(&mut self.recording, alloc, event);
        Ok(())
    }

    /// Ends the record reporter by [`RecordReporter::finish`], where it is set: returns its sizes
    /// or its error, and its sinks.
    pub fn finish(self) -> StructuredEnd<S, L>
        ensures { EndsSet S.taken S.faults self.entry.recording result }
    {
        let StructuredReporter { libtest, recording } = self;
        drop(libtest);
        match recording {
            Some(recording) => recorded_end(recording.finish()),
            None => StructuredEnd {
                sizes: None,
                error: None,
                sinks: None,
            },
        }
    }
}

/// Returns the end of a structured reporter whose record reporter ended so.
fn recorded_end<S, L>(end: ReporterEnd<S, L>) -> StructuredEnd<S, L>
    ensures { result ≡ structured_end end.result end.store end.log }
{
    let ReporterEnd {
        result: ended,
        store,
        log,
    } = end;
    match ended {
        Ok(sizes) => StructuredEnd {
            sizes: Some(sizes),
            error: None,
            sinks: Some((store, log)),
        },
        Err(error) => StructuredEnd {
            sizes: None,
            error: Some(error),
            sinks: Some((store, log)),
        },
    }
}

impl<'n, S: Sink + Drop, L: Sink + Drop, N: OutputNamer + Drop> StructuredReporter<'n, S, L, N> {
    /// Sets the record reporter. One that was set before is dropped: its recording gets no end.
    pub fn set_record(&mut self, reporter: RecordReporter<'n, S, L, N>) -> &mut Self
        ensures same { result.ghost_name ≡ self.entry.ghost_name }
        ensures set { result.now ≡ record self.old { recording = Some reporter.entry } }
    {
        self.recording = Some(reporter);
        self
    }
}

/// Shows an event, where a reporter is set.
fn show(
    libtest: &mut Option<Box<dyn EventReporter>>,
    event: &TestEvent<'_>,
) -> Result<(), WriteEventError>
    ensures own { MatchOption libtest.old ((result ≡ Ok tt) × (libtest.new ≡ None)) (λ old.
        (after : _)
        × ((⟦<dyn EventReporter as EventReporter>⟧ old.vtable).writes_event old.value event.now
        result after)
        × (libtest.new ≡ Some (record old { value = after }))) }
    ensures shown { MatchOption libtest.old (result ≡ Ok tt) (λ old. IsSomeAnd libtest.new (λ new.
        Shows (written old) (written new) (faults old) (faults new)
        ((⟦<dyn EventReporter as EventReporter>⟧ old.vtable).event_text (known (configured old))
        event.now) result)) }
    ensures later { LeavesSet (λ old new. faults old ≤ faults new) libtest.old libtest.new }
    ensures wants { LeavesSet (λ old new. wants new ≡ wants old) libtest.old libtest.new }
    ensures configured { LeavesSet (λ old new. configured new ≡ configured old) libtest.old
        libtest.new }
    ensures finished { LeavesSet (λ old new. finished new ≡ finished old) libtest.old libtest.new }
{
    match libtest {
        Some(libtest) => show_boxed(libtest, event),
        None => Ok(()),
    }
}

/// Shows an event by the call of a reporter in a box.
// It stands here, since a box that is lent to another crate counts as one that may be replaced
// there.
fn show_boxed(
    libtest: &mut Box<dyn EventReporter>,
    event: &TestEvent<'_>,
) -> Result<(), WriteEventError>
    ensures own { (after : _)
        × ((⟦<dyn EventReporter as EventReporter>⟧ libtest.old.vtable).writes_event
        libtest.old.value event.now result after)
        × (libtest.new ≡ record libtest.old { value = after }) }
    ensures shown { Shows (written libtest.old) (written libtest.new) (faults libtest.old)
        (faults libtest.new)
        ((⟦<dyn EventReporter as EventReporter>⟧ libtest.old.vtable).event_text
        (known (configured libtest.old)) event.now) result }
    ensures later { faults libtest.old ≤ faults libtest.new }
    ensures wants { wants libtest.new ≡ wants libtest.old }
    ensures configured { configured libtest.new ≡ configured libtest.old }
    ensures finished { finished libtest.new ≡ finished libtest.old }
{
    write_event_dyn(&mut **libtest, event)
}

/// Records an event, where a reporter is set.
fn record<S: Sink, L: Sink, N: OutputNamer>(
    recording: &mut Option<RecordReporter<'_, S, L, N>>,
    alloc: Global,
    event: &TestEvent<'_>,
)
    ensures { LeavesSet
        (λ old. ReportsEvent S.taken S.faults L.taken L.faults N.number old event.now) recording.old
        recording.new }
{
    if let Some(recording) = recording {
        recording.write_event(alloc, event);
    }
}
