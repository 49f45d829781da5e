//! The recorder of one run.
ghost use Rattle.std.specs.Io.KnownBytes.{Appends};
ghost use Rattle.std.specs.Prelude.{◌≡◌, ◌<◌, ◌≤◌, List, Some, [], ◌∷◌};
ghost use Rattle.std.specs.Prelude.{length, false, true, IfErr, OnOk, IfOk};
ghost use Rattle.serde_json.specs.Written.{compact_text};
ghost use Rattle.rec_container.specs.Container.{AreFrom};
ghost use Rattle.rec_container.specs.Container.{ending};
ghost use Rattle.rec_container.specs.Writing.{entry_named, has_name_length};
ghost use Rattle.rec_forms.specs.TextForm.{bytes_form};
ghost use Rattle.rec_format.specs.RerunForms.{rerun_info_form};
ghost use Rattle.rec_format.specs.ScopeForms.{recorded_scope_form};
ghost use Rattle.rec_codec.specs.Event.{IsLogged, LiveEvent};
ghost use Rattle.rec_store.specs.Ending.{sizes_of, sizes_of_log, Unended};
ghost use Rattle.rec_store.specs.Entries.{build_scope_path, json_entry, three_entries};
ghost use Rattle.rec_store.specs.EventOutputs.{event_entries, event_recorded};
ghost use Rattle.rec_store.specs.Kept.{HasOutputs, HavePaths};
ghost use Rattle.rec_store.specs.Logging.{AppendsAs, AppendsEvent, Logs, LogsLoaded, Unlogged};
ghost use Rattle.rec_store.specs.Recording.{RefusesEntry, has_failed, KeepsEntries, KeepsCounts};
ghost use Rattle.rec_store.specs.Recording.{Stores, Unstored, AddsEach, AddsUpTo, AddsEntry};
ghost use Rattle.rec_store.specs.Saved.{AcceptsEvent, AreStopped, HasAccepted};
ghost use Rattle.rec_store.specs.Saved.{KeepsAccepted, meta_paths, required_paths};
ghost use Rattle.rec_store.specs.Stopping.{StoresAs};
ghost use Rattle.rec_store.specs.Store.{build_scope_entry, rerun_entry, meta_entries, AreMetaRead};

use crate::entries::add_entry;
use crate::error::RunStoreError;
use crate::namer::OutputNamer;
use crate::outputs::OutputRules;
use crate::sizes::{ComponentSizes, StoreSizes};
use rec_codec::{has_all_outputs, log_line};
use rec_container::{ContainerSizes, ContainerWriteError, ContainerWriter, Sink, write_all};
use rec_events::{LiveSpec, RecordOpts, RecordingSpec, TestEventSummary, TestListSummary};
use rec_format::{
    BUILD_SCOPE_JSON_PATH, CARGO_METADATA_JSON_PATH, RECORD_OPTS_JSON_PATH, RERUN_INFO_JSON_PATH,
    RecordedBuildScope, RerunInfo, TEST_LIST_JSON_PATH,
};
use rec_forms::{Form, write_text};
use std::alloc::Global;
use std::marker::Model;

/// Records one run: metadata and outputs into a store, which is a container, and events into a
/// log.
///
/// Nothing is written after a sink has failed. A recording goes like this:
///
/// ```
/// let mut recorder = RunRecorder::new(alloc, store, log, &Sha256Namer, 10_000);
/// recorder.write_build_scope(&build_scope)?;
/// recorder.write_meta("{}", &test_list, &opts)?;
/// for event in events {
///     recorder.write_event(event)?;
/// }
/// let end = recorder.finish();
/// let sizes = end.result?;
/// ```
#[derive(Drop)]
pub struct RunRecorder<'n, S: Sink, L: Sink, N: OutputNamer> {
    alloc: Global,
    store: ContainerWriter<S>,
    log: L,
    log_failed: bool,
    log_bytes: u64,
    events: u64,
    namer: &'n N,
    max_output_size: u64,
}

/// Says how a recording ended, and holds its sinks.
#[derive(Drop)]
pub struct RecorderEnd<S, L> {
    /// The sizes of log and store, or why the store has no end.
    pub result: Result<StoreSizes, RunStoreError>,
    /// The sink of the store.
    pub store: S,
    /// The sink of the log.
    pub log: L,
}

impl<'n, S: Sink, L: Sink, N: OutputNamer> Model for RunRecorder<'n, S, L, N> {
    ghost use Rattle.std.specs.Prelude.{◌≤◌};
    ghost use Rattle.rec_store.specs.Recording.{Recording};

    ghost Value = { Recording S L N };

    ghost view = { λ r.
        record {
          store = r.store;
          log = r.log;
          log_failed = r.log_failed;
          log_bytes = r.log_bytes;
          events = r.events;
          namer = r.namer.now;
          max_output = r.max_output_size;
        } };

    // The line of an event has at least one byte.
    ghost invariant = { λ r. r.events ≤ r.log_bytes };
}

impl<'n, S: Sink, L: Sink, N: OutputNamer> RunRecorder<'n, S, L, N> {
    /// Makes a recorder over these sinks, which has written nothing. Outputs are cut at
    /// `max_output_size` bytes.
    pub fn new(
        alloc: Global,
        store: S,
        log: L,
        namer: &'n N,
        max_output_size: u64,
    ) -> RunRecorder<'n, S, L, N>
        ensures made { result ≡ record {
          store = record { entries = []; sink = store; failed = false };
          log = log;
          log_failed = false;
          log_bytes = 0;
          events = 0;
          namer = namer.now;
          max_output = max_output_size;
        } }
        ensures accepted { S.taken store ≡ Some []
            → L.taken log ≡ Some []
            → HasAccepted S.taken L.taken N.number [] result }
    {
        RunRecorder {
            alloc,
            store: ContainerWriter::new(alloc, store),
            log,
            log_failed: false,
            log_bytes: 0,
            events: 0,
            namer,
            max_output_size,
        }
    }

    /// Returns whether a sink has failed.
    pub fn is_failed(&self) -> bool
        ensures value { result ≡ has_failed self.now }
        ensures store { result ≡ false → self.now.store.failed ≡ false }
    {
        self.store.is_failed() || self.log_failed
    }

    /// Returns the writer of the store, which shows the entries so far.
    pub fn store(&self) -> &ContainerWriter<S>
        ensures { result.now ≡ self.now.store }
    {
        &self.store
    }

    /// Hands over the writer of the store, which has no end yet, and the log's sink.
    pub fn into_parts(self) -> (ContainerWriter<S>, L)
        ensures store { result.0 ≡ self.entry.store }
        ensures log { result.1 ≡ self.entry.log }
    {
        (self.store, self.log)
    }

    /// Returns the sizes of log and store, where the store ends with the entries so far.
    pub fn sizes(&self) -> StoreSizes
        ensures sizes { result ≡ sizes_of self.now }
        ensures sound { AreFrom [] self.now.store.entries }
    {
        StoreSizes {
            log: log_sizes(self.log_bytes, self.events),
            store: component_sizes(self.store.sizes()),
        }
    }

    /// Writes the end of the store, and hands both sinks back in every case.
    ///
    /// # Errors
    ///
    /// - `Failed` comes exactly after a sink failed in an earlier call. Nothing is written.
    /// - `StoreWrite` comes where the store's sink fails now. It took a proper prefix of the end.
    pub fn finish(self) -> RecorderEnd<S, L>
        ensures log { result.log ≡ self.entry.log }
        ensures ok { IfOk result.result
            (λ sizes. (has_failed self.entry ≡ false) × (sizes ≡ sizes_of self.entry)
            × Appends (S.taken self.entry.store.sink) (S.taken result.store)
            (ending self.entry.store.entries)) }
        ensures sound { AreFrom [] self.entry.store.entries }
        ensures err { IfErr result.result (Unended S.taken S.faults self.entry result.store) }
        ensures later { S.faults self.entry.store.sink ≤ S.faults result.store }

        // Nothing that was accepted is lost, whether the end was written or not.
        ensures stopped { (events : List LiveEvent)
            → HasAccepted S.taken L.taken N.number events self.entry
            → HavePaths self.entry.store.entries required_paths
            → AreStopped (N.number self.entry.namer) self.entry.max_output events
            (L.taken result.log) (S.taken result.store) }
    {
        let failed = self.is_failed();
        let RunRecorder {
            alloc: _,
            store,
            log,
            log_failed: _,
            log_bytes,
            events,
            namer: _,
            max_output_size: _,
        } = self;
        if failed {
            return RecorderEnd {
                result: Err(RunStoreError::Failed),
                store: store.into_sink(),
                log,
            };
        }
        let end = store.finish();
        let result = match end.result {
            Ok(sizes) => Ok(StoreSizes {
                log: log_sizes(log_bytes, events),
                store: component_sizes(sizes),
            }),
            Err(ContainerWriteError::SinkFault) => Err(RunStoreError::StoreWrite),
            // An end mark takes no memory, and a writer that has not failed refuses it for its sink
            // alone.
            Err(
                ContainerWriteError::Failed
                | ContainerWriteError::BadName
                | ContainerWriteError::NameCollision
                | ContainerWriteError::CountOutOfRange
                | ContainerWriteError::OutOfMemory,
            ) => unreachable!(),
        };
        RecorderEnd {
            result,
            store: end.sink,
            log,
        }
    }

    /// Stores what was built.
    ///
    /// # Errors
    ///
    /// The refusals are those of [`RunRecorder::write_meta`].
    pub fn write_build_scope(
        &mut self,
        build_scope: &RecordedBuildScope,
    ) -> Result<(), RunStoreError>
        ensures ok { OnOk result
            (Stores S.taken S.faults self.old self.new (build_scope_entry build_scope.now ∷ [])) }
        ensures read { OnOk result
            (bytes_form recorded_scope_form (build_scope_entry build_scope.now).content
            ≡ Some build_scope.now) }
        ensures err { IfErr result
            (Unstored S.taken S.faults self.old self.new (build_scope_entry build_scope.now ∷ [])) }
        ensures entries { KeepsEntries self.old.store self.new.store }
        ensures later { KeepsCounts S.faults L.faults self.old self.new }
        ensures accepted { KeepsAccepted S.taken L.taken N.number self.old self.new }
        ensures stands { OnOk result (HavePaths self.new.store.entries (build_scope_path ∷ [])) }
    {
        self.store_item(BUILD_SCOPE_JSON_PATH, build_scope)
    }

    /// Stores which run this one is a rerun of.
    ///
    /// # Errors
    ///
    /// The refusals are those of [`RunRecorder::write_meta`].
    pub fn write_rerun_info(&mut self, rerun_info: &RerunInfo) -> Result<(), RunStoreError>
        ensures ok { OnOk result
            (Stores S.taken S.faults self.old self.new (rerun_entry rerun_info.now ∷ [])) }
        ensures read { OnOk result
            (bytes_form rerun_info_form (rerun_entry rerun_info.now).content
            ≡ Some rerun_info.now) }
        ensures err { IfErr result
            (Unstored S.taken S.faults self.old self.new (rerun_entry rerun_info.now ∷ [])) }
        ensures entries { KeepsEntries self.old.store self.new.store }
        ensures later { KeepsCounts S.faults L.faults self.old self.new }
        ensures accepted { KeepsAccepted S.taken L.taken N.number self.old self.new }
    {
        self.store_item(RERUN_INFO_JSON_PATH, rerun_info)
    }

    /// Stores the test list, cargo's metadata and the options of the recording, in this order.
    ///
    /// # Errors
    ///
    /// Those before the refused one are stored.
    ///
    /// - `Failed` comes exactly after a sink failed in an earlier call. Nothing is written.
    /// - `NameCollision` comes exactly where the store has other bytes under one of the three
    ///   paths.
    /// - `CountOutOfRange` comes exactly where the store would have 2^64 bytes or more.
    /// - `StoreWrite` comes where the store's sink fails now.
    /// - `OutOfMemory` comes where memory ran out.
    pub fn write_meta(
        &mut self,
        cargo_metadata_json: &str,
        test_list: &TestListSummary,
        opts: &RecordOpts,
    ) -> Result<(), RunStoreError>
        ensures ok { OnOk result
            (Stores S.taken S.faults self.old self.new
            (meta_entries cargo_metadata_json.now test_list.now opts.now)) }
        ensures read { OnOk result (AreMetaRead test_list.now opts.now) }
        ensures err { IfErr result
            (Unstored S.taken S.faults self.old self.new
            (meta_entries cargo_metadata_json.now test_list.now opts.now)) }
        ensures entries { KeepsEntries self.old.store self.new.store }
        ensures later { KeepsCounts S.faults L.faults self.old self.new }
        ensures accepted { KeepsAccepted S.taken L.taken N.number self.old self.new }
        ensures stands { OnOk result (HavePaths self.new.store.entries meta_paths) }
    {
        if self.is_failed() {
            return Err(RunStoreError::Failed);
        }
        let test_list = write_text(self.alloc, test_list)?;
        let opts = write_text(self.alloc, opts)?;
        self.store_three(&test_list, cargo_metadata_json.as_bytes(), &opts)
    }

    /// Records one event: stores its outputs, in order, and then appends its line to the log.
    ///
    /// Outputs are stored one after the other, in the order of the attempts, stdout before stderr,
    /// and each under its name; one that is there already is not stored again. Where one is
    /// refused, those before it stay.
    ///
    /// # Errors
    ///
    /// - `Failed` comes exactly after a sink failed in an earlier call. Nothing is written.
    /// - `NotLoadedOutput` comes exactly where an output of the event is not loaded. Nothing is
    ///   stored.
    /// - `NameCollision` comes exactly where the store has other bytes under the path of an output.
    /// - `CountOutOfRange` comes exactly where store or log would have 2^64 bytes or more.
    /// - `StoreWrite` and `RunLogWrite` come where the sink of the store or of the log fails now.
    /// - `OutOfMemory` comes where memory ran out.
    ///
    /// After `RunLogWrite` a part of the line may stand in the log. Any other refusal leaves the
    /// log as it was.
    pub fn write_event(&mut self, event: TestEventSummary<LiveSpec>) -> Result<(), RunStoreError>
        ensures ok { OnOk result
            (Logs S.taken S.faults L.taken L.faults N.number self.old self.new event) }
        ensures logged { OnOk result
            (IsLogged (event_recorded (N.number self.old.namer) self.old.max_output event)) }
        ensures err { IfErr result
            (Unlogged S.taken S.faults L.taken L.faults N.number self.old self.new event) }
        ensures entries { KeepsEntries self.old.store self.new.store }
        ensures later { KeepsCounts S.faults L.faults self.old self.new }
        ensures outputs { OnOk result
            (HasOutputs self.new.store.entries
            (event_recorded (N.number self.old.namer) self.old.max_output event)) }
        ensures accepted { AcceptsEvent S.taken L.taken N.number self.old self.new event result }
    {
        // An event is let go of by a call: in place,
        // each of its kinds would be a case of the proof.
        if self.is_failed() {
            event.discard();
            return Err(RunStoreError::Failed);
        }
        if !has_all_outputs(&event) {
            event.discard();
            return Err(RunStoreError::NotLoadedOutput);
        }
        self.write_loaded(event)
    }

    /// Records an event that is loaded.
    fn write_loaded(&mut self, event: TestEventSummary<LiveSpec>) -> Result<(), RunStoreError>
        requires sound { self.old.store.failed ≡ false }
        ensures { LogsLoaded S.taken S.faults L.taken L.faults N.number self.old self.new event
            result }
    {
        let recorded = self.store_event(event)?;
        let result = self.append_event(&recorded);
        // By a call, as in `write_event`.
        recorded.discard();
        result
    }

    /// Stores the outputs of an event, and returns the event as it is recorded.
    fn store_event(
        &mut self,
        event: TestEventSummary<LiveSpec>,
    ) -> Result<TestEventSummary<RecordingSpec>, RunStoreError>
        requires sound { self.old.store.failed ≡ false }
        ensures kept { self.new ≡ record self.old { store = self.new.store } }
        ensures stored { StoresAs S.taken S.faults self.old.store self.new.store
            (event_entries (N.number self.old.namer) self.old.max_output event)
            (event_recorded (N.number self.old.namer) self.old.max_output event) result }
    {
        let rules = OutputRules {
            alloc: self.alloc,
            namer: self.namer,
            max_size: self.max_output_size as usize,
        };
        rules.store_event(&mut self.store, event)
    }

    /// Appends the line of an event to the log.
    fn append_event(&mut self, event: &TestEventSummary<RecordingSpec>) -> Result<(), RunStoreError>
        ensures { AppendsEvent L.taken L.faults self.old self.new event.now result }
    {
        let line = log_line(self.alloc, event)?;
        self.append_line(&line)
    }

    /// Appends a line to the log, and counts it.
    fn append_line(&mut self, line: &[u8]) -> Result<(), RunStoreError>
        requires some { 0 < length line.now }
        ensures { AppendsAs L.taken L.faults self.old self.new line.now result }
    {
        let Some(log_bytes) = self.log_bytes.checked_add(line.len() as u64) else {
            return Err(RunStoreError::CountOutOfRange);
        };
        if write_all(&mut self.log, line).is_err() {
            self.log_failed = true;
            return Err(RunStoreError::RunLogWrite);
        }
        self.log_bytes = log_bytes;
        self.events += 1;
        Ok(())
    }

    /// Stores the texts of test list, cargo's metadata and options.
    fn store_three(
        &mut self,
        test_list: &[u8],
        metadata: &[u8],
        opts: &[u8],
    ) -> Result<(), RunStoreError>
        requires sound { self.old.store.failed ≡ false }
        ensures kept { self.new ≡ record self.old { store = self.new.store } }
        ensures ok { OnOk result
            (AddsEach S.taken S.faults self.old.store self.new.store
            (three_entries test_list.now metadata.now opts.now)) }
        ensures err { IfErr result
            (AddsUpTo S.taken S.faults self.old.store self.new.store
            (three_entries test_list.now metadata.now opts.now)) }
    {
        self.store_entry(TEST_LIST_JSON_PATH, test_list)?;
        self.store_entry(CARGO_METADATA_JSON_PATH, metadata)?;
        self.store_entry(RECORD_OPTS_JSON_PATH, opts)
    }

    /// Stores an item as its JSON text.
    fn store_item<T: Form>(&mut self, path: &str, item: &T) -> Result<(), RunStoreError>
        requires name { has_name_length path.now ≡ true }
        ensures ok { OnOk result
            (Stores S.taken S.faults self.old self.new
            (json_entry path.now (T.value_of item.now) ∷ [])) }
        ensures read { OnOk result
            (bytes_form T.form_of (compact_text (T.value_of item.now)) ≡ Some item.now) }
        ensures err { IfErr result
            (Unstored S.taken S.faults self.old self.new
            (json_entry path.now (T.value_of item.now) ∷ [])) }
    {
        if self.is_failed() {
            return Err(RunStoreError::Failed);
        }
        let text = write_text(self.alloc, item)?;
        self.store_entry(path, &text)
    }

    /// Stores one entry.
    fn store_entry(&mut self, path: &str, content: &[u8]) -> Result<(), RunStoreError>
        requires sound { self.old.store.failed ≡ false }
        requires name { has_name_length path.now ≡ true }
        ensures kept { self.new ≡ record self.old { store = self.new.store } }
        ensures ok { OnOk result
            (AddsEntry S.taken S.faults self.old.store self.new.store
            (entry_named path.now content.now)) }
        ensures sound { OnOk result (self.new.store.failed ≡ false) }
        ensures err { IfErr result
            (RefusesEntry S.taken S.faults self.old.store self.new.store
            (entry_named path.now content.now)) }
    {
        add_entry(self.alloc, &mut self.store, path, content)
    }
}

/// Returns the sizes of a log of so many bytes and events. A log is not compressed.
fn log_sizes(bytes: u64, events: u64) -> ComponentSizes
    ensures { result ≡ sizes_of_log bytes events }
{
    ComponentSizes {
        compressed: bytes,
        uncompressed: bytes,
        entries: events,
    }
}

/// Returns the sizes of a store, which is a container.
fn component_sizes(sizes: ContainerSizes) -> ComponentSizes
    ensures { result
        ≡ record {
          compressed = sizes.compressed;
          uncompressed = sizes.uncompressed;
          entries = sizes.entries;
        } }
{
    ComponentSizes {
        compressed: sizes.compressed,
        uncompressed: sizes.uncompressed,
        entries: sizes.entries,
    }
}
