//! A bundle that is read.
ghost use Rattle.std.specs.Option.{option_map};
ghost use Rattle.std.specs.Prelude.{◌≡◌, ◌≤◌, ◌+◌, ◌↔◌, List, length, is_some};
ghost use Rattle.std.specs.Prelude.{IfOk, IfErr, IfSome, IsTrue, Ok, string_bytes};
ghost use Rattle.rec_container.specs.Container.{Entry, IsContainer, content_of};
ghost use Rattle.rec_format.specs.declared.manifest.PortableManifest.{PortableManifest};
ghost use Rattle.rec_format.specs.Runs.{info_of};
ghost use Rattle.rec_store.specs.Entries.{log_name, store_name};
ghost use Rattle.rec_portable.specs.Errors.{Reads};
ghost use Rattle.rec_portable.specs.Judging.{IsJudged};
ghost use Rattle.rec_portable.specs.Opening.{Opens, Unopened};
ghost use Rattle.rec_portable.specs.OuterEntries.{log_part, OpensStore, ExtractsOuter, OuterCause};
ghost use Rattle.rec_portable.specs.Windows.{bytes_in};

use crate::errors::PortableRecordingReadError;
use crate::extraction::{ExtractOuterFileResult, entries_of, extract};
use crate::parts::BundleParts;
use crate::run_log::PortableRecordingRunLog;
use crate::store::PortableStoreReader;
use crate::window::Window;
use rec_container::{Container, Sink, Source, read_within};
use rec_format::{PortableManifest, RecordedRunInfo, RunFilesExist};
use std::alloc::{AllocError, Global};
use std::marker::Model;

/// Owns the bytes of a bundle that was read. Its parts are windows of them.
#[derive(Drop)]
pub struct PortableRecording {
    path: String,
    bytes: Vec<u8>,
    /// The most bytes of an entry that is read.
    limit: u64,
    parts: BundleParts,
}

impl Model for PortableRecording {
    ghost use Rattle.std.specs.Prelude.{string_bytes};
    ghost use Rattle.rec_portable.specs.Opening.{Opening, IsOpen};

    ghost Value = { Opening };

    ghost view = { λ r.
        record { path = string_bytes r.path; bytes = r.bytes.items; limit = r.limit } };

    ghost invariant = { λ r. IsOpen r.bytes.items r.limit r.parts };
}

impl PortableRecording {
    /// Reads a source to its end, and judges its bytes as a bundle. It asks for at most
    /// `spool_limit + 1` bytes. `path` says where the bundle is from, and is only kept.
    /// `read_limit` is the most bytes of the manifest,
    /// of the log and of an entry of the store that are read.
    ///
    /// # Errors
    ///
    /// The first refusal in this order:
    ///
    /// - `SourceFault` where the source failed before more bytes than the spool limit had come.
    /// - `SpoolTooLarge` where more bytes than the spool limit came.
    /// - `ReadArchive` where the bytes are no container.
    /// - `NotAWrapperArchive` where no entry is named `manifest.json`.
    /// - `FileTooLarge` where the manifest is longer than the read limit.
    /// - `ParseManifest` where the manifest's bytes stand for none.
    /// - `UnsupportedFormatVersion` where the bundle's version isn't read.
    /// - `UnsupportedStoreFormatVersion` where the version of its store isn't read.
    ///
    /// `OutOfMemory` may come at any time.
    ///
    /// # Examples
    ///
    /// The events in the log of a bundle:
    ///
    /// ```
    /// let path = String::from_str(alloc, "run.zip")?;
    /// let mut source = SliceSource::new(bundle);
    /// let recording = PortableRecording::open(alloc, path, &mut source, 1_000_000, 1_000_000)?;
    /// let log = recording.read_run_log(alloc)?;
    /// for event in log.events(alloc) {
    ///     match event {
    ///         Ok(event) => println!(rt; "after {} s", event.elapsed.secs)?,
    ///         Err(error) => println!(rt; "{error}")?,
    ///     }
    /// }
    /// ```
    pub fn open<S: Source>(
        alloc: Global,
        path: String,
        source: &mut S,
        spool_limit: u64,
        read_limit: u64,
    ) -> Result<PortableRecording, PortableRecordingReadError>
        ensures ok { IfOk result
            (Opens S.left S.faults (string_bytes path) spool_limit read_limit source.old
            source.new) }
        ensures err { IfErr result
            (Unopened S.left S.faults spool_limit read_limit source.old source.new) }
    {
        let bytes = read_within(alloc, spool_limit, source)?;
        let parts = BundleParts::read(alloc, &bytes, read_limit)?;
        Ok(PortableRecording {
            path,
            bytes,
            limit: read_limit,
            parts,
        })
    }

    /// Returns where the bundle is from.
    pub fn archive_path(&self) -> &str
        ensures { result.now ≡ self.now.path }
    {
        self.path.as_str()
    }

    /// Returns the manifest, as it was read.
    pub fn manifest(&self) -> &PortableManifest
        ensures judged { IsJudged self.now.bytes self.now.limit (Ok result.now) }
        // No other manifest is read from these bytes.
        ensures only { (manifest : PortableManifest)
            → IsJudged self.now.bytes self.now.limit (Ok manifest)
            → result.now ≡ manifest }
    {
        &self.parts.manifest
    }

    /// Returns the most bytes of an entry that is read.
    pub(crate) fn limit(&self) -> u64
        ensures { result ≡ self.now.limit }
    {
        self.limit
    }

    /// Lends the entries of the bundle.
    pub(crate) fn outer_entries(&self, alloc: Global) -> Result<Container<'_>, AllocError>
        ensures { (es : List Entry)
            → IsContainer self.now.bytes es
            → IfOk result (λ c. c.entries ≡ es) }
    {
        entries_of(alloc, &self.bytes)
    }

    /// Copies the metadata of the run.
    ///
    /// # Errors
    ///
    /// `AllocError` where memory is short.
    pub fn run_info(&self, alloc: Global) -> Result<RecordedRunInfo, AllocError>
        ensures { (manifest : PortableManifest)
            → IsJudged self.now.bytes self.now.limit (Ok manifest)
            → IfOk result (λ info. info ≡ info_of manifest.run) }
    {
        self.parts.manifest.run_info(alloc)
    }

    /// Lends the event log.
    ///
    /// # Errors
    ///
    /// - `MissingFile` exactly where the bundle has no entry `run.log.zst`.
    /// - `FileTooLarge` exactly where that entry is longer than the read limit.
    /// - `OutOfMemory` where memory for the entry's name is short.
    pub fn read_run_log(
        &self,
        alloc: Global,
    ) -> Result<PortableRecordingRunLog<'_>, PortableRecordingReadError>
        ensures { (es : List Entry)
            → IsContainer self.now.bytes es
            → Reads (log_part self.now.limit es) result }
    {
        let found = part_of(&self.bytes, self.parts.log);
        PortableRecordingRunLog::within(alloc, self.limit, found)
    }

    /// Lends the bytes of the log, whatever their length. It takes no memory. `None` comes exactly
    /// where the bundle has no entry `run.log.zst`.
    pub fn log_window(&self) -> Option<&[u8]>
        ensures { (es : List Entry)
            → IsContainer self.now.bytes es
            → option_map (λ b. b.now) result ≡ content_of es log_name }
    {
        part_of(&self.bytes, self.parts.log)
    }

    /// Lends the bytes of the store. It takes no memory. `None` comes exactly where the bundle has
    /// no entry `store.zip`.
    pub fn store_window(&self) -> Option<&[u8]>
        ensures { (es : List Entry)
            → IsContainer self.now.bytes es
            → option_map (λ b. b.now) result ≡ content_of es store_name }
    {
        part_of(&self.bytes, self.parts.store)
    }

    /// Opens the store, whatever its length. The reader's entries are windows of the bundle's
    /// bytes, which its calls copy.
    ///
    /// # Errors
    ///
    /// - `MissingFile` exactly where the bundle has no entry `store.zip`.
    /// - `ReadArchive` exactly where the bytes of that entry are no container.
    /// - `OutOfMemory` where memory is short.
    pub fn open_store(
        &self,
        alloc: Global,
    ) -> Result<PortableStoreReader<'_>, PortableRecordingReadError>
        ensures { (es : List Entry)
            → IsContainer self.now.bytes es
            → OpensStore self.now.limit (content_of es store_name) result }
    {
        let found = part_of(&self.bytes, self.parts.store);
        PortableStoreReader::open(alloc, self.limit, found)
    }

    /// Writes an entry of the bundle whole, whatever its length, and says how long it is.
    ///
    /// # Errors
    ///
    /// - `MissingFile` exactly where the bundle has no entry of this name.
    /// - `ExtractFile` where the sink failed. It took a proper prefix of the entry.
    /// - `OutOfMemory` where memory is short. Nothing was written.
    pub fn extract_outer_file_to_path(
        &self,
        alloc: Global,
        file_name: &str,
        out: &mut dyn Sink,
        check_limit: bool,
    ) -> Result<ExtractOuterFileResult, PortableRecordingReadError>
        ensures answer { (es : List Entry) → IsContainer self.now.bytes es
            → ExtractsOuter (taken out.old) (taken out.new) self.now.limit check_limit file_name.now
            (content_of es file_name.now) result }
        ensures sink { OuterCause (faults out.old) (faults out.new) result }
    {
        extract(alloc, &self.bytes, self.limit, file_name, out, check_limit)
    }

    /// Drops the bundle. It is a call so that this is proved once, here: where a crate drops a
    /// bundle in place, its own proof goes over each part of the manifest again.
    pub fn discard(self) {
        drop(self);
    }
}

impl RunFilesExist for PortableRecording {
    fn store_zip_exists(&self) -> bool
        ensures { (es : List Entry)
            → IsContainer self.now.bytes es
            → result ≡ is_some (content_of es store_name) }
    {
        self.parts.store.is_some()
    }

    fn run_log_exists(&self) -> bool
        ensures { (es : List Entry)
            → IsContainer self.now.bytes es
            → result ≡ is_some (content_of es log_name) }
    {
        self.parts.log.is_some()
    }
}

/// Lends the part of the bytes in a window, where there is one.
fn part_of(bytes: &[u8], window: Option<Window>) -> Option<&[u8]>
    requires { IfSome window (λ w. w.at + w.len ≤ length bytes.now) }
    ensures { option_map (λ b. b.now) result ≡ option_map (bytes_in bytes.now) window }
{
    match window {
        Some(window) => Some(window.of_bytes(bytes)),
        None => None,
    }
}
