//! The reader of a run's directory.
ghost use Rattle.std.specs.Prelude.{◌≡◌, List, IfOk, IfErr, IsSome, None};
ghost use Rattle.std.specs.Prelude.{OnErr, OnOk, Some, string_bytes};
ghost use Rattle.rec_container.specs.Container.{Entry};
ghost use Rattle.rec_disk.specs.Disks.{Exists, HasDiskCause};
ghost use Rattle.rec_forms.specs.Recording.{test_list_form, record_opts_form};
ghost use Rattle.rec_format.specs.ScopeForms.{recorded_scope_form};
ghost use Rattle.rec_store.specs.Entries.{build_scope_path, cargo_metadata_path};
ghost use Rattle.rec_store.specs.Entries.{test_list_path, record_opts_path};
ghost use Rattle.rec_store.specs.Parts.{metadata_part, output_part, rerun_info_part, utf8_part};
ghost use Rattle.rec_store.specs.Readers.{Answers, DiskCause, Extracts, Keeps, SinkCause};
ghost use Rattle.rec_directory.specs.Directories.{Holds, JudgesStore, KeepsRun, LeavesSink};
ghost use Rattle.rec_directory.specs.Directories.{Opens, Stays, Unopened, Unread};
ghost use Rattle.rec_directory.specs.Events.{OpensLog, UnopenedLog, HasLength, LogFault};
ghost use Rattle.rec_directory.specs.Paths.{path_of_log, path_of_store};

use crate::events::{RecordEventIter, log_error};
use crate::paths::join;
use crate::store::read_store;
use crate::store_parts::StoreBytes;
use rec_container::Sink;
use rec_disk::{Disk, DiskError};
use rec_events::{RecordOpts, TestListSummary, Text};
use rec_format::{
    BUILD_SCOPE_JSON_PATH, CARGO_METADATA_JSON_PATH, RECORD_OPTS_JSON_PATH, RUN_LOG_FILE_NAME,
    RecordedBuildScope, RerunInfo, TEST_LIST_JSON_PATH,
};
use rec_store::{RecordReadError, StoreReader};
use std::alloc::{AllocError, Global};
use std::marker::Model;

/// Reads a run's directory. The store's file is read whole at the first call that needs it,
/// and kept.
#[derive(Drop)]
pub struct RecordReader<'d, D: Disk> {
    alloc: Global,
    disk: &'d mut D,
    run_dir: String,
    /// The most bytes of an entry that is read.
    limit: u64,
    store: Option<Vec<u8>>,
}

impl<'d, D: Disk> Model for RecordReader<'d, D> {
    ghost use Rattle.std.specs.Prelude.{option_map, string_bytes};
    ghost use Rattle.rec_directory.specs.Directories.{Directory};

    ghost Value = { Directory D };

    ghost view = { λ r.
        record {
          disk = r.disk;
          run_dir = string_bytes r.run_dir;
          limit = r.limit;
          store = option_map (λ v. v.items) r.store;
        } };
}

impl<'d, D: Disk> RecordReader<'d, D> {
    /// Opens a run's directory. `read_limit` is the most bytes of an entry of the store that is
    /// read.
    ///
    /// # Errors
    ///
    /// - `RunNotFound` exactly where the directory doesn't exist.
    /// - `DiskFault` where the disk fails.
    /// - `OutOfMemory` if memory runs out.
    pub fn open(
        alloc: Global,
        disk: &'d mut D,
        run_dir: String,
        read_limit: u64,
    ) -> Result<RecordReader<'d, D>, RecordReadError>
        ensures ok { IfOk result
            (Opens D.files D.faults disk.entry (string_bytes run_dir) read_limit) }
        ensures err { IfErr result (Unopened D.files D.faults disk.old (string_bytes run_dir)) }
    {
        match find_run(disk, run_dir.as_str()) {
            Ok(true) => Ok(RecordReader {
                alloc,
                disk,
                run_dir,
                limit: read_limit,
                store: None,
            }),
            Ok(false) => Err(RecordReadError::RunNotFound {
                path: Text::new(run_dir),
            }),
            Err(DiskError::OutOfMemory) => Err(RecordReadError::OutOfMemory),
            Err(_) => Err(RecordReadError::DiskFault {
                path: Text::new(run_dir),
            }),
        }
    }
}

/// Returns whether a run's directory is there. No file changes, whatever the answer.
fn find_run<D: Disk>(disk: &mut D, run_dir: &str) -> Result<bool, DiskError>
    ensures answer { Exists (D.files disk.old) run_dir.now result }
    ensures same { D.files disk.new ≡ D.files disk.old }
    ensures cause { HasDiskCause (D.faults disk.old) (D.faults disk.new) result }
{
    disk.exists(run_dir)
}

impl<'d, D: Disk> RecordReader<'d, D> {
    /// Returns the run's directory.
    pub fn run_dir(&self) -> &str
        ensures { result.now ≡ self.now.run_dir }
    {
        self.run_dir.as_str()
    }

    /// Goes over the events of the run, up to the length in bytes that its log has now.
    ///
    /// # Errors
    ///
    /// - `OpenRunLog` exactly where the log is missing.
    /// - `DiskFault` where the disk fails.
    /// - `OutOfMemory` if memory runs out.
    pub fn events(&mut self) -> Result<RecordEventIter<'_, D>, RecordReadError>
        ensures ok { IfOk result (OpensLog D.files D.faults self.old) }
        ensures err { IfErr result
            (UnopenedLog D.files D.faults self.old.disk.now (path_of_log self.old.run_dir)) }
    {
        let (path, len) = self.measure()?;
        Ok(RecordEventIter::new(self.alloc, self.disk, path, len))
    }

    /// Returns the path of the log, and its length. The reader stays but for what the disk counts.
    fn measure(&mut self) -> Result<(Text, u64), RecordReadError>
        ensures ok { IfOk result
            (λ x. (x.0 ≡ path_of_log self.old.run_dir)
            × HasLength (D.files self.old.disk.now) (path_of_log self.old.run_dir) x.1) }
        ensures err { IfErr result
            (LogFault (D.faults self.old.disk.now) (D.faults self.new.disk.now)
            (D.files self.old.disk.now) (path_of_log self.old.run_dir)) }
        ensures stays { Stays D.files self.old self.new }
        ensures cause { DiskCause (D.faults self.old.disk.now) (D.faults self.new.disk.now) result }
    {
        measure_log(self.alloc, self.disk, self.run_dir.as_str())
    }
}

/// Returns the path of the log in a directory, and its length.
fn measure_log<D: Disk>(
    alloc: Global,
    disk: &mut D,
    run_dir: &str,
) -> Result<(Text, u64), RecordReadError>
    ensures ok { IfOk result
        (λ x. (x.0 ≡ path_of_log run_dir.now)
        × HasLength (D.files disk.old) (path_of_log run_dir.now) x.1) }
    ensures err { IfErr result
        (LogFault (D.faults disk.old) (D.faults disk.new) (D.files disk.old)
        (path_of_log run_dir.now)) }
    ensures same { D.files disk.new ≡ D.files disk.old }
    ensures cause { DiskCause (D.faults disk.old) (D.faults disk.new) result }
{
    let path = log_file(alloc, run_dir)?;
    match disk.len(path.as_str()) {
        Ok(len) => Ok((path, len)),
        Err(error) => Err(log_error(path, error)),
    }
}

/// Returns the path of the log in a directory.
fn log_file(alloc: Global, run_dir: &str) -> Result<Text, AllocError>
    ensures { IfOk result (λ path. path ≡ path_of_log run_dir.now) }
{
    Ok(Text::new(join(alloc, run_dir, RUN_LOG_FILE_NAME)?))
}

impl<D: Disk> RecordReader<'_, D> {
    /// Reads the store where it isn't kept yet.
    fn load(&mut self, alloc: Global) -> Result<(), RecordReadError>
        ensures ok { OnOk result (IsSome self.new.store) }
        ensures err { IfErr result
            (Unread (D.files self.old.disk.now) (path_of_store self.old.run_dir)) }
        ensures unread { OnErr result ((self.old.store ≡ None) × (self.new.store ≡ None)) }
        ensures kept { KeepsRun D.files self.old self.new }
        ensures same { Keeps self.old.limit self.new.limit (Holds D.files self.old)
            (Holds D.files self.new) }
        ensures cause { DiskCause (D.faults self.old.disk.now) (D.faults self.new.disk.now) result }
    {
        if self.store.is_some() {
            return Ok(());
        }
        let bytes = read_store(alloc, self.disk, self.run_dir.as_str())?;
        self.store = Some(bytes);
        Ok(())
    }

    /// Returns the store that is kept.
    fn kept(&self) -> StoreBytes<'_>
        requires { IsSome self.now.store }
        ensures store { self.now.store ≡ Some result.bytes.now }
        ensures run_dir { result.run_dir.now ≡ self.now.run_dir }
        ensures limit { result.limit ≡ self.now.limit }
    {
        match &self.store {
            Some(bytes) => StoreBytes {
                run_dir: self.run_dir.as_str(),
                bytes,
                limit: self.limit,
            },
            None => unreachable!(),
        }
    }
}

impl<D: Disk> RecordReader<'_, D> {
    /// Reads cargo's metadata.
    ///
    /// # Errors
    ///
    /// - `OpenArchive` exactly where the store is missing, `ParseArchive` exactly where it is no
    ///   container.
    /// - `DiskFault` where the disk fails. A store that is kept isn't read again.
    /// - `FileNotFound` exactly where its entry isn't there, `FileTooLarge` exactly where it is
    ///   longer than the limit.
    /// - `NotUtf8` exactly where it isn't UTF-8.
    /// - `OutOfMemory` if memory runs out.
    pub fn read_cargo_metadata(&mut self, alloc: Global) -> Result<String, RecordReadError>
        ensures answer { (es : List Entry)
            → Holds D.files self.old es
            → Answers string_bytes (utf8_part cargo_metadata_path es self.old.limit) result }
        ensures same { Keeps self.old.limit self.new.limit (Holds D.files self.old)
            (Holds D.files self.new) }
        ensures cause { DiskCause (D.faults self.old.disk.now) (D.faults self.new.disk.now) result }
        ensures store { JudgesStore (D.files self.old.disk.now) (path_of_store self.old.run_dir)
            self.new.store result }
        ensures kept { KeepsRun D.files self.old self.new }
    {
        self.load(alloc)?;
        self.kept().text(alloc, CARGO_METADATA_JSON_PATH)
    }

    /// Reads the test list.
    ///
    /// # Errors
    ///
    /// - `OpenArchive` exactly where the store is missing, `ParseArchive` exactly where it is no
    ///   container.
    /// - `DiskFault` where the disk fails. A store that is kept isn't read again.
    /// - `FileNotFound` exactly where its entry isn't there, `FileTooLarge` exactly where it is
    ///   longer than the limit.
    /// - `DeserializeMetadata` exactly where it stands for no list.
    /// - `OutOfMemory` if memory runs out.
    pub fn read_test_list(&mut self, alloc: Global) -> Result<TestListSummary, RecordReadError>
        ensures answer { (es : List Entry)
            → Holds D.files self.old es
            → Answers (λ x. x) (metadata_part test_list_form test_list_path es self.old.limit)
            result }
        ensures same { Keeps self.old.limit self.new.limit (Holds D.files self.old)
            (Holds D.files self.new) }
        ensures cause { DiskCause (D.faults self.old.disk.now) (D.faults self.new.disk.now) result }
        ensures store { JudgesStore (D.files self.old.disk.now) (path_of_store self.old.run_dir)
            self.new.store result }
        ensures kept { KeepsRun D.files self.old self.new }
    {
        self.load(alloc)?;
        self.kept().metadata(alloc, TEST_LIST_JSON_PATH)
    }

    /// Reads the options of the recording.
    ///
    /// # Errors
    ///
    /// - `OpenArchive` exactly where the store is missing, `ParseArchive` exactly where it is no
    ///   container.
    /// - `DiskFault` where the disk fails. A store that is kept isn't read again.
    /// - `FileNotFound` exactly where its entry isn't there, `FileTooLarge` exactly where it is
    ///   longer than the limit.
    /// - `DeserializeMetadata` exactly where it stands for no options.
    /// - `OutOfMemory` if memory runs out.
    pub fn read_record_opts(&mut self, alloc: Global) -> Result<RecordOpts, RecordReadError>
        ensures answer { (es : List Entry)
            → Holds D.files self.old es
            → Answers (λ x. x) (metadata_part record_opts_form record_opts_path es self.old.limit)
            result }
        ensures same { Keeps self.old.limit self.new.limit (Holds D.files self.old)
            (Holds D.files self.new) }
        ensures cause { DiskCause (D.faults self.old.disk.now) (D.faults self.new.disk.now) result }
        ensures store { JudgesStore (D.files self.old.disk.now) (path_of_store self.old.run_dir)
            self.new.store result }
        ensures kept { KeepsRun D.files self.old self.new }
    {
        self.load(alloc)?;
        self.kept().metadata(alloc, RECORD_OPTS_JSON_PATH)
    }

    /// Reads the build scope.
    ///
    /// # Errors
    ///
    /// - `OpenArchive` exactly where the store is missing, `ParseArchive` exactly where it is no
    ///   container.
    /// - `DiskFault` where the disk fails. A store that is kept isn't read again.
    /// - `FileNotFound` exactly where its entry isn't there, `FileTooLarge` exactly where it is
    ///   longer than the limit.
    /// - `DeserializeMetadata` exactly where it stands for no scope.
    /// - `OutOfMemory` if memory runs out.
    pub fn read_build_scope(&mut self, alloc: Global) -> Result<RecordedBuildScope, RecordReadError>
        ensures answer { (es : List Entry)
            → Holds D.files self.old es
            → Answers (λ x. x)
            (metadata_part recorded_scope_form build_scope_path es self.old.limit) result }
        ensures same { Keeps self.old.limit self.new.limit (Holds D.files self.old)
            (Holds D.files self.new) }
        ensures cause { DiskCause (D.faults self.old.disk.now) (D.faults self.new.disk.now) result }
        ensures store { JudgesStore (D.files self.old.disk.now) (path_of_store self.old.run_dir)
            self.new.store result }
        ensures kept { KeepsRun D.files self.old self.new }
    {
        self.load(alloc)?;
        self.kept().metadata(alloc, BUILD_SCOPE_JSON_PATH)
    }

    /// Reads which run this one is a rerun of, or none where its store has no such entry.
    ///
    /// # Errors
    ///
    /// - `OpenArchive` exactly where the store is missing, `ParseArchive` exactly where it is no
    ///   container.
    /// - `DiskFault` where the disk fails. A store that is kept isn't read again.
    /// - `FileTooLarge` exactly where it is longer than the limit.
    /// - `DeserializeMetadata` exactly where it stands for no rerun information.
    /// - `OutOfMemory` if memory runs out.
    pub fn read_rerun_info(&mut self, alloc: Global) -> Result<Option<RerunInfo>, RecordReadError>
        ensures answer { (es : List Entry)
            → Holds D.files self.old es
            → Answers (λ x. x) (rerun_info_part es self.old.limit) result }
        ensures same { Keeps self.old.limit self.new.limit (Holds D.files self.old)
            (Holds D.files self.new) }
        ensures cause { DiskCause (D.faults self.old.disk.now) (D.faults self.new.disk.now) result }
        ensures store { JudgesStore (D.files self.old.disk.now) (path_of_store self.old.run_dir)
            self.new.store result }
        ensures kept { KeepsRun D.files self.old self.new }
    {
        self.load(alloc)?;
        self.kept().rerun_info(alloc)
    }

    /// Reads the output of a name, which stands in the store under `out/` and the name.
    ///
    /// # Errors
    ///
    /// - `OpenArchive` exactly where the store is missing, `ParseArchive` exactly where it is no
    ///   container.
    /// - `DiskFault` where the disk fails. A store that is kept isn't read again.
    /// - `FileNotFound` exactly where its entry isn't there, `FileTooLarge` exactly where it is
    ///   longer than the limit.
    /// - `UnknownOutputType` exactly where the name says no kind of output.
    /// - `OutOfMemory` if memory runs out.
    pub fn read_output(
        &mut self,
        alloc: Global,
        file_name: &str,
    ) -> Result<Vec<u8>, RecordReadError>
        ensures answer { (es : List Entry)
            → Holds D.files self.old es
            → Answers (λ v. v.items) (output_part file_name.now es self.old.limit) result }
        ensures same { Keeps self.old.limit self.new.limit (Holds D.files self.old)
            (Holds D.files self.new) }
        ensures cause { DiskCause (D.faults self.old.disk.now) (D.faults self.new.disk.now) result }
        ensures store { JudgesStore (D.files self.old.disk.now) (path_of_store self.old.run_dir)
            self.new.store result }
        ensures kept { KeepsRun D.files self.old self.new }
    {
        self.load(alloc)?;
        self.kept().output(alloc, file_name)
    }

    /// Writes an entry to a sink, whatever its length, and returns its length in bytes.
    ///
    /// # Errors
    ///
    /// - `OpenArchive` exactly where the store is missing, `ParseArchive` exactly where it is no
    ///   container.
    /// - `DiskFault` where the disk fails. A store that is kept isn't read again.
    /// - `FileNotFound` exactly where its entry isn't there.
    /// - `ExtractFile` where the sink fails. It took a proper prefix of the entry; after any other
    ///   error it is as it was.
    /// - `OutOfMemory` if memory runs out.
    pub fn extract_file_to_path(
        &mut self,
        alloc: Global,
        store_path: &str,
        out: &mut dyn Sink,
    ) -> Result<u64, RecordReadError>
        ensures answer { (es : List Entry)
            → Holds D.files self.old es
            → Extracts (taken out.old) (taken out.new) store_path.now es result }
        ensures same { Keeps self.old.limit self.new.limit (Holds D.files self.old)
            (Holds D.files self.new) }
        ensures cause { DiskCause (D.faults self.old.disk.now) (D.faults self.new.disk.now) result }
        ensures store { JudgesStore (D.files self.old.disk.now) (path_of_store self.old.run_dir)
            self.new.store result }
        ensures kept { KeepsRun D.files self.old self.new }
        ensures sink { SinkCause ((⟦<dyn Sink as Sink>⟧ out.old.0).faults out.old.1)
            ((⟦<dyn Sink as Sink>⟧ out.new.0).faults out.new.1) result }
        ensures left { IfErr result (LeavesSink (taken out.old) (taken out.new)) }
    {
        self.load(alloc)?;
        self.kept().extract(alloc, store_path, out)
    }
}

impl<D: Disk> StoreReader for RecordReader<'_, D> {
    ghost limit = { λ r. r.limit };

    ghost holds = { Holds D.files };

    ghost failures = { λ r. D.faults r.disk.now };

    fn read_cargo_metadata(&mut self, alloc: Global) -> Result<String, RecordReadError> {
        RecordReader::read_cargo_metadata(self, alloc)
    }

    fn read_test_list(&mut self, alloc: Global) -> Result<TestListSummary, RecordReadError> {
        RecordReader::read_test_list(self, alloc)
    }

    fn read_record_opts(&mut self, alloc: Global) -> Result<RecordOpts, RecordReadError> {
        RecordReader::read_record_opts(self, alloc)
    }

    fn read_build_scope(&mut self, alloc: Global) -> Result<RecordedBuildScope, RecordReadError> {
        RecordReader::read_build_scope(self, alloc)
    }

    fn read_rerun_info(&mut self, alloc: Global) -> Result<Option<RerunInfo>, RecordReadError> {
        RecordReader::read_rerun_info(self, alloc)
    }

    fn read_output(&mut self, alloc: Global, file_name: &str) -> Result<Vec<u8>, RecordReadError> {
        RecordReader::read_output(self, alloc, file_name)
    }

    fn extract_file_to_path(
        &mut self,
        alloc: Global,
        store_path: &str,
        out: &mut dyn Sink,
    ) -> Result<u64, RecordReadError> {
        RecordReader::extract_file_to_path(self, alloc, store_path, out)
    }
}
