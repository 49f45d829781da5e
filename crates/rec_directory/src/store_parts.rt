//! The parts of a store whose bytes are at hand.
ghost use Rattle.std.specs.Prelude.{◌≡◌, List, IfErr, string_bytes};
ghost use Rattle.rec_container.specs.Container.{Entry, IsContainer};
ghost use Rattle.rec_store.specs.Parts.{metadata_part, output_part, rerun_info_part, utf8_part};
ghost use Rattle.rec_store.specs.Readers.{Extracts, NoDiskFault, Reads, SinkCause};
ghost use Rattle.rec_directory.specs.Directories.{JudgesBytes, LeavesSink};
ghost use Rattle.rec_directory.specs.Paths.{path_of_store};

use crate::store::parse_store;
use rec_container::Sink;
use rec_format::RerunInfo;
use rec_forms::Form;
use rec_store::RecordReadError;
use rec_store::parts::{
    extract_entry, read_metadata, read_output, read_rerun_info, read_text_entry,
};
use std::alloc::Global;

/// Holds the bytes of a store and the run's directory that it is from.
#[derive(Clone, Copy)]
pub(crate) struct StoreBytes<'s> {
    pub(crate) run_dir: &'s str,
    pub(crate) bytes: &'s [u8],
    /// The most bytes of an entry that is read.
    pub(crate) limit: u64,
}

impl StoreBytes<'_> {
    /// Reads the item under a path.
    pub(crate) fn metadata<T: Form>(&self, alloc: Global, path: &str) -> Result<T, RecordReadError>
        ensures answer { (es : List Entry)
            → IsContainer self.now.bytes.now es
            → Reads (λ x. x) (metadata_part T.form_of path.now es self.now.limit) result }
        ensures judged { JudgesBytes (path_of_store self.now.run_dir.now) self.now.bytes.now
            result }
        ensures disk { NoDiskFault result }
    {
        let entries = parse_store(alloc, self.run_dir, self.bytes)?;
        read_metadata(alloc, &entries, self.limit, path)
    }

    /// Reads the text under a path.
    pub(crate) fn text(&self, alloc: Global, path: &str) -> Result<String, RecordReadError>
        ensures answer { (es : List Entry)
            → IsContainer self.now.bytes.now es
            → Reads string_bytes (utf8_part path.now es self.now.limit) result }
        ensures judged { JudgesBytes (path_of_store self.now.run_dir.now) self.now.bytes.now
            result }
        ensures disk { NoDiskFault result }
    {
        let entries = parse_store(alloc, self.run_dir, self.bytes)?;
        read_text_entry(alloc, &entries, self.limit, path)
    }

    /// Reads which run this one is a rerun of, where it is one.
    pub(crate) fn rerun_info(&self, alloc: Global) -> Result<Option<RerunInfo>, RecordReadError>
        ensures answer { (es : List Entry)
            → IsContainer self.now.bytes.now es
            → Reads (λ x. x) (rerun_info_part es self.now.limit) result }
        ensures judged { JudgesBytes (path_of_store self.now.run_dir.now) self.now.bytes.now
            result }
        ensures disk { NoDiskFault result }
    {
        let entries = parse_store(alloc, self.run_dir, self.bytes)?;
        read_rerun_info(alloc, &entries, self.limit)
    }

    /// Reads the output of a name.
    pub(crate) fn output(&self, alloc: Global, file_name: &str) -> Result<Vec<u8>, RecordReadError>
        ensures answer { (es : List Entry)
            → IsContainer self.now.bytes.now es
            → Reads (λ v. v.items) (output_part file_name.now es self.now.limit) result }
        ensures judged { JudgesBytes (path_of_store self.now.run_dir.now) self.now.bytes.now
            result }
        ensures disk { NoDiskFault result }
    {
        let entries = parse_store(alloc, self.run_dir, self.bytes)?;
        read_output(alloc, &entries, self.limit, file_name)
    }

    /// Writes an entry to a sink, whatever its length, and returns its length in bytes.
    pub(crate) fn extract(
        &self,
        alloc: Global,
        path: &str,
        out: &mut dyn Sink,
    ) -> Result<u64, RecordReadError>
        ensures answer { (es : List Entry)
            → IsContainer self.now.bytes.now es
            → Extracts (taken out.old) (taken out.new) path.now es result }
        ensures judged { JudgesBytes (path_of_store self.now.run_dir.now) self.now.bytes.now
            result }
        ensures left { IfErr result (LeavesSink (taken out.old) (taken out.new)) }
        ensures sink { SinkCause (faults out.old) (faults out.new) result }
        ensures disk { NoDiskFault result }
    {
        let entries = parse_store(alloc, self.run_dir, self.bytes)?;
        extract_entry(alloc, &entries, path, out)
    }
}
