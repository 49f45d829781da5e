//! What reads the parts of a store.
ghost use Rattle.std.specs.Prelude.{◌≡◌, List, ℕ, string_bytes};
ghost use Rattle.rec_container.specs.Container.{Entry};
ghost use Rattle.rec_forms.specs.Recording.{test_list_form, record_opts_form};
ghost use Rattle.rec_format.specs.ScopeForms.{recorded_scope_form};
ghost use Rattle.rec_store.specs.Entries.{build_scope_path, cargo_metadata_path};
ghost use Rattle.rec_store.specs.Entries.{test_list_path, record_opts_path};
ghost use Rattle.rec_store.specs.Parts.{metadata_part, output_part, rerun_info_part, utf8_part};
ghost use Rattle.rec_store.specs.Readers.{Answers, DiskCause, Extracts, Keeps, SinkCause};

use crate::read_error::RecordReadError;
use rec_container::Sink;
use rec_events::{RecordOpts, TestListSummary};
use rec_format::{RecordedBuildScope, RerunInfo};
use std::alloc::Global;

/// Reads the parts of a store.
///
/// A reader has a limit in bytes, a count of its failures and, where it knows them, the store's
/// entries. Where it knows them, each call answers the part that they have, or why they have none;
/// `OpenArchive` and `ParseArchive` never come then. `DiskFault` comes only where the count rose.
/// No call changes limit or entries.
pub trait StoreReader {
    /// The most bytes of an entry that is read.
    ghost limit: { Self → ℕ };

    /// Whether these are the store's entries, as far as the reader knows them.
    ghost holds: { Self → List Entry → Type 0 };

    /// How often it has failed. The count stays at u64's greatest once it is there.
    ghost failures: { Self → ℕ };

    /// Reads cargo's metadata.
    ///
    /// # Errors
    ///
    /// Those of [`read_text_entry`](crate::parts::read_text_entry),
    /// or a fault of what it reads from.
    fn read_cargo_metadata(&mut self, alloc: Global) -> Result<String, RecordReadError>
        ensures answer { (es : List Entry)
            → holds self.old es
            → Answers string_bytes (utf8_part cargo_metadata_path es (limit self.old)) result }
        ensures same { Keeps (limit self.old) (limit self.new) (holds self.old) (holds self.new) }
        ensures cause { DiskCause (failures self.old) (failures self.new) result };

    /// Reads the test list.
    ///
    /// # Errors
    ///
    /// Those of [`read_metadata`](crate::parts::read_metadata), or a fault of what it reads from.
    fn read_test_list(&mut self, alloc: Global) -> Result<TestListSummary, RecordReadError>
        ensures answer { (es : List Entry)
            → holds self.old es
            → Answers (λ x. x) (metadata_part test_list_form test_list_path es (limit self.old))
            result }
        ensures same { Keeps (limit self.old) (limit self.new) (holds self.old) (holds self.new) }
        ensures cause { DiskCause (failures self.old) (failures self.new) result };

    /// Reads the record options.
    ///
    /// # Errors
    ///
    /// Those of [`read_metadata`](crate::parts::read_metadata), or a fault of what it reads from.
    fn read_record_opts(&mut self, alloc: Global) -> Result<RecordOpts, RecordReadError>
        ensures answer { (es : List Entry)
            → holds self.old es
            → Answers (λ x. x) (metadata_part record_opts_form record_opts_path es (limit self.old))
            result }
        ensures same { Keeps (limit self.old) (limit self.new) (holds self.old) (holds self.new) }
        ensures cause { DiskCause (failures self.old) (failures self.new) result };

    /// Reads the build scope.
    ///
    /// # Errors
    ///
    /// Those of [`read_metadata`](crate::parts::read_metadata), or a fault of what it reads from.
    fn read_build_scope(&mut self, alloc: Global) -> Result<RecordedBuildScope, RecordReadError>
        ensures answer { (es : List Entry)
            → holds self.old es
            → Answers (λ x. x)
            (metadata_part recorded_scope_form build_scope_path es (limit self.old)) result }
        ensures same { Keeps (limit self.old) (limit self.new) (holds self.old) (holds self.new) }
        ensures cause { DiskCause (failures self.old) (failures self.new) result };

    /// Reads which run this one is a rerun of, or none where its store has no such entry.
    ///
    /// # Errors
    ///
    /// Those of [`read_rerun_info`](crate::parts::read_rerun_info),
    /// or a fault of what it reads from.
    fn read_rerun_info(&mut self, alloc: Global) -> Result<Option<RerunInfo>, RecordReadError>
        ensures answer { (es : List Entry)
            → holds self.old es
            → Answers (λ x. x) (rerun_info_part es (limit self.old)) result }
        ensures same { Keeps (limit self.old) (limit self.new) (holds self.old) (holds self.new) }
        ensures cause { DiskCause (failures self.old) (failures self.new) result };

    /// Reads the output of a name, which stands in the store under `out/` and the name.
    ///
    /// # Errors
    ///
    /// Those of [`read_output`](crate::parts::read_output), or a fault of what it reads from.
    fn read_output(&mut self, alloc: Global, file_name: &str) -> Result<Vec<u8>, RecordReadError>
        ensures answer { (es : List Entry)
            → holds self.old es
            → Answers (λ v. v.items) (output_part file_name.now es (limit self.old)) result }
        ensures same { Keeps (limit self.old) (limit self.new) (holds self.old) (holds self.new) }
        ensures cause { DiskCause (failures self.old) (failures self.new) result };

    /// Writes an entry to a sink, whatever its length, and returns its length in bytes.
    ///
    /// # Errors
    ///
    /// Those of [`extract_entry`](crate::parts::extract_entry), or a fault of what it reads from.
    fn extract_file_to_path(
        &mut self,
        alloc: Global,
        store_path: &str,
        out: &mut dyn Sink,
    ) -> Result<u64, RecordReadError>
        ensures answer { (es : List Entry)
            → holds self.old es
            → Extracts (taken out.old) (taken out.new) store_path.now es result }
        ensures same { Keeps (limit self.old) (limit self.new) (holds self.old) (holds self.new) }
        ensures cause { DiskCause (failures self.old) (failures self.new) result }
        ensures sink { SinkCause (faults out.old) (faults out.new) result };
}
