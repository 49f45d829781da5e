//! The store in a bundle.
ghost use Rattle.std.specs.Option.{option_map};
ghost use Rattle.std.specs.Prelude.{◌≡◌};
ghost use Rattle.rec_portable.specs.OuterEntries.{OpensStore};

use crate::errors::PortableRecordingReadError;
use crate::parts::parse;
use rec_container::{Container, Sink};
use rec_events::{RecordOpts, TestListSummary, Text};
use rec_format::{
    BUILD_SCOPE_JSON_PATH, CARGO_METADATA_JSON_PATH, RECORD_OPTS_JSON_PATH, RecordedBuildScope,
    RerunInfo, STORE_ZIP_FILE_NAME, TEST_LIST_JSON_PATH,
};
use rec_store::parts::{
    extract_entry, read_metadata, read_output, read_rerun_info, read_text_entry,
};
use rec_store::{RecordReadError, StoreReader};
use std::alloc::Global;
use std::marker::Model;

/// Reads the store in a bundle. Its entries are windows of the bundle's bytes.
#[derive(Drop)]
pub struct PortableStoreReader<'a> {
    entries: Container<'a>,
    limit: u64,
}

impl<'a> Model for PortableStoreReader<'a> {
    ghost use Rattle.rec_portable.specs.Stores.{StoreReading};

    ghost Value = { StoreReading };

    ghost view = { λ r. record { entries = r.entries.entries; limit = r.limit } };
}

impl<'a> PortableStoreReader<'a> {
    /// Opens the store that was found.
    pub(crate) fn open(
        alloc: Global,
        limit: u64,
        found: Option<&'a [u8]>,
    ) -> Result<PortableStoreReader<'a>, PortableRecordingReadError>
        ensures { OpensStore limit (option_map (λ b. b.now) found.entry) result }
    {
        let Some(bytes) = found else {
            let file_name = Text::from_str(alloc, STORE_ZIP_FILE_NAME)?;
            return Err(PortableRecordingReadError::MissingFile { file_name });
        };
        let entries = parse(alloc, bytes)?;
        Ok(PortableStoreReader { entries, limit })
    }

    /// Lends the entries of the store.
    pub(crate) fn entries(&self) -> &Container<'a>
        ensures { result.now.entries ≡ self.now.entries }
    {
        &self.entries
    }
}

impl StoreReader for PortableStoreReader<'_> {
    ghost limit = { λ r. r.limit };

    ghost holds = { λ r es. es ≡ r.entries };

    ghost failures = { λ _. 0 };

    fn read_cargo_metadata(&mut self, alloc: Global) -> Result<String, RecordReadError> {
        read_text_entry(alloc, &self.entries, self.limit, CARGO_METADATA_JSON_PATH)
    }

    fn read_test_list(&mut self, alloc: Global) -> Result<TestListSummary, RecordReadError> {
        read_metadata(alloc, &self.entries, self.limit, TEST_LIST_JSON_PATH)
    }

    fn read_record_opts(&mut self, alloc: Global) -> Result<RecordOpts, RecordReadError> {
        read_metadata(alloc, &self.entries, self.limit, RECORD_OPTS_JSON_PATH)
    }

    fn read_build_scope(&mut self, alloc: Global) -> Result<RecordedBuildScope, RecordReadError> {
        read_metadata(alloc, &self.entries, self.limit, BUILD_SCOPE_JSON_PATH)
    }

    fn read_rerun_info(&mut self, alloc: Global) -> Result<Option<RerunInfo>, RecordReadError> {
        read_rerun_info(alloc, &self.entries, self.limit)
    }

    fn read_output(&mut self, alloc: Global, file_name: &str) -> Result<Vec<u8>, RecordReadError> {
        read_output(alloc, &self.entries, self.limit, file_name)
    }

    fn extract_file_to_path(
        &mut self,
        alloc: Global,
        store_path: &str,
        out: &mut dyn Sink,
    ) -> Result<u64, RecordReadError> {
        extract_entry(alloc, &self.entries, store_path, out)
    }
}
