//! The metadata of a run, written anew.
ghost use Rattle.std.specs.Prelude.{◌≡◌, length, map, IfOk};
ghost use Rattle.serde_json.specs.Written.{compact_text};
ghost use Rattle.rec_container.specs.NamedContents.{entry_of};
ghost use Rattle.rec_store.specs.Parts.{metadata_part, rerun_info_part};
ghost use Rattle.rec_portable.specs.Rewriting.{IsRerunText, Rewrites, metadata_entries};
ghost use Rattle.rec_portable.specs.Rewriting.{metadata_judged, text_entries};

use rec_container::{Container, NamedContent};
use rec_events::{RecordOpts, TestListSummary};
use rec_format::{
    BUILD_SCOPE_JSON_PATH, CARGO_METADATA_JSON_PATH, RECORD_OPTS_JSON_PATH, RERUN_INFO_JSON_PATH,
    RecordedBuildScope, TEST_LIST_JSON_PATH,
};
use rec_forms::{Form, write_text};
use rec_store::RecordReadError;
use rec_store::parts::{read_metadata, read_rerun_info, read_text_entry};
use std::alloc::{AllocError, Global};

/// Holds the texts of metadata.
#[derive(Drop)]
pub(crate) struct MetadataTexts {
    build_scope: Vec<u8>,
    rerun_info: Option<Vec<u8>>,
    test_list: Vec<u8>,
    cargo_metadata: String,
    record_opts: Vec<u8>,
}

impl MetadataTexts {
    /// Reads the metadata of a store, in the order in which it is recorded, and writes it anew.
    pub(crate) fn read(
        alloc: Global,
        limit: u64,
        entries: &Container<'_>,
    ) -> Result<MetadataTexts, RecordReadError>
        ensures { Rewrites (λ m t. text_entries t ≡ metadata_entries m)
            (metadata_judged limit entries.now.entries) result }
    {
        let build_scope = rewrite::<RecordedBuildScope>(
            alloc,
            limit,
            entries,
            BUILD_SCOPE_JSON_PATH,
        )?;
        let rerun_info = rewrite_rerun_info(alloc, limit, entries)?;
        let test_list = rewrite::<TestListSummary>(alloc, limit, entries, TEST_LIST_JSON_PATH)?;
        let cargo_metadata = read_text_entry(alloc, entries, limit, CARGO_METADATA_JSON_PATH)?;
        let record_opts = rewrite::<RecordOpts>(alloc, limit, entries, RECORD_OPTS_JSON_PATH)?;
        Ok(MetadataTexts {
            build_scope,
            rerun_info,
            test_list,
            cargo_metadata,
            record_opts,
        })
    }

    /// Returns how many texts there are.
    pub(crate) fn count(&self) -> usize
        ensures { result ≡ length (text_entries self.now) }
    {
        match self.rerun_info {
            Some(_) => 5,
            None => 4,
        }
    }

    /// Lends the texts with their paths, in the order of a recording.
    pub(crate) fn contents<'a>(&'a self, alloc: Global) -> Result<Vec<NamedContent<'a>>, AllocError>
        ensures { IfOk result (λ cs. map entry_of cs.items ≡ text_entries self.now) }
    {
        let scope = named(BUILD_SCOPE_JSON_PATH, &self.build_scope);
        let list = named(TEST_LIST_JSON_PATH, &self.test_list);
        let metadata = named(CARGO_METADATA_JSON_PATH, self.cargo_metadata.as_bytes());
        let opts = named(RECORD_OPTS_JSON_PATH, &self.record_opts);
        match &self.rerun_info {
            None => [scope, list, metadata, opts].to_vec(alloc),
            Some(text) => {
                let rerun = named(RERUN_INFO_JSON_PATH, text);
                [scope, rerun, list, metadata, opts].to_vec(alloc)
            }
        }
    }
}

/// Reads the item under a path, and writes its text anew.
fn rewrite<T: Form + Drop>(
    alloc: Global,
    limit: u64,
    entries: &Container<'_>,
    path: &str,
) -> Result<Vec<u8>, RecordReadError>
    ensures { Rewrites (λ x text. text.items ≡ compact_text (T.value_of x))
        (metadata_part T.form_of path.now entries.now.entries limit) result }
{
    let item: T = read_metadata(alloc, entries, limit, path)?;
    let text = write_text(alloc, &item);
    // By a call: in place, each part of an item would be a case of the proof.
    drop(item);
    Ok(text?)
}

/// Reads which run a store's run is a rerun of, if any, and writes it anew.
fn rewrite_rerun_info(
    alloc: Global,
    limit: u64,
    entries: &Container<'_>,
) -> Result<Option<Vec<u8>>, RecordReadError>
    ensures { Rewrites IsRerunText (rerun_info_part entries.now.entries limit) result }
{
    match read_rerun_info(alloc, entries, limit)? {
        None => Ok(None),
        Some(info) => {
            let text = write_text(alloc, &info);
            drop(info);
            Ok(Some(text?))
        }
    }
}

/// Makes a content with its name.
fn named<'a>(name: &'a str, content: &'a [u8]) -> NamedContent<'a>
    ensures name { result.name.now ≡ name.now }
    ensures content { result.content.now ≡ content.now }
{
    NamedContent { name, content }
}
