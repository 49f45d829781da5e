//! The metadata of a run, as a store holds it and as a manifest does.
ghost use Rattle.std.specs.Prelude.{◌≡◌, IfErr, IfOk, OnOk, false};
ghost use Rattle.serde_json.specs.Written.{compact_text};
ghost use Rattle.rec_format.specs.RunForms.{manifest_value};
ghost use Rattle.rec_format.specs.Runs.{manifest_of};
ghost use Rattle.rec_store.specs.Recording.{Stores, Unstored, has_failed};
ghost use Rattle.rec_store.specs.Store.{metadata_of, rerun_entries};

use crate::error::RunStoreError;
use crate::namer::OutputNamer;
use crate::recorder::RunRecorder;
use rec_container::Sink;
use rec_events::{RecordOpts, TestListSummary};
use rec_format::{PortableManifest, RecordedBuildScope, RecordedRunInfo, RerunInfo};
use rec_forms::write_text;
use std::alloc::{AllocError, Global};

/// Stores the metadata of a run: build scope, rerun information if there is any, test list, cargo's
/// metadata and record options, each once and in this order.
///
/// # Errors
///
/// Those of [`RunRecorder::write_meta`]. What stands before the refused one is stored.
pub fn write_metadata<S: Sink, L: Sink, N: OutputNamer>(
    recorder: &mut RunRecorder<'_, S, L, N>,
    build_scope: &RecordedBuildScope,
    rerun_info: &Option<RerunInfo>,
    cargo_metadata: &str,
    test_list: &TestListSummary,
    record_opts: &RecordOpts,
) -> Result<(), RunStoreError>
    requires sound { has_failed recorder.old ≡ false }
    ensures ok { OnOk result (Stores S.taken S.faults recorder.old recorder.new
        (metadata_of build_scope.now rerun_info.now cargo_metadata.now test_list.now
        record_opts.now)) }
    ensures err { IfErr result (Unstored S.taken S.faults recorder.old recorder.new
        (metadata_of build_scope.now rerun_info.now cargo_metadata.now test_list.now
        record_opts.now)) }
{
    recorder.write_build_scope(build_scope)?;
    write_rerun(recorder, rerun_info)?;
    recorder.write_meta(cargo_metadata, test_list, record_opts)
}

/// Stores which run this one is a rerun of, if any.
fn write_rerun<S: Sink, L: Sink, N: OutputNamer>(
    recorder: &mut RunRecorder<'_, S, L, N>,
    rerun_info: &Option<RerunInfo>,
) -> Result<(), RunStoreError>
    requires sound { has_failed recorder.old ≡ false }
    ensures ok { OnOk result
        (Stores S.taken S.faults recorder.old recorder.new (rerun_entries rerun_info.now)) }
    ensures err { IfErr result
        (Unstored S.taken S.faults recorder.old recorder.new (rerun_entries rerun_info.now)) }
{
    match rerun_info {
        Some(rerun_info) => recorder.write_rerun_info(rerun_info),
        None => Ok(()),
    }
}

/// Writes the text of the manifest of a run.
///
/// # Errors
///
/// `AllocError` comes where memory ran out.
pub fn write_manifest(alloc: Global, run: &RecordedRunInfo) -> Result<Vec<u8>, AllocError>
    ensures { IfOk result
        (λ text. text.items ≡ compact_text (manifest_value (manifest_of run.now))) }
{
    let manifest = PortableManifest::new(alloc, run)?;
    let text = write_text(alloc, &manifest);
    manifest.discard();
    text
}
