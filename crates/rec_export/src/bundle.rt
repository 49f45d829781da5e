//! The manifest of a bundle, and the judging of its length, its manifest and its log.
ghost use Rattle.std.specs.Option.{option_or};
ghost use Rattle.std.specs.Prelude.{◌≡◌, ◌<◌, ◌^◌, length, IfOk};
ghost use Rattle.serde_json.specs.Written.{compact_text};
ghost use Rattle.rec_container.specs.Container.{spell};
ghost use Rattle.rec_container.specs.Writing.{entry_named};
ghost use Rattle.rec_format.specs.RunForms.{manifest_value};
ghost use Rattle.rec_format.specs.Runs.{manifest_of, recorded_info};
ghost use Rattle.rec_store.specs.Entries.{log_name, manifest_name};
ghost use Rattle.rec_export.specs.Prepared.{bundle_of_contents, contents_refusal};
ghost use Rattle.rec_export.specs.Sizes.{AnswersRefusal, entry_refusal};

use crate::discarding::DiscardingSink;
use crate::sizes::judge_size;
use rec_container::ContainerWriter;
use rec_errors::RecordExportError;
use rec_format::{PORTABLE_MANIFEST_FILE_NAME, RUN_LOG_FILE_NAME, RecordedSizes, SessionHead};
use rec_store::{recorded_bundle_length, write_manifest};
use std::alloc::{AllocError, Global};

/// Holds the manifest of a bundle that a reader takes.
#[derive(Drop)]
pub struct JudgedManifest {
    /// The text of the manifest.
    pub text: Vec<u8>,
    /// The length of the whole bundle, in bytes.
    pub bundle_bytes: u64,
}

/// Writes the manifest of a run with these sizes, and judges the bundle of it, this log and this
/// store: its length, the manifest and the log, in this order. The bundle is not built for it.
///
/// # Errors
///
/// `CountOutOfRange` comes exactly where the length is no u64, `FileTooLarge` exactly where the
/// manifest or the log is longer than the limit, and `OutOfMemory` for want of memory.
pub fn judge_contents(
    alloc: Global,
    limit: u64,
    head: &SessionHead,
    sizes: RecordedSizes,
    log: &[u8],
    store: &ContainerWriter<DiscardingSink>,
) -> Result<JudgedManifest, RecordExportError>
    ensures text { IfOk result
        (λ j. j.text.items
        ≡ compact_text (manifest_value (manifest_of (recorded_info head.now sizes)))) }
    ensures bytes { IfOk result
        (λ j. j.bundle_bytes
        ≡ length (bundle_of_contents j.text.items log.now (spell store.now.entries))) }
    ensures fits { IfOk result
        (λ j. length (bundle_of_contents j.text.items log.now (spell store.now.entries)) < 2 ^ 64) }
    ensures judged { AnswersRefusal result
        (contents_refusal limit
        (compact_text (manifest_value (manifest_of (recorded_info head.now sizes)))) log.now
        (spell store.now.entries)) }
{
    let text = build_manifest(alloc, head, sizes)?;
    let Some(bundle_bytes) = recorded_bundle_length(&text, log, store) else {
        return Err(RecordExportError::CountOutOfRange { event: None });
    };
    judge_two(alloc, limit, &text, log)?;
    Ok(JudgedManifest { text, bundle_bytes })
}

/// Judges the sizes of a manifest and of a log, in this order.
fn judge_two(
    alloc: Global,
    limit: u64,
    manifest: &[u8],
    log: &[u8],
) -> Result<(), RecordExportError>
    ensures { AnswersRefusal result
        (option_or (entry_refusal limit (entry_named manifest_name manifest.now))
        (entry_refusal limit (entry_named log_name log.now))) }
{
    judge_size(alloc, limit, PORTABLE_MANIFEST_FILE_NAME, manifest)?;
    judge_size(alloc, limit, RUN_LOG_FILE_NAME, log)
}

/// Writes the text of the manifest of a run with these sizes.
fn build_manifest(
    alloc: Global,
    head: &SessionHead,
    sizes: RecordedSizes,
) -> Result<Vec<u8>, AllocError>
    ensures { IfOk result
        (λ b. b.items
        ≡ compact_text (manifest_value (manifest_of (recorded_info head.now sizes)))) }
{
    let info = head.run_info(alloc, sizes)?;
    let text = write_manifest(alloc, &info);
    info.discard();
    text
}
