//! The metadata of a store that may be cut off: each part is judged, and none is kept.
ghost use Rattle.std.specs.Prelude.{Some};
ghost use Rattle.std.specs.Str.{is_utf8};
ghost use Rattle.rec_container.specs.Container.{content_of};
ghost use Rattle.rec_format.specs.RerunForms.{rerun_info_form};
ghost use Rattle.rec_store.specs.Entries.{rerun_info_path};
ghost use Rattle.rec_salvage.specs.declared.errors.SalvageError.TheVariants.{BadMeta, MissingMeta};
ghost use Rattle.rec_salvage.specs.Refusals.{IsRefusal, Judges, content_refusal, prefix_refusal};
ghost use Rattle.rec_salvage.specs.Refusals.{maybe_refusal, part_refusal, stands_for};

use crate::errors::SalvageError;
use rec_container::Container;
use rec_events::{RecordOpts, TestListSummary, Text};
use rec_format::{
    BUILD_SCOPE_JSON_PATH, CARGO_METADATA_JSON_PATH, RECORD_OPTS_JSON_PATH, RERUN_INFO_JSON_PATH,
    RecordedBuildScope, RerunInfo, TEST_LIST_JSON_PATH,
};
use rec_forms::{Form, FromValueError, read_text};
use std::alloc::Global;

/// Judges the metadata of a run, part by part.
///
/// # Errors
///
/// - `MissingMeta` exactly where the first part that isn't read is missing.
/// - `BadMeta` exactly where it stands for nothing.
/// - `OutOfMemory` if memory runs out.
pub(crate) fn check_metadata(alloc: Global, prefix: &Container<'_>) -> Result<(), SalvageError>
    ensures { Judges (prefix_refusal prefix.now.entries) result }
{
    check_part::<RecordedBuildScope>(alloc, prefix, BUILD_SCOPE_JSON_PATH)?;
    check_rerun_info(alloc, prefix)?;
    check_part::<TestListSummary>(alloc, prefix, TEST_LIST_JSON_PATH)?;
    check_text(alloc, prefix, CARGO_METADATA_JSON_PATH)?;
    check_part::<RecordOpts>(alloc, prefix, RECORD_OPTS_JSON_PATH)
}

/// Judges a part that each run has.
fn check_part<T: Form + Drop>(
    alloc: Global,
    prefix: &Container<'_>,
    path: &str,
) -> Result<(), SalvageError>
    ensures { Judges
        (part_refusal path.now (stands_for T.form_of) (content_of prefix.now.entries path.now))
        result }
{
    match prefix.get(path) {
        Some(content) => check_form::<T>(alloc, path, content),
        None => Err(missing(alloc, path)),
    }
}

/// Judges the rerun information, which may be missing.
fn check_rerun_info(alloc: Global, prefix: &Container<'_>) -> Result<(), SalvageError>
    ensures { Judges
        (maybe_refusal rerun_info_path (stands_for rerun_info_form)
        (content_of prefix.now.entries rerun_info_path)) result }
{
    match prefix.get(RERUN_INFO_JSON_PATH) {
        Some(content) => check_form::<RerunInfo>(alloc, RERUN_INFO_JSON_PATH, content),
        None => Ok(()),
    }
}

/// Judges a part that is a text.
fn check_text(alloc: Global, prefix: &Container<'_>, path: &str) -> Result<(), SalvageError>
    ensures { Judges (part_refusal path.now is_utf8 (content_of prefix.now.entries path.now))
        result }
{
    match prefix.get(path) {
        Some(content) => check_utf8(alloc, path, content),
        None => Err(missing(alloc, path)),
    }
}

/// Judges whether a content stands for an item.
fn check_form<T: Form + Drop>(alloc: Global, path: &str, content: &[u8]) -> Result<(), SalvageError>
    ensures { Judges (content_refusal path.now (stands_for T.form_of content.now)) result }
{
    match read_text::<T>(alloc, content) {
        Ok(item) => {
            drop(item);
            Ok(())
        }
        Err(FromValueError::NotAValue) => Err(bad(alloc, path)),
        Err(FromValueError::OutOfMemory) => Err(SalvageError::OutOfMemory),
    }
}

/// Judges whether a content is UTF-8.
fn check_utf8(alloc: Global, path: &str, content: &[u8]) -> Result<(), SalvageError>
    ensures { Judges (content_refusal path.now (is_utf8 content.now)) result }
{
    match str::from_utf8(content) {
        Ok(_) => Ok(()),
        Err(_) => Err(bad(alloc, path)),
    }
}

/// Returns the refusal of a part that is missing.
fn missing(alloc: Global, path: &str) -> SalvageError
    ensures { IsRefusal (Some (MissingMeta path.now)) result }
{
    match Text::from_str(alloc, path) {
        Ok(file_name) => SalvageError::MissingMeta { file_name },
        Err(error) => SalvageError::from(error),
    }
}

/// Returns the refusal of a part that stands for nothing.
fn bad(alloc: Global, path: &str) -> SalvageError
    ensures { IsRefusal (Some (BadMeta path.now)) result }
{
    match Text::from_str(alloc, path) {
        Ok(file_name) => SalvageError::BadMeta { file_name },
        Err(error) => SalvageError::from(error),
    }
}
