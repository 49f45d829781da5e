//! The sizes of what is to be written.
ghost use Rattle.std.specs.Prelude.{◌≡◌, ◌∷◌, [], map};
ghost use Rattle.rec_container.specs.NamedContents.{entry_of};
ghost use Rattle.rec_container.specs.Writing.{entry_named};
ghost use Rattle.rec_store.specs.Entries.{log_name, manifest_name};
ghost use Rattle.rec_portable.specs.Rewriting.{Judges};
ghost use Rattle.rec_portable.specs.Upgrading.{entries_refusal, unless};

use crate::upgrade_error::UpgradeError;
use rec_container::NamedContent;
use rec_format::{PORTABLE_MANIFEST_FILE_NAME, RUN_LOG_FILE_NAME};
use rec_store::judge_size;
use std::alloc::Global;

/// Judges the sizes of the manifest, the log and each entry of the store, in this order.
pub(crate) fn judge_sizes(
    alloc: Global,
    limit: u64,
    manifest: &[u8],
    log: &[u8],
    store: &[NamedContent<'_>],
) -> Result<(), UpgradeError>
    ensures { Judges
        (unless
        (entries_refusal limit
        (entry_named manifest_name manifest.now ∷ entry_named log_name log.now
        ∷ map entry_of store.now)) tt) result }
{
    judge_one(alloc, limit, PORTABLE_MANIFEST_FILE_NAME, manifest)?;
    judge_one(alloc, limit, RUN_LOG_FILE_NAME, log)?;
    judge_entries(alloc, limit, store)
}

/// Judges the size of each of these contents.
fn judge_entries(
    alloc: Global,
    limit: u64,
    contents: &[NamedContent<'_>],
) -> Result<(), UpgradeError>
    ensures { Judges (unless (entries_refusal limit (map entry_of contents.now)) tt) result }
{
    for content in contents {
        judge_one(alloc, limit, content.name, content.content)?;
    }
    Ok(())
}

/// Judges the size of a content.
fn judge_one(alloc: Global, limit: u64, name: &str, content: &[u8]) -> Result<(), UpgradeError>
    ensures { Judges (unless (entries_refusal limit (entry_named name.now content.now ∷ [])) tt)
        result }
{
    match judge_size(alloc, limit, name, content)? {
        None => Ok(()),
        Some(too_large) => Err(UpgradeError::from(too_large)),
    }
}
