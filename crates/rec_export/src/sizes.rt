//! The refusals for sizes that a reader doesn't take.
ghost use Rattle.std.specs.Option.{option_map};
ghost use Rattle.std.specs.Prelude.{◌≡◌, IfOk};
ghost use Rattle.rec_container.specs.Writing.{entry_named};
ghost use Rattle.rec_export.specs.Sizes.{entries_refusal, entry_refusal};
ghost use Rattle.rec_export.specs.Sizes.{size_fault, AnswersRefusal};

use crate::discarding::DiscardingSink;
use rec_container::ContainerWriter;
use rec_errors::RecordExportError;
use rec_store::TooLarge;
use std::alloc::{AllocError, Global};

/// Returns the refusal of the first entry that is longer than the limit, if one is.
///
/// # Errors
///
/// Fails only where memory ran out.
pub fn first_too_large(
    alloc: Global,
    limit: u64,
    entries: &ContainerWriter<DiscardingSink>,
) -> Result<Option<RecordExportError>, AllocError>
    ensures { IfOk result (λ r. r ≡ entries_refusal limit entries.now.entries) }
{
    let found = rec_store::first_too_large(alloc, limit, entries)?;
    Ok(refusal_of(found))
}

/// Judges the size of an entry.
///
/// # Errors
///
/// `FileTooLarge` comes exactly where the content is longer than the limit, `OutOfMemory` where
/// memory for its name ran out.
pub fn judge_size(
    alloc: Global,
    limit: u64,
    name: &str,
    content: &[u8],
) -> Result<(), RecordExportError>
    ensures { AnswersRefusal result (entry_refusal limit (entry_named name.now content.now)) }
{
    let found = rec_store::judge_size(alloc, limit, name, content)?;
    match refusal_of(found) {
        None => Ok(()),
        Some(refusal) => Err(refusal),
    }
}

/// Returns the refusal for an entry that is too large, if one is.
fn refusal_of(found: Option<TooLarge>) -> Option<RecordExportError>
    ensures { result ≡ option_map size_fault found }
{
    match found {
        None => None,
        Some(
            TooLarge {
                file_name,
                size,
                limit,
            },
        ) => Some(RecordExportError::FileTooLarge {
            file_name,
            size,
            limit,
        }),
    }
}
