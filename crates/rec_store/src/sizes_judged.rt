//! The sizes of what is written, judged by what a reader takes.
ghost use Rattle.std.specs.Prelude.{◌≡◌, IfOk};
ghost use Rattle.rec_container.specs.Writing.{entry_named};
ghost use Rattle.rec_store.specs.SizesJudged as judged;

use rec_container::{ContainerWriter, Sink};
use rec_events::Text;
use std::alloc::{AllocError, Global};
use thiserror::Error;

/// Says which entry is longer than a reader takes.
#[derive(Debug, Drop, Error)]
#[error("{} has {size} bytes, and the limit is {limit}", .file_name.as_str())]
pub struct TooLarge {
    /// The name of the entry.
    pub file_name: Text,
    /// Its length, in bytes.
    pub size: u64,
    /// The most bytes of an entry that are read.
    pub limit: u64,
}

/// Returns the first entry that is longer than the limit, if one is.
///
/// # Errors
///
/// `AllocError` comes where memory ran out.
pub fn first_too_large<K: Sink>(
    alloc: Global,
    limit: u64,
    entries: &ContainerWriter<K>,
) -> Result<Option<TooLarge>, AllocError>
    ensures { IfOk result (λ found. found ≡ judged.first_too_large limit entries.now.entries) }
{
    for i in 0..entries.len() {
        let found = judge_size(alloc, limit, entries.name(i), entries.bytes(i))?;
        if let Some(too_large) = found {
            return Ok(Some(too_large));
        }
    }
    Ok(None)
}

/// Returns an entry's name and its size, where it is longer than the limit.
///
/// # Errors
///
/// `AllocError` comes where memory ran out.
pub fn judge_size(
    alloc: Global,
    limit: u64,
    name: &str,
    content: &[u8],
) -> Result<Option<TooLarge>, AllocError>
    ensures { IfOk result
        (λ found. found ≡ judged.too_large limit (entry_named name.now content.now)) }
{
    let size = content.len() as u64;
    if size <= limit {
        return Ok(None);
    }
    let file_name = Text::from_str(alloc, name)?;
    Ok(Some(TooLarge {
        file_name,
        size,
        limit,
    }))
}
