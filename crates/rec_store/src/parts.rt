//! The parts of a store whose entries are at hand.
ghost use Rattle.std.specs.Prelude.{◌≡◌, IfOk, MatchOption, true, false, string_bytes};
ghost use Rattle.std.specs.Str.{is_utf8};
ghost use Rattle.rec_store.specs.Parts.{content_within, entry_part, item_of, metadata_part};
ghost use Rattle.rec_store.specs.Parts.{of_kind, output_part, path_of_output, rerun_info_part};
ghost use Rattle.rec_store.specs.Parts.{rerun_item, some_rerun_item, utf8_of, utf8_part};
ghost use Rattle.rec_store.specs.Readers.{Extracts, NoDiskFault, Reads, SinkCause};

use crate::read_error::RecordReadError;
use rec_container::{Container, Sink, write_all_dyn};
use rec_events::Text;
use rec_format::{OutputDict, RERUN_INFO_JSON_PATH, RerunInfo};
use rec_forms::{Form, FromValueError, read_text};
use std::alloc::{AllocError, Global};

/// Returns the content under a path.
///
/// # Errors
///
/// - `FileNotFound` exactly where it isn't there.
/// - `FileTooLarge` exactly where it is longer than `limit`, in bytes.
/// - `OutOfMemory` if memory runs out.
pub fn read_entry<'a>(
    alloc: Global,
    entries: &Container<'a>,
    limit: u64,
    path: &str,
) -> Result<&'a [u8], RecordReadError>
    ensures { Reads (λ b. b.now) (entry_part entries.now.entries path.now limit) result }
{
    let Some(content) = entries.get(path) else {
        let file_name = Text::from_str(alloc, path)?;
        return Err(RecordReadError::FileNotFound { file_name });
    };
    check_length(alloc, limit, path, content)
}

/// Returns the content of an entry, where it is no longer than the limit.
fn check_length<'a>(
    alloc: Global,
    limit: u64,
    path: &str,
    content: &'a [u8],
) -> Result<&'a [u8], RecordReadError>
    ensures { Reads (λ b. b.now) (content_within path.now limit content.now) result }
{
    let size = content.len() as u64;
    if limit < size {
        let file_name = Text::from_str(alloc, path)?;
        return Err(RecordReadError::FileTooLarge {
            file_name,
            size,
            limit,
        });
    }
    Ok(content)
}

/// Reads the item under a path.
///
/// # Errors
///
/// - `FileNotFound` and `FileTooLarge` as [`read_entry`] has them.
/// - `DeserializeMetadata` exactly where the content stands for no item.
/// - `OutOfMemory` if memory runs out.
pub fn read_metadata<T: Form>(
    alloc: Global,
    entries: &Container<'_>,
    limit: u64,
    path: &str,
) -> Result<T, RecordReadError>
    ensures { Reads (λ x. x) (metadata_part T.form_of path.now entries.now.entries limit) result }
{
    let content = read_entry(alloc, entries, limit, path)?;
    item_from(alloc, path, content)
}

/// Reads the item for which a content stands.
fn item_from<T: Form>(alloc: Global, path: &str, content: &[u8]) -> Result<T, RecordReadError>
    ensures { Reads (λ x. x) (item_of T.form_of path.now content.now) result }
{
    match read_text(alloc, content) {
        Ok(item) => Ok(item),
        Err(FromValueError::NotAValue) => {
            let file_name = Text::from_str(alloc, path)?;
            Err(RecordReadError::DeserializeMetadata { file_name })
        }
        Err(FromValueError::OutOfMemory) => Err(RecordReadError::OutOfMemory),
    }
}

/// Reads the text under a path.
///
/// # Errors
///
/// - `FileNotFound` and `FileTooLarge` as [`read_entry`] has them.
/// - `NotUtf8` exactly where the content isn't UTF-8.
/// - `OutOfMemory` if memory runs out.
pub fn read_text_entry(
    alloc: Global,
    entries: &Container<'_>,
    limit: u64,
    path: &str,
) -> Result<String, RecordReadError>
    ensures { Reads string_bytes (utf8_part path.now entries.now.entries limit) result }
{
    let content = read_entry(alloc, entries, limit, path)?;
    string_from(alloc, path, content)
}

/// Copies a content that is a text.
fn string_from(alloc: Global, path: &str, content: &[u8]) -> Result<String, RecordReadError>
    ensures { Reads string_bytes (utf8_of path.now content.now) result }
{
    let Some(text) = text_of(content) else {
        let file_name = Text::from_str(alloc, path)?;
        return Err(RecordReadError::NotUtf8 { file_name });
    };
    Ok(String::from_str(alloc, text)?)
}

/// Returns bytes as a text, where they are UTF-8.
fn text_of(bytes: &[u8]) -> Option<&str>
    ensures { MatchOption result (is_utf8 bytes.now ≡ false)
        (λ text. (is_utf8 bytes.now ≡ true) × (text.now ≡ bytes.now)) }
{
    match str::from_utf8(bytes) {
        Ok(text) => Some(text),
        Err(_) => None,
    }
}

/// Reads which run this one is a rerun of, or none where its store has no such entry.
///
/// # Errors
///
/// - `FileTooLarge` and `DeserializeMetadata` as [`read_metadata`] has them.
/// - `OutOfMemory` if memory runs out.
pub fn read_rerun_info(
    alloc: Global,
    entries: &Container<'_>,
    limit: u64,
) -> Result<Option<RerunInfo>, RecordReadError>
    ensures { Reads (λ x. x) (rerun_info_part entries.now.entries limit) result }
{
    match entries.get(RERUN_INFO_JSON_PATH) {
        Some(content) => some_rerun_info(alloc, limit, content),
        None => Ok(None),
    }
}

/// Reads the rerun information that is there.
fn some_rerun_info(
    alloc: Global,
    limit: u64,
    content: &[u8],
) -> Result<Option<RerunInfo>, RecordReadError>
    ensures { Reads (λ x. x) (some_rerun_item limit content.now) result }
{
    match rerun_info_from(alloc, limit, content) {
        Ok(info) => Ok(Some(info)),
        Err(error) => Err(error),
    }
}

/// Reads the rerun information for which a content stands.
fn rerun_info_from(alloc: Global, limit: u64, content: &[u8]) -> Result<RerunInfo, RecordReadError>
    ensures { Reads (λ x. x) (rerun_item limit content.now) result }
{
    let content = check_length(alloc, limit, RERUN_INFO_JSON_PATH, content)?;
    item_from(alloc, RERUN_INFO_JSON_PATH, content)
}

/// Reads the output of a name.
///
/// # Errors
///
/// - `FileNotFound` and `FileTooLarge` as [`read_entry`] has them, of the path `out/` and the name.
/// - `UnknownOutputType` exactly where the name says no kind of output.
/// - `OutOfMemory` if memory runs out.
pub fn read_output(
    alloc: Global,
    entries: &Container<'_>,
    limit: u64,
    file_name: &str,
) -> Result<Vec<u8>, RecordReadError>
    ensures { Reads (λ v. v.items) (output_part file_name.now entries.now.entries limit) result }
{
    let path = path_of(alloc, file_name)?;
    let content = read_entry(alloc, entries, limit, path.as_str())?;
    let dict = OutputDict::for_output_file_name(file_name);
    output_from(alloc, file_name, dict, content)
}

/// Returns where the output of a name is stored.
fn path_of(alloc: Global, file_name: &str) -> Result<String, AllocError>
    ensures { IfOk result (λ path. string_bytes path ≡ path_of_output file_name.now) }
{
    let mut path = String::from_str(alloc, "out/")?;
    path.push_str(file_name)?;
    Ok(path)
}

/// Copies an output, where its name says a kind.
fn output_from(
    alloc: Global,
    file_name: &str,
    dict: OutputDict,
    content: &[u8],
) -> Result<Vec<u8>, RecordReadError>
    ensures { Reads (λ v. v.items) (of_kind file_name.now dict content.now) result }
{
    match dict {
        OutputDict::None => {
            let file_name = Text::from_str(alloc, file_name)?;
            Err(RecordReadError::UnknownOutputType { file_name })
        }
        OutputDict::Stdout | OutputDict::Stderr => {
            let mut bytes = Vec::new(alloc);
            bytes.extend_from_slice(content)?;
            Ok(bytes)
        }
    }
}

/// Writes the content under a path to a sink, whatever its length, and returns its length in bytes.
///
/// # Errors
///
/// - `FileNotFound` exactly where it isn't there. Nothing was written.
/// - `ExtractFile` where the sink fails. It took a proper prefix of the content.
/// - `OutOfMemory` if memory runs out. Nothing was written.
pub fn extract_entry(
    alloc: Global,
    entries: &Container<'_>,
    store_path: &str,
    out: &mut dyn Sink,
) -> Result<u64, RecordReadError>
    ensures answer { Extracts (taken out.old) (taken out.new) store_path.now entries.now.entries
        result }
    ensures sink { SinkCause (faults out.old) (faults out.new) result }
    ensures disk { NoDiskFault result }
{
    // The path is copied first, so that memory can't run out once bytes were written.
    let path = Text::from_str(alloc, store_path)?;
    let Some(content) = entries.get(store_path) else {
        return Err(RecordReadError::FileNotFound { file_name: path });
    };
    match write_all_dyn(out, content) {
        Ok(()) => Ok(content.len() as u64),
        Err(_) => Err(RecordReadError::ExtractFile { store_path: path }),
    }
}
