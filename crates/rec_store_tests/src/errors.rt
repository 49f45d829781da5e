//! Errors, each of which is printed once.

use rec_container::ContainerError;
use rec_events::Text;
use rec_store::{RecordReadError, TooLarge};
use std::alloc::{AllocError, Global};

/// What the error of this number prints.
pub(crate) fn printed(alloc: Global, number: u64) -> Result<String, AllocError> {
    let error = error_of(alloc, number)?;
    let text = format!(in alloc; "{error}");
    drop(error);
    text
}

/// The error of this number, at the path `p`.
fn error_of(alloc: Global, number: u64) -> Result<RecordReadError, AllocError> {
    let path = Text::from_str(alloc, "p")?;
    Ok(match number {
        0 => RecordReadError::RunNotFound { path },
        1 => RecordReadError::OpenArchive { path },
        2 => RecordReadError::ParseArchive {
            path,
            fault: ContainerError::BadTag { at: 8 },
        },
        3 => RecordReadError::OpenRunLog { path },
        4 => RecordReadError::DiskFault { path },
        5 => RecordReadError::ReadRunLog { line_number: 7 },
        6 => RecordReadError::ParseEvent { line_number: 8 },
        7 => RecordReadError::OutOfMemory,
        _ => entry_error(path, number),
    })
}

/// The error of this number about an entry.
fn entry_error(file_name: Text, number: u64) -> RecordReadError {
    match number {
        8 => RecordReadError::FileNotFound { file_name },
        9 => RecordReadError::FileTooLarge {
            file_name,
            size: 3,
            limit: 2,
        },
        10 => RecordReadError::NotUtf8 { file_name },
        _ => RecordReadError::DeserializeMetadata { file_name },
    }
}

/// What is printed of an entry of a recording that is too large.
pub(crate) fn too_large(alloc: Global) -> Result<String, AllocError> {
    let found = TooLarge {
        file_name: Text::from_str(alloc, "b")?,
        size: 3,
        limit: 2,
    };
    let text = format!(in alloc; "{found}");
    drop(found);
    text
}
