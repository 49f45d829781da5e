//! Why a part of a recording is not read.
ghost use Rattle.std.specs.Prelude.{◌≡◌};
ghost use Rattle.rec_store.specs.declared.read_error.RecordReadError.TheVariants.{OutOfMemory};

use rec_container::ContainerError;
use rec_events::Text;
use std::alloc::{AllocError, AllocFailed};
use std::fmt;
use thiserror::Error;

/// Says why a part of a recording was not read.
///
/// A `file_name` is the whole path of an entry in the store, but in `UnknownOutputType`.
#[derive(Drop, Error)]
pub enum RecordReadError {
    /// There is no directory at this path.
    #[error("there is no run at {}", .path.as_str())]
    RunNotFound {
        /// The path.
        path: Text,
    },
    /// There is no store at this path.
    #[error("there is no store at {}", .path.as_str())]
    OpenArchive {
        /// The path.
        path: Text,
    },
    /// The store at this path is no container.
    #[error("the store at {} is no container: {fault}", .path.as_str())]
    ParseArchive {
        /// The path.
        path: Text,
        /// The first fault in the store's bytes.
        fault: ContainerError,
    },
    /// The store has no entry of this path.
    #[error("the store has no entry {}", .file_name.as_str())]
    FileNotFound {
        /// The path.
        file_name: Text,
    },
    /// The entry is longer than the limit.
    #[error("the entry {} has {size} bytes, and the limit is {limit}", .file_name.as_str())]
    FileTooLarge {
        /// The path.
        file_name: Text,
        /// The entry's length in bytes.
        size: u64,
        /// The most bytes of an entry that is read.
        limit: u64,
    },
    /// The entry isn't UTF-8.
    #[error("the entry {} isn't UTF-8", .file_name.as_str())]
    NotUtf8 {
        /// The path.
        file_name: Text,
    },
    /// The entry's bytes stand for no item of its kind.
    #[error("the entry {} stands for no item of its kind", .file_name.as_str())]
    DeserializeMetadata {
        /// The path.
        file_name: Text,
    },
    /// The name says no kind of output.
    #[error("the name {} says no kind of output", .file_name.as_str())]
    UnknownOutputType {
        /// The name that was handed in.
        file_name: Text,
    },
    /// The sink failed to which the entry was written. It took a proper prefix of the entry.
    #[error("writing the entry {} failed", .store_path.as_str())]
    ExtractFile {
        /// The entry's path in the store.
        store_path: Text,
    },
    /// There is no event log at this path.
    #[error("there is no event log at {}", .path.as_str())]
    OpenRunLog {
        /// The path.
        path: Text,
    },
    /// The disk failed at this path.
    #[error("the disk failed at {}", .path.as_str())]
    DiskFault {
        /// The path.
        path: Text,
    },
    /// A line of the event log isn't UTF-8.
    #[error("line {line_number} isn't UTF-8")]
    ReadRunLog {
        /// The number of the line, from 1.
        line_number: u64,
    },
    /// A line of the event log is neither blank nor an event.
    #[error("line {line_number} is no event")]
    ParseEvent {
        /// The number of the line, from 1.
        line_number: u64,
    },
    /// Memory ran out.
    #[error("out of memory")]
    OutOfMemory,
}

/// Prints the error as `Display` does.
impl fmt::Debug for RecordReadError {
    fn fmt<W: fmt::Write>(&self, f: &mut fmt::Formatter<W>) -> fmt::Result {
        fmt::Display::fmt(self, f)
    }
}

impl From<AllocError> for RecordReadError {
    ghost from_gives = { λ _ e. e ≡ OutOfMemory };

    fn from(_error: AllocError) -> RecordReadError {
        RecordReadError::OutOfMemory
    }
}

impl<T: Drop> From<AllocFailed<T>> for RecordReadError {
    ghost from_gives = { λ _ e. e ≡ OutOfMemory };

    fn from(_error: AllocFailed<T>) -> RecordReadError {
        RecordReadError::OutOfMemory
    }
}
