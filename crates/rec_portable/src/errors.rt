//! Why a bundle isn't read.
ghost use Rattle.std.specs.Prelude.{◌≡◌};
ghost use Rattle.rec_portable.specs.declared.errors.PortableRecordingReadError.TheVariants.{
  OutOfMemory,
};
ghost use Rattle.rec_portable.specs.Errors.{archive_error, source_error};

use rec_container::{ContainerError, ReadError};
use rec_events::Text;
use rec_format::{
    PortableRecordingFormatVersion, PortableRecordingVersionIncompatibility, StoreFormatVersion,
    StoreVersionIncompatibility,
};
use std::alloc::AllocError;
use std::fmt;
use thiserror::Error;

/// Says why a bundle, or a part of it, isn't read. A bundle is judged in the order of the variants
/// up to `UnsupportedStoreFormatVersion`, and the first refusal is answered. Want of memory may
/// come at any time.
#[derive(Drop, Error)]
pub enum PortableRecordingReadError {
    /// The source of the bundle failed.
    #[error("reading the bundle failed")]
    SourceFault,
    /// The source has more than `limit` bytes.
    #[error("the bundle is longer than {limit} bytes")]
    SpoolTooLarge {
        /// The spool limit.
        limit: u64,
    },
    /// The bytes of the bundle, or of the store in it, are no container.
    #[error("the archive can't be read: {fault}")]
    ReadArchive {
        /// The first fault from the left.
        fault: ContainerError,
    },
    /// No entry is named `manifest.json`.
    #[error("no manifest among {file_count} files, of which {zip_count} are archives")]
    NotAWrapperArchive {
        /// How many entries have a name that ends neither in `/` nor in `\`.
        file_count: usize,
        /// How many of these have a zip extension.
        zip_count: usize,
    },
    /// The manifest or the log has more than `limit` bytes.
    #[error("{} has {size} bytes, and the limit is {limit}", .file_name.as_str())]
    FileTooLarge {
        /// The name of the entry.
        file_name: Text,
        /// Its length, in bytes.
        size: u64,
        /// The read limit.
        limit: u64,
    },
    /// The bytes of the manifest stand for none.
    #[error("the manifest can't be read")]
    ParseManifest,
    /// The bundle's format version isn't read by this program.
    #[error("bundles of version {found} aren't read by version {supported}: {incompatibility}")]
    UnsupportedFormatVersion {
        /// The version in the manifest.
        found: PortableRecordingFormatVersion,
        /// The version of the bundles that are written.
        supported: PortableRecordingFormatVersion,
        /// What differs.
        incompatibility: PortableRecordingVersionIncompatibility,
    },
    /// The format version of the store in the bundle isn't read by this program.
    #[error("stores of version {found} aren't read by version {supported}: {incompatibility}")]
    UnsupportedStoreFormatVersion {
        /// The version in the manifest.
        found: StoreFormatVersion,
        /// The version of the stores that are written.
        supported: StoreFormatVersion,
        /// What differs.
        incompatibility: StoreVersionIncompatibility,
    },
    /// The bundle has no entry of this name.
    #[error("the bundle has no {}", .file_name.as_str())]
    MissingFile {
        /// The name.
        file_name: Text,
    },
    /// The sink failed to which the entry was written. It took a proper prefix of the entry.
    #[error("writing {} failed", .file_name.as_str())]
    ExtractFile {
        /// The name of the entry.
        file_name: Text,
    },
    /// Memory ran out.
    #[error("out of memory")]
    OutOfMemory,
}

/// Prints the error as `Display` does.
impl fmt::Debug for PortableRecordingReadError {
    fn fmt<W: fmt::Write>(&self, f: &mut fmt::Formatter<W>) -> fmt::Result {
        fmt::Display::fmt(self, f)
    }
}

impl From<AllocError> for PortableRecordingReadError {
    ghost from_gives = { λ _ e. e ≡ OutOfMemory };

    fn from(_error: AllocError) -> Self {
        PortableRecordingReadError::OutOfMemory
    }
}

impl From<ReadError> for PortableRecordingReadError {
    ghost from_gives = { λ r e. e ≡ source_error r };

    fn from(error: ReadError) -> Self {
        match error {
            ReadError::SourceFault => PortableRecordingReadError::SourceFault,
            ReadError::TooLarge { limit } => PortableRecordingReadError::SpoolTooLarge { limit },
            ReadError::OutOfMemory => PortableRecordingReadError::OutOfMemory,
        }
    }
}

impl From<ContainerError> for PortableRecordingReadError {
    ghost from_gives = { λ fault e. e ≡ archive_error fault };

    fn from(fault: ContainerError) -> Self {
        match fault {
            ContainerError::OutOfMemory => PortableRecordingReadError::OutOfMemory,
            _ => PortableRecordingReadError::ReadArchive { fault },
        }
    }
}
