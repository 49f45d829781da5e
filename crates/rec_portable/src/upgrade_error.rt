//! Why a bundle isn't upgraded.
ghost use Rattle.std.specs.Prelude.{◌≡◌};
ghost use Rattle.rec_portable.specs.declared.upgrade_error.UpgradeError.TheVariants.{OutOfMemory};
ghost use Rattle.rec_portable.specs.Upgrading.{open_error, read_error, size_error};

use crate::errors::PortableRecordingReadError;
use rec_events::Text;
use rec_store::{RecordReadError, TooLarge};
use std::alloc::AllocError;
use std::fmt;
use thiserror::Error;

/// Says why a bundle isn't upgraded. It is judged in the order of the variants, but that an entry
/// of its store is foreign comes after `Read`, and the first refusal is answered. Want of memory
/// may come at any time before the first byte is written.
#[derive(Drop, Error)]
pub enum UpgradeError {
    /// The bundle, its log or its store isn't opened.
    #[error("{0}")]
    Open(PortableRecordingReadError),
    /// An entry of the bundle isn't the one of its place among manifest, log and store; or an entry
    /// of the store is no metadata, and no event names it.
    #[error("{} has no place in what is written", .file_name.as_str())]
    ForeignEntry {
        /// The name of the entry, or its path in the store.
        file_name: Text,
    },
    /// The metadata, a line of the log, or an output that it names isn't read.
    #[error("{0}")]
    Read(RecordReadError),
    /// The bundle would have 2^64 bytes or more.
    #[error("a size or a number of entries is out of range")]
    CountOutOfRange,
    /// The manifest, the log or an entry of the store would be longer than a reader takes.
    #[error("{} would have {size} bytes, and the limit is {limit}", .file_name.as_str())]
    FileTooLarge {
        /// The name of the entry: the manifest's, the log's, or its path in the store.
        file_name: Text,
        /// Its length, in bytes.
        size: u64,
        /// The read limit.
        limit: u64,
    },
    /// The sink failed. It took a proper prefix of the bundle.
    #[error("writing the bundle failed")]
    BundleFault,
    /// Memory ran out.
    #[error("out of memory")]
    OutOfMemory,
}

/// Prints the error as `Display` does.
impl fmt::Debug for UpgradeError {
    fn fmt<W: fmt::Write>(&self, f: &mut fmt::Formatter<W>) -> fmt::Result {
        fmt::Display::fmt(self, f)
    }
}

impl From<AllocError> for UpgradeError {
    ghost from_gives = { λ _ e. e ≡ OutOfMemory };

    fn from(_error: AllocError) -> Self {
        UpgradeError::OutOfMemory
    }
}

impl From<PortableRecordingReadError> for UpgradeError {
    ghost from_gives = { λ x e. e ≡ open_error x };

    fn from(error: PortableRecordingReadError) -> Self {
        match error {
            PortableRecordingReadError::OutOfMemory => UpgradeError::OutOfMemory,
            _ => UpgradeError::Open(error),
        }
    }
}

impl From<RecordReadError> for UpgradeError {
    ghost from_gives = { λ x e. e ≡ read_error x };

    fn from(error: RecordReadError) -> Self {
        match error {
            RecordReadError::OutOfMemory => UpgradeError::OutOfMemory,
            _ => UpgradeError::Read(error),
        }
    }
}

impl From<TooLarge> for UpgradeError {
    ghost from_gives = { λ t e. e ≡ size_error t };

    fn from(too_large: TooLarge) -> Self {
        let TooLarge {
            file_name,
            size,
            limit,
        } = too_large;
        UpgradeError::FileTooLarge {
            file_name,
            size,
            limit,
        }
    }
}
