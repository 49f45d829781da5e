//! Why nothing is salvaged.
ghost use Rattle.std.specs.Prelude.{◌≡◌};
ghost use Rattle.rec_salvage.specs.declared.errors.SalvageError.TheVariants.{BadMagic, OutOfMemory};

use rec_events::Text;
use std::alloc::AllocError;
use std::fmt;
use thiserror::Error;

/// Says why nothing was salvaged of a recording.
///
/// A `file_name` is the whole path of an entry in the store.
#[derive(Drop, Error)]
pub enum SalvageError {
    /// The store's bytes don't begin with `nxtcont1`.
    #[error("the store doesn't begin with nxtcont1")]
    BadMagic,
    /// The store has no whole entry of this path.
    #[error("the store has no entry {}", .file_name.as_str())]
    MissingMeta {
        /// The path.
        file_name: Text,
    },
    /// The entry's bytes stand for no item of its kind.
    #[error("the entry {} stands for no item of its kind", .file_name.as_str())]
    BadMeta {
        /// The path.
        file_name: Text,
    },
    /// There is no store at this path.
    #[error("there is no store at {}", .path.as_str())]
    OpenArchive {
        /// The path.
        path: Text,
    },
    /// There is no event log at this path.
    #[error("there is no event log at {}", .path.as_str())]
    OpenRunLog {
        /// The path.
        path: Text,
    },
    /// The disk failed at this path.
    #[error("the disk failed at {}", .path.as_str())]
    DiskFault {
        /// The path.
        path: Text,
    },
    /// Memory ran out.
    #[error("out of memory")]
    OutOfMemory,
}

/// Prints the error as `Display` does.
impl fmt::Debug for SalvageError {
    fn fmt<W: fmt::Write>(&self, f: &mut fmt::Formatter<W>) -> fmt::Result {
        fmt::Display::fmt(self, f)
    }
}

impl From<AllocError> for SalvageError {
    ghost from_gives = { λ _ e. e ≡ OutOfMemory };

    fn from(_error: AllocError) -> Self {
        SalvageError::OutOfMemory
    }
}
