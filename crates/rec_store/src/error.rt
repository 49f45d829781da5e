//! Why a recorder refuses.
ghost use Rattle.std.specs.Prelude.{◌≡◌};
ghost use Rattle.rec_store.specs.declared.error.RunStoreError.TheVariants.{OutOfMemory};

use rec_events::Text;
use std::alloc::{AllocError, AllocFailed};
use std::fmt;
use thiserror::Error;

/// Says why a recorder did not take what it was given.
#[derive(Drop, Error)]
pub enum RunStoreError {
    /// A sink failed in an earlier call of this recorder, which writes nothing since then.
    #[error("an earlier write failed")]
    Failed,
    /// The event has an output that was not loaded. Nothing of the event was written.
    #[error("an output is not loaded")]
    NotLoadedOutput,
    /// The store has other bytes under this path.
    #[error("other bytes are stored under {}", .file_name.as_str())]
    NameCollision {
        /// The path.
        file_name: Text,
    },
    /// The length of the store or of the log would be 2^64 bytes or more.
    #[error("the store or the log would have 2^64 bytes or more")]
    CountOutOfRange,
    /// The sink of the store failed. It took a proper prefix of what was to be written.
    #[error("writing the store failed")]
    StoreWrite,
    /// The sink of the log failed. It took a proper prefix of the event's line.
    #[error("writing the log failed")]
    RunLogWrite,
    /// Memory ran out.
    #[error("out of memory")]
    OutOfMemory,
}

/// Prints the error as `Display` does.
impl fmt::Debug for RunStoreError {
    fn fmt<W: fmt::Write>(&self, f: &mut fmt::Formatter<W>) -> fmt::Result {
        fmt::Display::fmt(self, f)
    }
}

impl From<AllocError> for RunStoreError {
    ghost from_gives = { λ _ e. e ≡ OutOfMemory };

    fn from(_error: AllocError) -> RunStoreError {
        RunStoreError::OutOfMemory
    }
}

impl<T: Drop> From<AllocFailed<T>> for RunStoreError {
    ghost from_gives = { λ _ e. e ≡ OutOfMemory };

    fn from(_error: AllocFailed<T>) -> RunStoreError {
        RunStoreError::OutOfMemory
    }
}
