//! Why an entry or a container is refused, and how large a written container is.
ghost use Rattle.std.specs.Prelude.{◌≡◌};
ghost use Rattle.rec_container.specs.declared.errors.ContainerError.TheVariants as faults;
ghost use Rattle.rec_container.specs.declared.errors.ContainerWriteError.TheVariants.{OutOfMemory};

use std::alloc::{AllocError, AllocFailed};
use thiserror::Error;

/// Says why a container was not written further.
#[derive(Clone, Copy, Debug, Error)]
pub enum ContainerWriteError {
    /// The sink failed at a call before this one.
    #[error("the sink failed earlier, so nothing more is written")]
    Failed,
    /// The name has no byte, or more than 65535.
    #[error("an entry's name must have 1 to 65535 bytes")]
    BadName,
    /// An entry of this name with other bytes is there.
    #[error("an entry of this name with other bytes is there already")]
    NameCollision,
    /// With the entry the container would have 2^64 bytes or more.
    #[error("the container would have 2^64 bytes or more")]
    CountOutOfRange,
    /// The sink failed. It took a proper prefix of what was to be written.
    #[error("the sink failed")]
    SinkFault,
    /// Memory ran out. Nothing was written.
    #[error("out of memory")]
    OutOfMemory,
}

impl From<AllocError> for ContainerWriteError {
    ghost from_gives = { λ _ e. e ≡ OutOfMemory };

    fn from(_error: AllocError) -> Self {
        ContainerWriteError::OutOfMemory
    }
}

/// Says how large a written container is.
#[derive(Clone, Copy)]
pub struct ContainerSizes {
    /// The container's bytes, from the magic to the end mark.
    pub compressed: u64,
    /// The bytes of all contents together.
    pub uncompressed: u64,
    /// The entries.
    pub entries: u64,
}

/// Says what is wrong with the bytes of a container: the first fault from the left.
///
/// `at` counts bytes from the first one of the container.
#[derive(Clone, Copy, Debug, PartialEq, Eq, Error)]
pub enum ContainerError {
    /// The bytes don't begin with `nxtcont1`.
    #[error("not a container: it doesn't begin with nxtcont1")]
    BadMagic,
    /// The tag, length, name or content that begins at `at` isn't there whole.
    #[error("cut off in the field at byte {at}")]
    Truncated { at: usize },
    /// The byte at `at` is neither an entry's tag nor the end mark.
    #[error("no tag at byte {at}")]
    BadTag { at: usize },
    /// The length at `at` is 0, or the name at `at` isn't UTF-8.
    #[error("not a name at byte {at}")]
    BadName { at: usize },
    /// The name at `at` is that of an earlier entry.
    #[error("a name seen before at byte {at}")]
    DuplicateName { at: usize },
    /// Bytes follow the end mark, from `at` on.
    #[error("bytes after the end mark, from byte {at} on")]
    TrailingBytes { at: usize },
    /// Memory ran out.
    #[error("out of memory")]
    OutOfMemory,
}

impl From<AllocError> for ContainerError {
    ghost from_gives = { λ _ e. e ≡ faults.OutOfMemory };

    fn from(_error: AllocError) -> Self {
        ContainerError::OutOfMemory
    }
}

impl<T: Drop> From<AllocFailed<T>> for ContainerError {
    ghost from_gives = { λ _ e. e ≡ faults.OutOfMemory };

    fn from(_error: AllocFailed<T>) -> Self {
        ContainerError::OutOfMemory
    }
}
