//! Why a run's directory isn't packed.
ghost use Rattle.std.specs.Prelude.{◌≡◌};
ghost use Rattle.rec_packing.specs.declared.errors.PackError.TheVariants.{OutOfMemory};
ghost use Rattle.rec_packing.specs.Faults.{closing_fault, export_fault, salvage_fault};

use rec_container::ReadError;
use rec_errors::RecordExportError;
use rec_events::Text;
use rec_salvage::SalvageError;
use std::alloc::AllocError;
use std::fmt;
use thiserror::Error;

/// Says why a run's directory isn't packed. The file of the bundle is as it was. Want of memory is
/// never an inner error.
#[derive(Drop, Error)]
pub enum PackError {
    /// The directory has no manifest.
    #[error("there is no manifest at {}", .path.as_str())]
    OpenManifest {
        /// The manifest's path.
        path: Text,
    },
    /// The disk failed where the manifest was read.
    #[error("the disk failed at {}", .path.as_str())]
    DiskFault {
        /// The manifest's path.
        path: Text,
    },
    /// The manifest is none.
    #[error("the manifest is none")]
    ParseManifest,
    /// The head that the run ended with isn't read, or is no head.
    #[error("{0}")]
    Closing(RecordExportError),
    /// The head that the run ended with is that of another run.
    #[error("the head is that of another run")]
    OtherRun,
    /// The store or the log isn't read, or nothing is salvaged of the store.
    #[error("{0}")]
    Salvage(SalvageError),
    /// The disk failed where the bundle was written.
    #[error("writing the bundle failed")]
    BundleFault,
    /// Memory ran out.
    #[error("out of memory")]
    OutOfMemory,
}

/// Prints the error as `Display` does.
impl fmt::Debug for PackError {
    fn fmt<W: fmt::Write>(&self, f: &mut fmt::Formatter<W>) -> fmt::Result {
        fmt::Display::fmt(self, f)
    }
}

impl From<AllocError> for PackError {
    ghost from_gives = { λ _ e. e ≡ OutOfMemory };

    fn from(_error: AllocError) -> PackError {
        PackError::OutOfMemory
    }
}

impl From<ReadError> for PackError {
    ghost from_gives = { λ fault e. e ≡ closing_fault fault };

    fn from(fault: ReadError) -> PackError {
        match fault {
            ReadError::SourceFault => PackError::Closing(RecordExportError::SourceFault),
            ReadError::TooLarge { limit } => {
                PackError::Closing(RecordExportError::SessionTooLarge { limit })
            }
            ReadError::OutOfMemory => PackError::OutOfMemory,
        }
    }
}

impl From<RecordExportError> for PackError {
    ghost from_gives = { λ fault e. e ≡ export_fault fault };

    fn from(fault: RecordExportError) -> PackError {
        match fault {
            RecordExportError::OutOfMemory => PackError::OutOfMemory,
            other => PackError::Closing(other),
        }
    }
}

impl From<SalvageError> for PackError {
    ghost from_gives = { λ fault e. e ≡ salvage_fault fault };

    fn from(fault: SalvageError) -> PackError {
        match fault {
            SalvageError::OutOfMemory => PackError::OutOfMemory,
            other => PackError::Salvage(other),
        }
    }
}
