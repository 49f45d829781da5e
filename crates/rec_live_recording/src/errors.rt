//! Why a session isn't recorded to its end.
ghost use Rattle.std.specs.Prelude.{◌≡◌};
ghost use Rattle.rec_errors.specs.declared.export_error.RecordExportError.TheVariants.{OutOfMemory};
ghost use Rattle.rec_export.specs.RecorderFaults.{ComesOfEvent};
ghost use Rattle.rec_live_recording.specs.declared.errors.LiveError.TheVariants.{Refused};
ghost use Rattle.rec_live_recording.specs.Faults.{store_fault};

use rec_container::ReadError;
use rec_errors::RecordExportError;
use rec_store::RunStoreError;
use std::alloc::AllocError;
use std::fmt;
use thiserror::Error;

/// Says why a session isn't recorded to its end. What was accepted before stays.
#[derive(Drop, Error)]
pub enum LiveError {
    /// The session isn't read or is refused, as a recording of the whole session refuses it; or
    /// memory ran out.
    #[error("{0}")]
    Refused(RecordExportError),
    /// The sink of the manifest failed.
    #[error("writing the manifest failed")]
    ManifestFault,
    /// The sink of the store failed.
    #[error("writing the store failed")]
    StoreFault,
    /// The sink of the log failed.
    #[error("writing the log failed")]
    LogFault,
    /// The sink of the acknowledgements failed.
    #[error("writing an acknowledgement failed")]
    OutFault,
}

/// Prints the error as `Display` does.
impl fmt::Debug for LiveError {
    fn fmt<W: fmt::Write>(&self, f: &mut fmt::Formatter<W>) -> fmt::Result {
        fmt::Display::fmt(self, f)
    }
}

impl From<AllocError> for LiveError {
    ghost from_gives = { λ _ e. e ≡ Refused OutOfMemory };

    fn from(_error: AllocError) -> LiveError {
        LiveError::Refused(RecordExportError::OutOfMemory)
    }
}

impl From<RecordExportError> for LiveError {
    ghost from_gives = { λ refusal e. e ≡ Refused refusal };

    fn from(refusal: RecordExportError) -> LiveError {
        LiveError::Refused(refusal)
    }
}

impl From<ReadError> for LiveError {
    ghost use Rattle.rec_live_recording.specs.Faults.{read_fault};

    ghost from_gives = { λ fault e. e ≡ read_fault fault };

    fn from(fault: ReadError) -> LiveError {
        LiveError::Refused(match fault {
            ReadError::SourceFault => RecordExportError::SourceFault,
            ReadError::TooLarge { limit } => RecordExportError::SessionTooLarge { limit },
            ReadError::OutOfMemory => RecordExportError::OutOfMemory,
        })
    }
}

/// Returns why a session isn't recorded further where a recorder refuses an event that is loaded,
/// or the metadata of a head.
pub fn store_fault(error: RunStoreError) -> LiveError
    requires { ComesOfEvent error }
    ensures { result ≡ store_fault error }
{
    match error {
        RunStoreError::NameCollision { file_name } => {
            LiveError::Refused(RecordExportError::NameCollision { file_name })
        }
        RunStoreError::CountOutOfRange => {
            LiveError::Refused(RecordExportError::CountOutOfRange { event: None })
        }
        RunStoreError::StoreWrite => LiveError::StoreFault,
        RunStoreError::RunLogWrite => LiveError::LogFault,
        RunStoreError::OutOfMemory => LiveError::Refused(RecordExportError::OutOfMemory),
        RunStoreError::Failed | RunStoreError::NotLoadedOutput => unreachable!(),
    }
}
