//! Why no bundle is made.
ghost use Rattle.std.specs.Prelude.{◌≡◌};
ghost use Rattle.rec_portable_writer.specs.declared.errors.PortableRecordingError.TheVariants.{
  OutOfMemory,
};

use rec_events::Text;
use std::alloc::AllocError;
use std::fmt;
use thiserror::Error;

/// Says why no bundle was made of a run's directory.
#[derive(PartialEq, Drop, Error)]
pub enum PortableRecordingError {
    /// There is no directory of the run.
    #[error("there is no run at {}", .path.as_str())]
    RunDirNotFound {
        /// The directory's path.
        path: Text,
    },
    /// The run's directory lacks its store or its log.
    #[error("the run at {} has no {}", .run_dir.as_str(), .file_name.as_str())]
    RequiredFileMissing {
        /// The directory's path.
        run_dir: Text,
        /// The name of the file.
        file_name: Text,
    },
    /// The run's store or its log couldn't be read.
    #[error("reading the run's {} failed", .file_name.as_str())]
    ReadFile {
        /// The name of the file.
        file_name: Text,
    },
    /// The bundle couldn't be written.
    #[error("writing the bundle {} failed", .path.as_str())]
    WriteFile {
        /// The bundle's path.
        path: Text,
    },
    /// The disk failed when it was asked whether the run is there.
    #[error("the disk failed at {}", .path.as_str())]
    DiskFault {
        /// The path that it was asked for.
        path: Text,
    },
    /// Memory ran out.
    #[error("out of memory")]
    OutOfMemory,
}

/// Prints the error as `Display` does.
impl fmt::Debug for PortableRecordingError {
    fn fmt<W: fmt::Write>(&self, f: &mut fmt::Formatter<W>) -> fmt::Result {
        fmt::Display::fmt(self, f)
    }
}

impl From<AllocError> for PortableRecordingError {
    ghost from_gives = { λ _ e. e ≡ OutOfMemory };

    fn from(_error: AllocError) -> Self {
        PortableRecordingError::OutOfMemory
    }
}
