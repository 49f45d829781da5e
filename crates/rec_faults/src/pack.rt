//! A run's directory that isn't packed.
ghost use Rattle.rec_faults.specs.DirectoryCommands.{pack_shown, pack_status};

use crate::line::Line;
use crate::refusal::Refusal;
use crate::status::{BUNDLE_FAILED, FAULTY_LINE, NO_BUNDLE, OUT_OF_MEMORY};
use rec_container::Sink;
use rec_packing::PackError;

impl Refusal for PackError {
    ghost shown = { pack_shown };

    ghost status_of = { pack_status };

    fn write<G: Sink>(&self, line: Line, diag: &mut G) -> Line {
        match self {
            PackError::OpenManifest { path } => {
                line.text("OpenManifest path=", path.as_str(), diag)
            }
            PackError::DiskFault { path } => line.text("DiskFault path=", path.as_str(), diag),
            PackError::ParseManifest => line.name("ParseManifest", diag),
            PackError::Closing(error) => error.write(line, diag),
            PackError::OtherRun => line.name("OtherRun", diag),
            PackError::Salvage(error) => error.write(line, diag),
            PackError::BundleFault => line.name("BundleFault", diag),
            PackError::OutOfMemory => line.name("OutOfMemory", diag),
        }
    }

    fn status(&self) -> u8 {
        match self {
            PackError::OpenManifest { .. }
            | PackError::DiskFault { .. }
            | PackError::ParseManifest => NO_BUNDLE,
            PackError::Closing(error) => error.status(),
            PackError::OtherRun => FAULTY_LINE,
            PackError::Salvage(error) => error.status(),
            PackError::BundleFault => BUNDLE_FAILED,
            PackError::OutOfMemory => OUT_OF_MEMORY,
        }
    }
}
