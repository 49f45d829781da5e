//! A recording of which nothing is salvaged.
ghost use Rattle.std.specs.Prelude.{◌≡◌};
ghost use Rattle.rec_faults.specs.WritingCommands.{salvage_shown, salvage_status};

use crate::line::Line;
use crate::refusal::Refusal;
use crate::status::{NO_BUNDLE, NOTHING_SALVAGED, OUT_OF_MEMORY};
use rec_container::Sink;
use rec_salvage::SalvageError;

impl Refusal for SalvageError {
    ghost shown = { salvage_shown };

    ghost status_of = { salvage_status };

    fn write<G: Sink>(&self, line: Line, diag: &mut G) -> Line {
        match self {
            SalvageError::BadMagic => line.name("BadMagic", diag),
            SalvageError::MissingMeta { file_name } => {
                line.text("MissingMeta file_name=", file_name.as_str(), diag)
            }
            SalvageError::BadMeta { file_name } => {
                line.text("BadMeta file_name=", file_name.as_str(), diag)
            }
            SalvageError::OpenArchive { path } => {
                line.text("OpenArchive path=", path.as_str(), diag)
            }
            SalvageError::OpenRunLog { path } => {
                line.text("OpenRunLog path=", path.as_str(), diag)
            }
            SalvageError::DiskFault { path } => line.text("DiskFault path=", path.as_str(), diag),
            SalvageError::OutOfMemory => line.name("OutOfMemory", diag),
        }
    }

    fn status(&self) -> u8 {
        match self {
            SalvageError::BadMagic
            | SalvageError::MissingMeta { .. }
            | SalvageError::BadMeta { .. } => NOTHING_SALVAGED,
            SalvageError::OpenArchive { .. }
            | SalvageError::OpenRunLog { .. }
            | SalvageError::DiskFault { .. } => NO_BUNDLE,
            SalvageError::OutOfMemory => OUT_OF_MEMORY,
        }
    }
}
