//! A bundle that isn't upgraded.
ghost use Rattle.std.specs.Prelude.{◌≡◌};
ghost use Rattle.rec_faults.specs.WritingCommands.{run_part_status, upgrade_shown, upgrade_status};

use crate::line::Line;
use crate::marks::large_entry;
use crate::refusal::Refusal;
use crate::status::{
    ABOVE_READ_LIMIT, BUNDLE_FAILED, FAULTY_LINE, NO_BUNDLE, OUT_OF_MEMORY, OUT_OF_RANGE,
};
use rec_container::Sink;
use rec_portable::UpgradeError;
use rec_store::RecordReadError;

impl Refusal for UpgradeError {
    ghost shown = { upgrade_shown };

    ghost status_of = { upgrade_status };

    fn write<G: Sink>(&self, line: Line, diag: &mut G) -> Line {
        match self {
            UpgradeError::Open(error) => error.write(line.name("Open ", diag), diag),
            UpgradeError::ForeignEntry { file_name } => {
                line.text("ForeignEntry file_name=", file_name.as_str(), diag)
            }
            UpgradeError::Read(error) => error.write(line.name("Read ", diag), diag),
            UpgradeError::CountOutOfRange => line.name("CountOutOfRange", diag),
            UpgradeError::FileTooLarge {
                file_name,
                size,
                limit,
            } => large_entry(line, file_name.as_str(), *size, *limit, diag),
            UpgradeError::BundleFault => line.name("BundleFault", diag),
            UpgradeError::OutOfMemory => line.name("OutOfMemory", diag),
        }
    }

    fn status(&self) -> u8 {
        match self {
            UpgradeError::Open(error) => error.status(),
            UpgradeError::ForeignEntry { .. } => NO_BUNDLE,
            UpgradeError::Read(error) => run_part_status(error),
            UpgradeError::CountOutOfRange => OUT_OF_RANGE,
            UpgradeError::FileTooLarge { .. } => ABOVE_READ_LIMIT,
            UpgradeError::BundleFault => BUNDLE_FAILED,
            UpgradeError::OutOfMemory => OUT_OF_MEMORY,
        }
    }
}

/// Returns the status for a part of a run that isn't read. A faulty line has that of a session's.
fn run_part_status(error: &RecordReadError) -> u8
    ensures { result ≡ run_part_status error.now }
{
    match error {
        RecordReadError::ReadRunLog { .. } | RecordReadError::ParseEvent { .. } => FAULTY_LINE,
        RecordReadError::RunNotFound { .. }
        | RecordReadError::OpenArchive { .. }
        | RecordReadError::ParseArchive { .. }
        | RecordReadError::FileNotFound { .. }
        | RecordReadError::FileTooLarge { .. }
        | RecordReadError::NotUtf8 { .. }
        | RecordReadError::DeserializeMetadata { .. }
        | RecordReadError::UnknownOutputType { .. }
        | RecordReadError::ExtractFile { .. }
        | RecordReadError::OpenRunLog { .. }
        | RecordReadError::DiskFault { .. }
        | RecordReadError::OutOfMemory => error.status(),
    }
}
