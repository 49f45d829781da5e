//! A recording that goes on, and isn't finished.
ghost use Rattle.rec_faults.specs.DirectoryCommands.{live_shown, live_status};

use crate::line::Line;
use crate::refusal::Refusal;
use crate::status::{BUNDLE_FAILED, OUTPUT_FAILED};
use rec_container::Sink;
use rec_live_recording::LiveError;

impl Refusal for LiveError {
    ghost shown = { live_shown };

    ghost status_of = { live_status };

    fn write<G: Sink>(&self, line: Line, diag: &mut G) -> Line {
        match self {
            LiveError::Refused(error) => error.write(line, diag),
            LiveError::ManifestFault => line.name("ManifestFault", diag),
            LiveError::StoreFault => line.name("StoreFault", diag),
            LiveError::LogFault => line.name("LogFault", diag),
            LiveError::OutFault => line.name("OutFault", diag),
        }
    }

    fn status(&self) -> u8 {
        match self {
            LiveError::Refused(error) => error.status(),
            LiveError::ManifestFault | LiveError::StoreFault | LiveError::LogFault => {
                BUNDLE_FAILED
            }
            LiveError::OutFault => OUTPUT_FAILED,
        }
    }
}
