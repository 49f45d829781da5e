//! A bundle of which a command prints nothing.
ghost use Rattle.std.specs.Prelude.{◌≡◌};
ghost use Rattle.rec_faults.specs.ReadingLine.{reading_shown};
ghost use Rattle.rec_faults.specs.Status.{reading_status};

use crate::line::Line;
use crate::refusal::Refusal;
use crate::status::{NO_EVENT, OUT_OF_MEMORY};
use rec_container::Sink;
use rec_errors::ReadingError;

impl Refusal for ReadingError {
    ghost shown = { reading_shown };

    ghost status_of = { reading_status };

    fn write<G: Sink>(&self, line: Line, diag: &mut G) -> Line {
        match self {
            ReadingError::Bundle(error) => error.write(line, diag),
            ReadingError::Trace(error) => error.write(line, diag),
            ReadingError::Part(error) => error.write(line, diag),
            ReadingError::Line(error) => error.write(line, diag),
            ReadingError::Conversion(error) => error.write(line, diag),
            ReadingError::Report(error) => error.write(line, diag),
            ReadingError::Slots(error) => error.write(line, diag),
            ReadingError::OutputChanged { file_name } => {
                line.text("OutputChanged file_name=", file_name.as_str(), diag)
            }
            ReadingError::OutOfMemory => line.name("OutOfMemory", diag),
        }
    }

    fn status(&self) -> u8 {
        match self {
            ReadingError::Bundle(error) => error.status(),
            ReadingError::Trace(error) => error.status(),
            ReadingError::Part(error) => error.status(),
            ReadingError::Line(error) => error.status(),
            ReadingError::Conversion(error) => error.status(),
            ReadingError::Report(error) => error.status(),
            ReadingError::Slots(error) => error.status(),
            ReadingError::OutputChanged { .. } => NO_EVENT,
            ReadingError::OutOfMemory => OUT_OF_MEMORY,
        }
    }
}
