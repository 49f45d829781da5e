//! A log that has no trace or no report of its slots, and an event that isn't read,
//! replayed or reported.
ghost use Rattle.std.specs.Prelude.{◌≡◌};
ghost use Rattle.rec_errors.specs.LineFaults.{line_fault};
ghost use Rattle.rec_faults.specs.ReadingLine.{line_shown, slots_shown, trace_shown};
ghost use Rattle.rec_faults.specs.ReplayLine.{conversion_shown, junit_shown};
ghost use Rattle.rec_faults.specs.Status.{conversion_status, export_status};
ghost use Rattle.rec_faults.specs.Status.{junit_status, slots_status, trace_status};

use crate::line::Line;
use crate::marks::{event_number, missing_script, missing_test, open_span};
use crate::refusal::Refusal;
use crate::status::{FAULTY_LINE, NO_EVENT, NO_USAGE, OUT_OF_MEMORY, OUT_OF_ORDER, OUT_OF_RANGE};
use rec_codec::LineError;
use rec_container::Sink;
use rec_junit::JunitError;
use rec_replay::ReplayConversionError;
use rec_slots::SlotError;
use rec_spans::ChromeTraceError;

impl Refusal for LineError {
    ghost shown = { line_shown };

    ghost status_of = { λ fault. export_status (line_fault fault) };

    fn write<G: Sink>(&self, line: Line, diag: &mut G) -> Line {
        match self {
            LineError::ReadRunLog { line_number } => {
                line.number("ReadRunLog line_number=", *line_number, diag)
            }
            LineError::ParseEvent { line_number } => {
                line.number("ParseEvent line_number=", *line_number, diag)
            }
            LineError::OutOfMemory => line.name("OutOfMemory", diag),
        }
    }

    fn status(&self) -> u8 {
        match self {
            LineError::ReadRunLog { .. } | LineError::ParseEvent { .. } => FAULTY_LINE,
            LineError::OutOfMemory => OUT_OF_MEMORY,
        }
    }
}

impl Refusal for ChromeTraceError {
    ghost shown = { trace_shown };

    ghost status_of = { trace_status };

    fn write<G: Sink>(&self, line: Line, diag: &mut G) -> Line {
        match self {
            ChromeTraceError::ReadError(fault) => fault.write(line.name("ReadError ", diag), diag),
            ChromeTraceError::MissingTestStart {
                event,
                binary_id,
                test_name,
            } => missing_test(line, *event, binary_id, test_name, diag),
            ChromeTraceError::MissingScriptStart { event, script_id } => {
                missing_script(line, *event, script_id, diag)
            }
            ChromeTraceError::MissingStressSubRunStart { event } => {
                line.number("MissingStressSubRunStart event=", *event, diag)
            }
            ChromeTraceError::SpanAlreadyOpen { event, span } => {
                open_span(line, *event, span, diag)
            }
            ChromeTraceError::SlotBusy { event, slot } => {
                event_number(line, "SlotBusy event=", *event, " slot=", *slot, diag)
            }
            ChromeTraceError::TimestampOutOfRange { event } => {
                line.number("TimestampOutOfRange event=", *event, diag)
            }
            ChromeTraceError::RowOutOfRange { event, number } => {
                event_number(
                    line,
                    "RowOutOfRange event=",
                    *event,
                    " number=",
                    *number,
                    diag,
                )
            }
            ChromeTraceError::CountOutOfRange { event } => {
                line.number("CountOutOfRange event=", *event, diag)
            }
            ChromeTraceError::OutOfMemory => line.name("OutOfMemory", diag),
        }
    }

    fn status(&self) -> u8 {
        match self {
            ChromeTraceError::ReadError(fault) => fault.status(),
            ChromeTraceError::MissingTestStart { .. }
            | ChromeTraceError::MissingScriptStart { .. }
            | ChromeTraceError::MissingStressSubRunStart { .. }
            | ChromeTraceError::SpanAlreadyOpen { .. }
            | ChromeTraceError::SlotBusy { .. } => OUT_OF_ORDER,
            ChromeTraceError::TimestampOutOfRange { .. }
            | ChromeTraceError::RowOutOfRange { .. }
            | ChromeTraceError::CountOutOfRange { .. } => OUT_OF_RANGE,
            ChromeTraceError::OutOfMemory => OUT_OF_MEMORY,
        }
    }
}

impl Refusal for ReplayConversionError {
    ghost shown = { conversion_shown };

    ghost status_of = { conversion_status };

    fn write<G: Sink>(&self, line: Line, diag: &mut G) -> Line {
        match self {
            ReplayConversionError::TestNotFound {
                binary_id,
                test_name,
            } => line
                .text("TestNotFound binary_id=", binary_id.as_str(), diag)
                .text(" test_name=", test_name.as_str(), diag),
            ReplayConversionError::RecordRead(error) => {
                error.write(line.name("RecordRead ", diag), diag)
            }
            ReplayConversionError::InvalidStressCount => line.name("InvalidStressCount", diag),
            ReplayConversionError::OutOfMemory => line.name("OutOfMemory", diag),
        }
    }

    fn status(&self) -> u8 {
        match self {
            ReplayConversionError::TestNotFound { .. }
            | ReplayConversionError::RecordRead(_)
            | ReplayConversionError::InvalidStressCount => NO_EVENT,
            ReplayConversionError::OutOfMemory => OUT_OF_MEMORY,
        }
    }
}

impl Refusal for JunitError {
    ghost shown = { junit_shown };

    ghost status_of = { junit_status };

    fn write<G: Sink>(&self, line: Line, diag: &mut G) -> Line {
        match self {
            JunitError::NotLoadedOutput => line.name("NotLoadedOutput", diag),
            JunitError::SuccessAsFailure => line.name("SuccessAsFailure", diag),
            JunitError::OutOfMemory => line.name("OutOfMemory", diag),
        }
    }

    fn status(&self) -> u8 {
        match self {
            JunitError::NotLoadedOutput | JunitError::SuccessAsFailure => NO_EVENT,
            JunitError::OutOfMemory => OUT_OF_MEMORY,
        }
    }
}

impl Refusal for SlotError {
    ghost shown = { slots_shown };

    ghost status_of = { slots_status };

    fn write<G: Sink>(&self, line: Line, diag: &mut G) -> Line {
        match self {
            SlotError::Refused(error) => error.write(line.name("Refused ", diag), diag),
            SlotError::NotOneRun => line.name("NotOneRun", diag),
            SlotError::AttemptOutside { event } => {
                line.number("AttemptOutside event=", *event, diag)
            }
            SlotError::StampFell { event } => line.number("StampFell event=", *event, diag),
            SlotError::OutOfMemory => line.name("OutOfMemory", diag),
        }
    }

    fn status(&self) -> u8 {
        match self {
            SlotError::Refused(error) => error.status(),
            SlotError::NotOneRun | SlotError::AttemptOutside { .. } | SlotError::StampFell { .. } =>
                NO_USAGE,
            SlotError::OutOfMemory => OUT_OF_MEMORY,
        }
    }
}
