//! A session that isn't exported.
ghost use Rattle.std.specs.Prelude.{◌≡◌};
ghost use Rattle.rec_errors.specs.declared.export_error.RecordExportError.TheVariants.{
  CountOutOfRange,
};
ghost use Rattle.rec_faults.specs.FaultLine.{export_shown, shown_text};
ghost use Rattle.rec_faults.specs.Status.{export_status};
ghost use Rattle.rec_faults.specs.WritingFaults.{Writes};

use crate::line::Line;
use crate::marks::{event_number, large_entry, missing_script, missing_test, open_span};
use crate::refusal::Refusal;
use crate::status::{
    ABOVE_READ_LIMIT, BUNDLE_FAILED, FAULTY_LINE, NAME_COLLISION, OUT_OF_MEMORY, OUT_OF_ORDER,
    OUT_OF_RANGE, OUTPUT_FAILED, SOURCE_FAILED, TOO_LONG,
};
use rec_container::Sink;
use rec_errors::RecordExportError;

impl Refusal for RecordExportError {
    ghost shown = { export_shown };

    ghost status_of = { export_status };

    fn write<G: Sink>(&self, line: Line, diag: &mut G) -> Line {
        match self {
            RecordExportError::SourceFault => line.name("SourceFault", diag),
            RecordExportError::SessionTooLarge { limit } => {
                line.number("SessionTooLarge limit=", *limit, diag)
            },
            RecordExportError::ParseHead => line.name("ParseHead", diag),
            RecordExportError::ReadRunLog { line_number } => {
                line.number("ReadRunLog line_number=", *line_number, diag)
            },
            RecordExportError::ParseEvent { line_number } => {
                line.number("ParseEvent line_number=", *line_number, diag)
            },
            RecordExportError::NameCollision { file_name } => {
                line.text("NameCollision file_name=", file_name.as_str(), diag)
            },
            RecordExportError::CountOutOfRange { event } => {
                count_out_of_range(line, *event, diag)
            }
            RecordExportError::FileTooLarge {
                file_name,
                size,
                limit,
            } => large_entry(line, file_name.as_str(), *size, *limit, diag),
            RecordExportError::MissingTestStart {
                event,
                binary_id,
                test_name,
            } => missing_test(line, *event, binary_id, test_name, diag),
            RecordExportError::MissingScriptStart { event, script_id } => {
                missing_script(line, *event, script_id, diag)
            }
            RecordExportError::MissingStressSubRunStart { event } => {
                line.number("MissingStressSubRunStart event=", *event, diag)
            },
            RecordExportError::SpanAlreadyOpen { event, span } => {
                open_span(line, *event, span, diag)
            }
            RecordExportError::SlotBusy { event, slot } => {
                event_number(line, "SlotBusy event=", *event, " slot=", *slot, diag)
            }
            RecordExportError::TimestampOutOfRange { event } => {
                line.number("TimestampOutOfRange event=", *event, diag)
            },
            RecordExportError::RowOutOfRange { event, number } => {
                event_number(
                    line,
                    "RowOutOfRange event=",
                    *event,
                    " number=",
                    *number,
                    diag,
                )
            }
            RecordExportError::BundleFault => line.name("BundleFault", diag),
            RecordExportError::TraceFault => line.name("TraceFault", diag),
            RecordExportError::OutOfMemory => line.name("OutOfMemory", diag),
        }
    }

    fn status(&self) -> u8 {
        match self {
            RecordExportError::SourceFault => SOURCE_FAILED,
            RecordExportError::SessionTooLarge { .. } => TOO_LONG,
            RecordExportError::ParseHead
            | RecordExportError::ReadRunLog { .. }
            | RecordExportError::ParseEvent { .. } => FAULTY_LINE,
            RecordExportError::NameCollision { .. } => NAME_COLLISION,
            RecordExportError::FileTooLarge { .. } => ABOVE_READ_LIMIT,
            RecordExportError::MissingTestStart { .. }
            | RecordExportError::MissingScriptStart { .. }
            | RecordExportError::MissingStressSubRunStart { .. }
            | RecordExportError::SpanAlreadyOpen { .. }
            | RecordExportError::SlotBusy { .. } => OUT_OF_ORDER,
            RecordExportError::TimestampOutOfRange { .. }
            | RecordExportError::RowOutOfRange { .. }
            | RecordExportError::CountOutOfRange { .. } => OUT_OF_RANGE,
            RecordExportError::BundleFault => BUNDLE_FAILED,
            RecordExportError::TraceFault => OUTPUT_FAILED,
            RecordExportError::OutOfMemory => OUT_OF_MEMORY,
        }
    }
}

/// Writes that a number of an event is out of range, or a size or a number of entries.
fn count_out_of_range<G: Sink>(line: Line, event: Option<u64>, diag: &mut G) -> Line
    ensures { Writes G.taken G.faults (shown_text (export_shown (CountOutOfRange event)))
        line.is_failed diag.old result.is_failed diag.new }
{
    match event {
        None => line.name("CountOutOfRange event=None", diag),
        Some(event) => line.number("CountOutOfRange event=", event, diag),
    }
}
