//! The events of a log, line by line.
ghost use Rattle.std.specs.Prelude.{Some};
ghost use Rattle.rec_forms.specs.Gives.{Gives};
ghost use Rattle.rec_forms.specs.TextForm.{text_form};
ghost use Rattle.rec_codec.specs.EventForms.{event_form};
ghost use Rattle.rec_codec.specs.LineEvents.{Answers, AnswersEvent};
ghost use Rattle.rec_codec.specs.Lines.{text_of};

use crate::{Line, OutputForm, event_from_node};
use rec_events::TestEventSummary;
use rec_forms::{FromValueError, parse_node};
use rec_json::Scratch;
use std::alloc::Global;
use thiserror::Error;

/// Names the cause for which a line of a session or a log gives no event.
#[derive(Clone, Copy, PartialEq, Eq, Debug, Drop, Error)]
pub enum LineError {
    /// The line isn't UTF-8.
    #[error("line {line_number} can't be read")]
    ReadRunLog {
        /// The number of the line.
        line_number: u64,
    },
    /// The line is no JSON value, or one that stands for no event.
    #[error("line {line_number} isn't an event")]
    ParseEvent {
        /// The number of the line.
        line_number: u64,
    },
    /// There was not enough memory to read it.
    #[error("out of memory")]
    OutOfMemory,
}

/// Reads the event of a text.
fn event_from_text<S: OutputForm>(
    alloc: Global,
    text: &str,
    scratch: &mut Scratch,
) -> Result<TestEventSummary<S>, FromValueError>
    ensures { Gives result (text_form (event_form S.output_form) text.now) }
{
    let node = parse_node(alloc, text, scratch)?;
    let event = event_from_node(alloc, &node);
    // by a call: in place, each kind of node is a case of the proof
    drop(node);
    event
}

/// Reads the event of a line. `None` comes exactly where the line is blank. `scratch` is memory for
/// texts with escapes; make it once, and lend it to the read of one line after another.
///
/// # Errors
///
/// The item is `ReadRunLog` exactly where the line isn't UTF-8, and `ParseEvent` exactly where its
/// text is no JSON value or one that stands for no event. Both have the line's number. It is
/// `OutOfMemory` where there was not enough memory.
pub fn read_line<S: OutputForm>(
    alloc: Global,
    line: Line<'_>,
    scratch: &mut Scratch,
) -> Option<Result<TestEventSummary<S>, LineError>>
    ensures { Answers (event_form S.output_form) result line.entry.number
        (text_of line.entry.bytes.now) }
{
    let Some(text) = line.text() else {
        return Some(Err(LineError::ReadRunLog {
            line_number: line.number,
        }));
    };
    if text.is_empty() {
        return None;
    }
    Some(event_of_line(alloc, text, line.number, scratch))
}

/// Reads the event of a text that isn't blank. Where there is none,
/// the fault has the line's number.
fn event_of_line<S: OutputForm>(
    alloc: Global,
    text: &str,
    line_number: u64,
    scratch: &mut Scratch,
) -> Result<TestEventSummary<S>, LineError>
    ensures { AnswersEvent (event_form S.output_form) result line_number (Some text.now) }
{
    match event_from_text(alloc, text, scratch) {
        Ok(event) => Ok(event),
        Err(FromValueError::NotAValue) => Err(LineError::ParseEvent { line_number }),
        Err(FromValueError::OutOfMemory) => Err(LineError::OutOfMemory),
    }
}
