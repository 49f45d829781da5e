//! The lines of a log.
ghost use Rattle.std.specs.Prelude.{◌≡◌, ◌++◌, IfOk, OnOk};
ghost use Rattle.rec_json.specs.Tokens.{value_tokens};
ghost use Rattle.rec_forms.specs.Outputs.{IsStoredOutputs, stored_outputs_value};
ghost use Rattle.rec_codec.specs.Event.{event_line, IsLogged};
ghost use Rattle.rec_codec.specs.EventForms.{event_value, IsEvent};

use crate::{ToValueError, write_event};
use rec_events::{RecordingSpec, TestEventSummary};
use rec_json::JsonText;
use std::alloc::{AllocError, Global};

/// Writes an event. The names of files are always loaded, so only memory can be short.
fn write_recorded(
    alloc: Global,
    event: &TestEventSummary<RecordingSpec>,
    text: &mut JsonText,
) -> Result<(), AllocError>
    ensures written { OnOk result
        (text.new ≡ text.old ++ value_tokens (event_value stored_outputs_value event.now)) }
    ensures known { OnOk result (IsEvent IsStoredOutputs event.now) }
{
    match write_event::<RecordingSpec>(alloc, event, text) {
        Ok(()) => Ok(()),
        Err(ToValueError::OutOfMemory) => Err(AllocError),
        Err(ToValueError::NotLoaded) => unreachable!(),
    }
}

/// Makes the line of an event in a log: its compact JSON text and LF, as `docs/FORMATS.md#log`
/// says. The line is read as this event again.
///
/// # Errors
///
/// `AllocError` comes where there was not enough memory.
pub fn log_line(
    alloc: Global,
    event: &TestEventSummary<RecordingSpec>,
) -> Result<Vec<u8>, AllocError>
    ensures line { IfOk result (λ b. b.items ≡ event_line event.now) }
    ensures logged { OnOk result (IsLogged event.now) }
{
    let mut text = JsonText::new(alloc);
    write_recorded(alloc, event, &mut text)?;
    let mut line = text.into_bytes();
    line.push(b'\n')?;
    Ok(line)
}
