//! The status of an attempt or a setup script, as the log has it.
ghost use Rattle.std.specs.Prelude.{◌≡◌, ◌++◌, [], ◌∷◌, IfOk, OnOk, option_map, ⊤};
ghost use Rattle.rec_json.specs.Tokens.{value_tokens};
ghost use Rattle.rec_forms.specs.ObjectWriting.{Writes};
ghost use Rattle.rec_forms.specs.Outputs.{stored_outputs_value};
ghost use Rattle.rec_codec.specs.ScriptStatus.{script_status_value};
ghost use Rattle.rec_codec.specs.Status.{status_value};

use rec_codec::{LoadedForm, ToValueError};
use rec_events::{ExecuteStatus, RecordingSpec, SetupScriptExecuteStatus};
use rec_forms::ObjectWriter;
use rec_json::JsonText;
use std::alloc::{AllocError, Global};

/// Writes a status. The names of files are always loaded, so only memory can be short.
fn write_status(
    alloc: Global,
    text: &mut JsonText,
    status: &ExecuteStatus<RecordingSpec>,
) -> Result<(), AllocError>
    ensures { OnOk result
        (text.new ≡ text.old ++ value_tokens (status_value stored_outputs_value status.now)) }
{
    match status.write(alloc, text) {
        Ok(()) => Ok(()),
        Err(ToValueError::OutOfMemory) => Err(AllocError),
        Err(ToValueError::NotLoaded) => unreachable!(),
    }
}

/// Writes a status as a field, if there is one.
pub(crate) fn with_status(
    object: ObjectWriter,
    alloc: Global,
    text: &mut JsonText,
    key: &str,
    status: Option<&ExecuteStatus<RecordingSpec>>,
) -> Result<ObjectWriter, AllocError>
    ensures { IfOk result (λ w. Writes object text.old w text.new
        ((
          key.now,
          option_map (status_value stored_outputs_value)
              (option_map (λ s. s.now) status.entry),
        ) ∷ []) ⊤) }
{
    object.leave_open()?;
    if let Some(status) = status {
        text.key(key)?;
        write_status(alloc, text, status)?;
    }
    Ok(ObjectWriter::resume(alloc))
}

/// Writes a setup script's status.
fn write_script_status(
    alloc: Global,
    text: &mut JsonText,
    status: &SetupScriptExecuteStatus<RecordingSpec>,
) -> Result<(), AllocError>
    ensures { OnOk result (text.new
        ≡ text.old ++ value_tokens (script_status_value stored_outputs_value status.now)) }
{
    match status.write(alloc, text) {
        Ok(()) => Ok(()),
        Err(ToValueError::OutOfMemory) => Err(AllocError),
        Err(ToValueError::NotLoaded) => unreachable!(),
    }
}

/// Writes a setup script's status as a field, if there is one.
pub(crate) fn with_script_status(
    object: ObjectWriter,
    alloc: Global,
    text: &mut JsonText,
    key: &str,
    status: Option<&SetupScriptExecuteStatus<RecordingSpec>>,
) -> Result<ObjectWriter, AllocError>
    ensures { IfOk result (λ w. Writes object text.old w text.new
        ((
          key.now,
          option_map (script_status_value stored_outputs_value)
              (option_map (λ s. s.now) status.entry),
        ) ∷ []) ⊤) }
{
    object.leave_open()?;
    if let Some(status) = status {
        text.key(key)?;
        write_script_status(alloc, text, status)?;
    }
    Ok(ObjectWriter::resume(alloc))
}
