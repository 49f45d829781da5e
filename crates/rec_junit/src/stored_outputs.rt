//! What a report holds of an output.
ghost use Rattle.std.specs.Prelude.{◌≡◌, IfOk};
ghost use Rattle.rec_junit.specs.declared.errors.JunitError.TheVariants.{NotLoadedOutput};
ghost use Rattle.rec_junit.specs.Judging.{Judges, or_refused};
ghost use Rattle.rec_junit.specs.StoredOutputs.{captured_or, lossy_text, no_output};
ghost use Rattle.rec_junit.specs.StoredOutputs.{both, stored_description};
ghost use Rattle.rec_junit.specs.StoredOutputs.{stored_execution, stored_output};

use crate::JunitError;
use crate::texts::two_texts;
use bstr::ByteSlice;
use rec_events::{
    ChildExecutionOutputDescription, ChildOutputDescription, ChildSingleOutput, LiveSpec, Text,
};
use std::alloc::{AllocError, Global};

/// Holds what a case or a rerun wrote, where it is stored.
#[derive(Drop)]
pub(crate) struct StoredOutput {
    /// What it wrote to stdout, or a note in its place.
    pub system_out: Option<Text>,
    /// What it wrote to stderr, or a note in its place.
    pub system_err: Option<Text>,
}

/// Makes the texts of an output, if it is stored.
///
/// # Errors
///
/// - `NotLoadedOutput` exactly where it is stored and was not loaded.
/// - `OutOfMemory` if memory runs out.
pub(crate) fn stored_output(
    alloc: Global,
    is_stored: bool,
    execution: &ChildExecutionOutputDescription<LiveSpec>,
) -> Result<StoredOutput, JunitError>
    ensures { Judges result (stored_output is_stored execution.now) }
{
    if is_stored {
        stored_execution(alloc, execution)
    } else {
        Ok(StoredOutput {
            system_out: None,
            system_err: None,
        })
    }
}

/// Makes the texts of what came of starting a process.
fn stored_execution(
    alloc: Global,
    execution: &ChildExecutionOutputDescription<LiveSpec>,
) -> Result<StoredOutput, JunitError>
    ensures { Judges result (or_refused NotLoadedOutput (stored_execution execution.now)) }
{
    match execution {
        ChildExecutionOutputDescription::Output { output, .. } => stored_description(alloc, output),
        ChildExecutionOutputDescription::StartError { .. } => {
            let note = "(process failed to start)";
            let (system_out, system_err) = two_texts(alloc, note, note)?;
            Ok(both(system_out, system_err))
        }
    }
}

/// Makes the texts of what a process wrote.
fn stored_description(
    alloc: Global,
    output: &ChildOutputDescription,
) -> Result<StoredOutput, JunitError>
    ensures { Judges result (or_refused NotLoadedOutput (stored_description output.now)) }
{
    match output {
        ChildOutputDescription::Split { stdout, stderr } => {
            let system_out = captured_or(alloc, "(stdout not captured)", stdout)?;
            let system_err = captured_or(alloc, "(stderr not captured)", stderr)?;
            Ok(both(system_out, system_err))
        }
        ChildOutputDescription::Combined { output } => {
            let system_out = lossy_text(alloc, output)?;
            let system_err = Text::from_str(alloc, "(stdout and stderr are combined)")?;
            Ok(both(system_out, system_err))
        }
        ChildOutputDescription::NotLoaded => Err(JunitError::NotLoadedOutput),
    }
}

/// Stores both texts.
fn both(system_out: Text, system_err: Text) -> StoredOutput
    ensures { result ≡ both system_out system_err }
{
    StoredOutput {
        system_out: Some(system_out),
        system_err: Some(system_err),
    }
}

/// Makes the text of an output, or of a note where it was not captured.
fn captured_or(
    alloc: Global,
    note: &str,
    output: &Option<ChildSingleOutput>,
) -> Result<Text, AllocError>
    ensures { IfOk result (λ text. text ≡ captured_or note.now output.now) }
{
    match output {
        Some(output) => lossy_text(alloc, output),
        None => Text::from_str(alloc, note),
    }
}

/// Makes the text of an output, with U+FFFD for what is no UTF-8.
fn lossy_text(alloc: Global, output: &ChildSingleOutput) -> Result<Text, AllocError>
    ensures { IfOk result (λ text. text ≡ lossy_text output.now) }
{
    let mut text = String::new(alloc);
    output.as_bytes().to_str_lossy_into(&mut text)?;
    Ok(Text::new(text))
}
