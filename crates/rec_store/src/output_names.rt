//! Which outputs a recorded event names.
ghost use Rattle.std.specs.List.{flat_map};
ghost use Rattle.std.specs.Prelude.{◌≡◌, IfOk, OnOk, map};
ghost use Rattle.rec_events.specs.EventMaps.{of_execution, of_output_kind, of_status};
ghost use Rattle.rec_store.specs.Kept.{AddsNames, output_paths, captured_paths};
ghost use Rattle.rec_store.specs.Kept.{description_paths, event_paths};
ghost use Rattle.rec_store.specs.OutputPaths as spec;

use rec_events::{
    ChildExecutionOutputDescription, ExecuteStatus, OutputEventKind, OutputFileName, RecordingSpec,
    TestEventKindSummary, TestEventSummary, ZipStoreOutput, ZipStoreOutputDescription,
};
use std::alloc::{AllocError, Global};

/// Returns the names of the files that hold an event's outputs: those of its attempts in order,
/// stdout before stderr. A name that stands there twice is there twice.
///
/// # Errors
///
/// `AllocError` comes where memory ran out.
pub fn named_outputs(
    alloc: Global,
    event: &TestEventSummary<RecordingSpec>,
) -> Result<Vec<OutputFileName>, AllocError>
    ensures { IfOk result (λ names. map spec.output_path names.items ≡ event_paths event.now) }
{
    let mut names = Vec::new(alloc);
    if let TestEventKindSummary::Output(kind) = &event.kind {
        add_names(&mut names, kind)?;
    }
    Ok(names)
}

/// Adds the names in a script, in one attempt or in all attempts.
fn add_names(
    names: &mut Vec<OutputFileName>,
    kind: &OutputEventKind<RecordingSpec>,
) -> Result<(), AllocError>
    ensures { OnOk result
        (AddsNames names.old.items names.new.items (of_output_kind description_paths kind.now)) }
{
    match kind {
        OutputEventKind::SetupScriptFinished { run_status, .. } => {
            add_execution(names, &run_status.output)
        }
        OutputEventKind::TestAttemptFailedWillRetry { run_status, .. } => {
            add_execution(names, &run_status.output)
        }
        OutputEventKind::TestFinished { run_statuses, .. } => {
            add_attempts(names, run_statuses.statuses.as_slice())
        }
    }
}

/// Adds the names in all attempts of a test.
fn add_attempts(
    names: &mut Vec<OutputFileName>,
    attempts: &[ExecuteStatus<RecordingSpec>],
) -> Result<(), AllocError>
    ensures { OnOk result
        (AddsNames names.old.items names.new.items
        (flat_map (of_status description_paths) attempts.now)) }
{
    for attempt in attempts {
        add_execution(names, &attempt.output)?;
    }
    Ok(())
}

/// Adds the names in what came of starting a process.
fn add_execution(
    names: &mut Vec<OutputFileName>,
    output: &ChildExecutionOutputDescription<RecordingSpec>,
) -> Result<(), AllocError>
    ensures { OnOk result
        (AddsNames names.old.items names.new.items (of_execution description_paths output.now)) }
{
    match output {
        ChildExecutionOutputDescription::Output { output, .. } => add_description(names, output),
        ChildExecutionOutputDescription::StartError { .. } => Ok(()),
    }
}

/// Adds the names in what a process wrote.
fn add_description(
    names: &mut Vec<OutputFileName>,
    output: &ZipStoreOutputDescription,
) -> Result<(), AllocError>
    ensures { OnOk result
        (AddsNames names.old.items names.new.items (description_paths output.now)) }
{
    match output {
        ZipStoreOutputDescription::Split { stdout, stderr } => {
            add_captured(names, stdout)?;
            add_captured(names, stderr)
        }
        ZipStoreOutputDescription::Combined { output } => add_output(names, output),
    }
}

/// Adds the name of an output that may not have been captured.
fn add_captured(
    names: &mut Vec<OutputFileName>,
    output: &Option<ZipStoreOutput>,
) -> Result<(), AllocError>
    ensures { OnOk result (AddsNames names.old.items names.new.items (captured_paths output.now)) }
{
    match output {
        Some(output) => add_output(names, output),
        None => Ok(()),
    }
}

/// Adds the name of an output, which has none where it has no bytes.
fn add_output(names: &mut Vec<OutputFileName>, output: &ZipStoreOutput) -> Result<(), AllocError>
    ensures { OnOk result (AddsNames names.old.items names.new.items (output_paths output.now)) }
{
    match output {
        ZipStoreOutput::Empty => Ok(()),
        ZipStoreOutput::Full { file_name } | ZipStoreOutput::Truncated { file_name, .. } => {
            names.push(*file_name)?;
            Ok(())
        }
    }
}
