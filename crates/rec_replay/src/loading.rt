//! The outputs of recorded events, read from a store.
ghost use Rattle.std.specs.List.{flat_map};
ghost use Rattle.std.specs.Prelude.{◌≡◌, ◌∷◌, [], length, map, option_map, IfOk};
ghost use Rattle.rec_events.specs.declared.outputs.LiveSpec.{LiveSpec};
ghost use Rattle.rec_events.specs.EventMaps.{of_execution, execution_with, of_status};
ghost use Rattle.rec_events.specs.EventMaps.{status_with, script_status_with, statuses_with};
ghost use Rattle.rec_store.specs.Kept.{bytes_under};
ghost use Rattle.rec_replay.specs.declared.output_load.LoadOutput.TheVariants.{Load, Skip};
ghost use Rattle.rec_replay.specs.Loading.{Loads, output_names, output_loaded, captured_names};
ghost use Rattle.rec_replay.specs.Loading.{description_names, description_loaded};
ghost use Rattle.rec_replay.specs.Replaying.{left_out, unloaded};

use crate::output_load::LoadOutput;
use rec_events::{
    ChildExecutionOutputDescription, ChildOutputDescription, ChildSingleOutput, ErrorSummary,
    ExecuteStatus, ExecutionResultDescription, ExecutionStatuses, Items, LiveSpec,
    OutputErrorSlice, OutputFileName, RecordingSpec, SetupScriptExecuteStatus, Text, TextMap,
    TryClone, ZipStoreOutput, ZipStoreOutputDescription, clone_both,
};
use rec_store::{RecordReadError, StoreReader};
use std::alloc::{AllocError, Global};

/// Reads the output of a name.
fn load_named(
    alloc: Global,
    reader: &mut dyn StoreReader,
    name: OutputFileName,
) -> Result<ChildSingleOutput, RecordReadError>
    ensures loads { Loads (limit reader.old) (limit reader.new) (failures reader.old)
        (failures reader.new) (holds reader.old) (holds reader.new)
        (name ∷ []) (λ es. bytes_under es name) result }
    ensures same_reader { reader.new.0 ≡ reader.old.0 }
{
    let text = name.text(alloc)?;
    let bytes = reader.read_output(alloc, text.as_str())?;
    Ok(ChildSingleOutput::new(bytes))
}

/// Reads an output; one without bytes is in no file.
fn load_output(
    alloc: Global,
    reader: &mut dyn StoreReader,
    output: ZipStoreOutput,
) -> Result<ChildSingleOutput, RecordReadError>
    ensures loads { Loads (limit reader.old) (limit reader.new) (failures reader.old)
        (failures reader.new) (holds reader.old) (holds reader.new)
        (output_names output) (λ es. output_loaded es output) result }
    ensures same_reader { reader.new.0 ≡ reader.old.0 }
{
    match output {
        ZipStoreOutput::Empty => Ok(ChildSingleOutput::new(Vec::new(alloc))),
        ZipStoreOutput::Full { file_name } => load_named(alloc, reader, file_name),
        ZipStoreOutput::Truncated { file_name, .. } => load_named(alloc, reader, file_name),
    }
}

/// Reads an output that may not have been captured.
fn load_captured(
    alloc: Global,
    reader: &mut dyn StoreReader,
    output: Option<ZipStoreOutput>,
) -> Result<Option<ChildSingleOutput>, RecordReadError>
    ensures loads { Loads (limit reader.old) (limit reader.new) (failures reader.old)
        (failures reader.new) (holds reader.old) (holds reader.new)
        (captured_names output) (λ es. option_map (output_loaded es) output) result }
    ensures same_reader { reader.new.0 ≡ reader.old.0 }
{
    match output {
        Some(output) => Ok(Some(load_output(alloc, reader, output)?)),
        None => Ok(None),
    }
}

/// Reads what a process wrote, unless it is skipped.
fn load_description(
    alloc: Global,
    reader: &mut dyn StoreReader,
    load: LoadOutput,
    output: &ZipStoreOutputDescription,
) -> Result<ChildOutputDescription, RecordReadError>
    ensures loads { Loads (limit reader.old) (limit reader.new) (failures reader.old)
        (failures reader.new) (holds reader.old) (holds reader.new)
        (description_names load output.now) (λ es. description_loaded load es output.now) result }
    ensures same_reader { reader.new.0 ≡ reader.old.0 }
    ensures skipped { load ≡ Skip → reader.new ≡ reader.old }
{
    match load {
        LoadOutput::Load => load_described(alloc, reader, output),
        LoadOutput::Skip => Ok(ChildOutputDescription::NotLoaded),
    }
}

/// Reads what a process wrote.
fn load_described(
    alloc: Global,
    reader: &mut dyn StoreReader,
    output: &ZipStoreOutputDescription,
) -> Result<ChildOutputDescription, RecordReadError>
    ensures loads { Loads (limit reader.old) (limit reader.new) (failures reader.old)
        (failures reader.new) (holds reader.old) (holds reader.new)
        (description_names Load output.now) (λ es. description_loaded Load es output.now) result }
    ensures same_reader { reader.new.0 ≡ reader.old.0 }
{
    match output {
        ZipStoreOutputDescription::Split { stdout, stderr } => {
            let stdout = load_captured(alloc, reader, *stdout)?;
            let stderr = load_captured(alloc, reader, *stderr)?;
            Ok(ChildOutputDescription::Split { stdout, stderr })
        }
        ZipStoreOutputDescription::Combined { output } => {
            let output = load_output(alloc, reader, *output)?;
            Ok(ChildOutputDescription::Combined { output })
        }
    }
}

/// Reads what came of starting a process.
fn load_execution(
    alloc: Global,
    reader: &mut dyn StoreReader,
    load: LoadOutput,
    output: &ChildExecutionOutputDescription<RecordingSpec>,
) -> Result<ChildExecutionOutputDescription<LiveSpec>, RecordReadError>
    ensures loads { Loads (limit reader.old) (limit reader.new) (failures reader.old)
        (failures reader.new) (holds reader.old) (holds reader.new)
        (of_execution (description_names load) output.now)
        (λ es. execution_with (description_loaded load es) output.now) result }
    ensures same_reader { reader.new.0 ≡ reader.old.0 }
    ensures skipped { load ≡ Skip → reader.new ≡ reader.old }
    ensures apart { IfOk result
        (λ y. execution_with {T = LiveSpec} unloaded y ≡ execution_with left_out output.now) }
{
    match output {
        ChildExecutionOutputDescription::Output {
            result,
            output,
            errors,
        } => {
            let copied = clone_both(alloc, errors, result)?;
            match load_description(alloc, reader, load, output) {
                Ok(output) => {
                    let (errors, result) = copied;
                    Ok(ChildExecutionOutputDescription::Output {
                        result,
                        output,
                        errors,
                    })
                }
                Err(error) => {
                    drop(copied);
                    Err(error)
                }
            }
        }
        ChildExecutionOutputDescription::StartError { message } => {
            let message = message.try_clone(alloc)?;
            Ok(ChildExecutionOutputDescription::StartError { message })
        }
    }
}

/// Reads the outputs of an attempt of a test, and copies the rest.
pub(crate) fn load_status(
    alloc: Global,
    reader: &mut dyn StoreReader,
    load: LoadOutput,
    status: &ExecuteStatus<RecordingSpec>,
) -> Result<ExecuteStatus<LiveSpec>, RecordReadError>
    ensures loads { Loads (limit reader.old) (limit reader.new) (failures reader.old)
        (failures reader.new) (holds reader.old) (holds reader.new)
        (of_status (description_names load) status.now)
        (λ es. status_with (description_loaded load es) status.now) result }
    ensures same_reader { reader.new.0 ≡ reader.old.0 }
    ensures skipped { load ≡ Skip → reader.new ≡ reader.old }
    ensures apart { IfOk result
        (λ y. status_with {T = LiveSpec} unloaded y ≡ status_with left_out status.now) }
{
    let copied = copy_result(alloc, status)?;
    let output = match load_execution(alloc, reader, load, &status.output) {
        Ok(output) => output,
        Err(error) => {
            drop(copied);
            return Err(error);
        }
    };
    let (error_summary, output_error_slice, result) = copied;
    Ok(ExecuteStatus {
        retry_data: status.retry_data,
        output,
        result,
        start_time: status.start_time,
        time_taken: status.time_taken,
        is_slow: status.is_slow,
        delay_before_start: status.delay_before_start,
        error_summary,
        output_error_slice,
        cpu_time: status.cpu_time,
    })
}

/// Copies the errors and the result of an attempt.
fn copy_result(
    alloc: Global,
    status: &ExecuteStatus<RecordingSpec>,
) -> Result<
    (
        Option<ErrorSummary>,
        Option<OutputErrorSlice>,
        ExecutionResultDescription,
    ),
    AllocError,
>
    ensures { IfOk result
        (λ c. c ≡ (status.now.error_summary, status.now.output_error_slice, status.now.result)) }
{
    let result = status.result.try_clone(alloc)?;
    let Ok(errors) = clone_both(alloc, &status.error_summary, &status.output_error_slice) else {
        drop(result);
        return Err(AllocError);
    };
    let (error_summary, output_error_slice) = errors;
    Ok((error_summary, output_error_slice, result))
}

/// Reads the outputs of a setup script, and copies the rest.
pub(crate) fn load_script_status(
    alloc: Global,
    reader: &mut dyn StoreReader,
    load: LoadOutput,
    status: &SetupScriptExecuteStatus<RecordingSpec>,
) -> Result<SetupScriptExecuteStatus<LiveSpec>, RecordReadError>
    ensures loads { Loads (limit reader.old) (limit reader.new) (failures reader.old)
        (failures reader.new) (holds reader.old) (holds reader.new)
        (of_execution (description_names load) status.now.output)
        (λ es. script_status_with (description_loaded load es) status.now) result }
    ensures same_reader { reader.new.0 ≡ reader.old.0 }
    ensures skipped { load ≡ Skip → reader.new ≡ reader.old }
    ensures apart { IfOk result
        (λ y. script_status_with {T = LiveSpec} unloaded y
        ≡ script_status_with left_out status.now) }
{
    let copied = copy_script_result(alloc, status)?;
    let output = match load_execution(alloc, reader, load, &status.output) {
        Ok(output) => output,
        Err(error) => {
            drop(copied);
            return Err(error);
        }
    };
    let (env_map, error_summary, result) = copied;
    Ok(SetupScriptExecuteStatus {
        output,
        result,
        start_time: status.start_time,
        time_taken: status.time_taken,
        is_slow: status.is_slow,
        env_map,
        error_summary,
    })
}

/// Copies the variables, the errors and the result of a setup script.
fn copy_script_result(
    alloc: Global,
    status: &SetupScriptExecuteStatus<RecordingSpec>,
) -> Result<
    (
        Option<TextMap<Text>>,
        Option<ErrorSummary>,
        ExecutionResultDescription,
    ),
    AllocError,
>
    ensures { IfOk result
        (λ c. c ≡ (status.now.env_map, status.now.error_summary, status.now.result)) }
{
    let result = status.result.try_clone(alloc)?;
    let Ok(said) = clone_both(alloc, &status.env_map, &status.error_summary) else {
        drop(result);
        return Err(AllocError);
    };
    let (env_map, error_summary) = said;
    Ok((env_map, error_summary, result))
}

/// Reads the outputs of all attempts of a test, in their order.
pub(crate) fn load_statuses(
    alloc: Global,
    reader: &mut dyn StoreReader,
    load: LoadOutput,
    statuses: &ExecutionStatuses<RecordingSpec>,
) -> Result<ExecutionStatuses<LiveSpec>, RecordReadError>
    ensures loads { Loads (limit reader.old) (limit reader.new) (failures reader.old)
        (failures reader.new) (holds reader.old) (holds reader.new)
        (flat_map (of_status (description_names load)) statuses.now.statuses)
        (λ es. statuses_with (description_loaded load es) statuses.now) result }
    ensures same_reader { reader.new.0 ≡ reader.old.0 }
    ensures skipped { load ≡ Skip → reader.new ≡ reader.old }
    ensures apart { IfOk result
        (λ y. statuses_with {T = LiveSpec} unloaded y ≡ statuses_with left_out statuses.now) }
{
    let loaded = load_each(alloc, reader, load, statuses.statuses.as_slice())?;
    Ok(ExecutionStatuses::new(loaded.into_vec(), statuses.flaky_result))
}

/// Reads the outputs of attempts, in their order.
fn load_each(
    alloc: Global,
    reader: &mut dyn StoreReader,
    load: LoadOutput,
    statuses: &[ExecuteStatus<RecordingSpec>],
) -> Result<Items<ExecuteStatus<LiveSpec>>, RecordReadError>
    ensures loads { Loads (limit reader.old) (limit reader.new) (failures reader.old)
        (failures reader.new) (holds reader.old) (holds reader.new)
        (flat_map (of_status (description_names load)) statuses.now)
        (λ es. map (status_with (description_loaded load es)) statuses.now) result }
    ensures same_reader { reader.new.0 ≡ reader.old.0 }
    ensures skipped { load ≡ Skip → reader.new ≡ reader.old }
    ensures apart { IfOk result
        (λ y. map (status_with {T = LiveSpec} unloaded) y
        ≡ map (status_with left_out) statuses.now) }
    ensures as_many { IfOk result (λ loaded. length loaded ≡ length statuses.now) }
{
    let mut loaded = Vec::new(alloc);
    for status in statuses {
        let status = load_status(alloc, reader, load, status)?;
        loaded.push(status)?;
    }
    Ok(Items::new(loaded))
}
