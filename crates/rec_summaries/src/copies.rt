//! Copies of what events hold.
ghost use Rattle.std.specs.Prelude.{◌≡◌, IfOk};

use rec_events::{
    ChildExecutionOutputDescription, ExecuteStatus, ExecutionResultDescription, ExecutionStatuses,
    Items, LiveSpec, NonEmpty, OwnedTestInstanceId, ScriptId, SetupScriptExecuteStatus,
    TestInstanceId, TestSlotAssignment, Text, TryClone, clone_both,
};
use std::alloc::{AllocError, Global};

/// Copies what a setup script is called, and what it runs.
pub(crate) fn copy_script(
    alloc: Global,
    script_id: &ScriptId,
    program: &Text,
    args: &Items<Text>,
) -> Result<(ScriptId, Text, Items<Text>), AllocError>
    ensures { IfOk result (λ copies. copies ≡ (script_id.now, program.now, args.now)) }
{
    let (script_id, program) = clone_both(alloc, script_id, program)?;
    let args = args.try_clone(alloc)?;
    Ok((script_id, program, args))
}

/// Copies what a test is called, where it runs, and what it runs.
pub(crate) fn copy_test(
    alloc: Global,
    test_instance: &TestInstanceId<'_>,
    slot_assignment: &TestSlotAssignment,
    command_line: &Items<Text>,
) -> Result<(OwnedTestInstanceId, TestSlotAssignment, Items<Text>), AllocError>
    ensures { IfOk result
        (λ copies. copies ≡ (test_instance.now, slot_assignment.now, command_line.now)) }
{
    let test_instance = test_instance.to_owned(alloc)?;
    let Ok((slot_assignment, command_line)) = clone_both(alloc, slot_assignment, command_line)
    else {
        drop(test_instance);
        return Err(AllocError);
    };
    Ok((test_instance, slot_assignment, command_line))
}

/// Copies what came of starting a process.
fn copy_output(
    alloc: Global,
    output: &ChildExecutionOutputDescription<LiveSpec>,
) -> Result<ChildExecutionOutputDescription<LiveSpec>, AllocError>
    ensures { IfOk result (λ copy. copy ≡ output.now) }
{
    match output {
        ChildExecutionOutputDescription::Output {
            result,
            output,
            errors,
        } => {
            let errors = errors.try_clone(alloc)?;
            let Ok((result, output)) = clone_both(alloc, result, output) else {
                drop(errors);
                return Err(AllocError);
            };
            Ok(ChildExecutionOutputDescription::Output {
                result,
                output,
                errors,
            })
        }
        ChildExecutionOutputDescription::StartError { message } => {
            let message = message.try_clone(alloc)?;
            Ok(ChildExecutionOutputDescription::StartError { message })
        }
    }
}

/// Copies what came of starting a process, and how it ended.
fn copy_outcome(
    alloc: Global,
    output: &ChildExecutionOutputDescription<LiveSpec>,
    ending: &ExecutionResultDescription,
) -> Result<
    (
        ChildExecutionOutputDescription<LiveSpec>,
        ExecutionResultDescription,
    ),
    AllocError,
>
    ensures { IfOk result (λ copies. copies ≡ (output.now, ending.now)) }
{
    let ending = ending.try_clone(alloc)?;
    let Ok(output) = copy_output(alloc, output) else {
        drop(ending);
        return Err(AllocError);
    };
    Ok((output, ending))
}

/// Copies a run of a setup script.
pub(crate) fn copy_script_status(
    alloc: Global,
    status: &SetupScriptExecuteStatus<LiveSpec>,
) -> Result<SetupScriptExecuteStatus<LiveSpec>, AllocError>
    ensures { IfOk result (λ copy. copy ≡ status.now) }
{
    let said = clone_both(alloc, &status.env_map, &status.error_summary)?;
    let Ok((output, result)) = copy_outcome(alloc, &status.output, &status.result) else {
        drop(said);
        return Err(AllocError);
    };
    let (env_map, error_summary) = said;
    Ok(SetupScriptExecuteStatus {
        output,
        result,
        start_time: status.start_time,
        time_taken: status.time_taken,
        is_slow: status.is_slow,
        env_map,
        error_summary,
    })
}

/// Copies an attempt of a test.
pub(crate) fn copy_status(
    alloc: Global,
    status: &ExecuteStatus<LiveSpec>,
) -> Result<ExecuteStatus<LiveSpec>, AllocError>
    ensures { IfOk result (λ copy. copy ≡ status.now) }
{
    let error = clone_both(alloc, &status.error_summary, &status.output_error_slice)?;
    let Ok((output, result)) = copy_outcome(alloc, &status.output, &status.result) else {
        drop(error);
        return Err(AllocError);
    };
    let (error_summary, output_error_slice) = error;
    Ok(ExecuteStatus {
        retry_data: status.retry_data,
        output,
        result,
        start_time: status.start_time,
        time_taken: status.time_taken,
        is_slow: status.is_slow,
        delay_before_start: status.delay_before_start,
        error_summary,
        output_error_slice,
        cpu_time: status.cpu_time,
    })
}

/// Copies attempts of a test.
fn copy_each(
    alloc: Global,
    statuses: &[ExecuteStatus<LiveSpec>],
) -> Result<Vec<ExecuteStatus<LiveSpec>>, AllocError>
    ensures { IfOk result (λ copies. copies.items ≡ statuses.now) }
{
    let mut copies = Vec::new(alloc);
    for status in statuses {
        copies.push(copy_status(alloc, status)?)?;
    }
    Ok(copies)
}

/// Copies all attempts of a test.
pub(crate) fn copy_statuses(
    alloc: Global,
    statuses: &ExecutionStatuses<LiveSpec>,
) -> Result<ExecutionStatuses<LiveSpec>, AllocError>
    ensures { IfOk result (λ copy. copy ≡ statuses.now) }
{
    let copies = copy_each(alloc, statuses.statuses.as_slice())?;
    Ok(ExecutionStatuses {
        statuses: NonEmpty::new(copies),
        flaky_result: statuses.flaky_result,
    })
}
