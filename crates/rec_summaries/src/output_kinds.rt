//! What happened with outputs, as it is recorded.
ghost use Rattle.std.specs.Prelude.{◌≡◌, IfOk, codes, Some};
ghost use Rattle.rec_events.specs.LiveEvents.{kind_name, output_kind};

use crate::copies::{copy_script, copy_script_status, copy_status, copy_statuses};
use crate::stress::recorded_index;
use rec_events::{LiveSpec, OutputEventKind, TestEventKind};
use std::alloc::{AllocError, Global};

/// Gives what happened with outputs, as it is to be recorded; `None` where it has none.
pub(crate) fn summarize_output(
    alloc: Global,
    kind: &TestEventKind<'_>,
) -> Result<Option<OutputEventKind<LiveSpec>>, AllocError>
    ensures { IfOk result (λ summary. summary ≡ output_kind kind.now) }
{
    match kind {
        TestEventKind::SetupScriptFinished { .. } => script_finished(alloc, kind).map(Some),
        TestEventKind::TestAttemptFailedWillRetry { .. } => attempt_failed(alloc, kind).map(Some),
        TestEventKind::TestFinished { .. } => test_finished(alloc, kind).map(Some),
        _ => Ok(None),
    }
}

/// Summarizes the end of a setup script.
fn script_finished(
    alloc: Global,
    kind: &TestEventKind<'_>,
) -> Result<OutputEventKind<LiveSpec>, AllocError>
    requires kind { kind_name kind.now ≡ codes "setup-script-finished" }
    ensures { IfOk result (λ summary. output_kind kind.now ≡ Some summary) }
{
    let TestEventKind::SetupScriptFinished {
        stress_index,
        index,
        total,
        script_id,
        program,
        args,
        no_capture,
        run_status,
        ..
    } = kind
    else {
        unreachable!()
    };
    let script = copy_script(alloc, script_id, program, args)?;
    let Ok(run_status) = copy_script_status(alloc, run_status) else {
        drop(script);
        return Err(AllocError);
    };
    let (script_id, program, args) = script;
    Ok(OutputEventKind::SetupScriptFinished {
        stress_index: recorded_index(stress_index),
        index: *index,
        total: *total,
        script_id,
        program,
        args,
        no_capture: *no_capture,
        run_status,
    })
}

/// Summarizes a failed attempt.
fn attempt_failed(
    alloc: Global,
    kind: &TestEventKind<'_>,
) -> Result<OutputEventKind<LiveSpec>, AllocError>
    requires kind { kind_name kind.now ≡ codes "test-attempt-failed-will-retry" }
    ensures { IfOk result (λ summary. output_kind kind.now ≡ Some summary) }
{
    let TestEventKind::TestAttemptFailedWillRetry {
        stress_index,
        test_instance,
        run_status,
        delay_before_next_attempt,
        failure_output,
        running,
    } = kind
    else {
        unreachable!()
    };
    let test_instance = test_instance.to_owned(alloc)?;
    let Ok(run_status) = copy_status(alloc, run_status) else {
        drop(test_instance);
        return Err(AllocError);
    };
    Ok(OutputEventKind::TestAttemptFailedWillRetry {
        stress_index: recorded_index(stress_index),
        test_instance,
        run_status,
        delay_before_next_attempt: *delay_before_next_attempt,
        failure_output: *failure_output,
        running: *running,
    })
}

/// Summarizes the end of a test.
fn test_finished(
    alloc: Global,
    kind: &TestEventKind<'_>,
) -> Result<OutputEventKind<LiveSpec>, AllocError>
    requires kind { kind_name kind.now ≡ codes "test-finished" }
    ensures { IfOk result (λ summary. output_kind kind.now ≡ Some summary) }
{
    let TestEventKind::TestFinished {
        stress_index,
        test_instance,
        success_output,
        failure_output,
        junit_store_success_output,
        junit_store_failure_output,
        junit_flaky_fail_status,
        run_statuses,
        current_stats,
        running,
    } = kind
    else {
        unreachable!()
    };
    let test_instance = test_instance.to_owned(alloc)?;
    let Ok(run_statuses) = copy_statuses(alloc, run_statuses) else {
        drop(test_instance);
        return Err(AllocError);
    };
    Ok(OutputEventKind::TestFinished {
        stress_index: recorded_index(stress_index),
        test_instance,
        success_output: *success_output,
        failure_output: *failure_output,
        junit_store_success_output: *junit_store_success_output,
        junit_store_failure_output: *junit_store_failure_output,
        junit_flaky_fail_status: *junit_flaky_fail_status,
        run_statuses,
        current_stats: *current_stats,
        running: *running,
    })
}
