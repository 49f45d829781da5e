//! What happened without outputs, as it is recorded.
ghost use Rattle.std.specs.Prelude.{◌≡◌, IfOk};
ghost use Rattle.rec_events.specs.LiveEvents.{core_kind};
ghost use Rattle.rec_summaries.specs.Groups.{of_run, of_script, of_start, of_stop, of_test};

use crate::run_kinds::{run_finished, run_started};
use crate::script_kinds::{script_slow, script_started};
use crate::test_kinds::{retry_started, test_skipped, test_slow, test_started};
use rec_events::{CancelReason, CoreEventKind, TestEventKind};
use std::alloc::{AllocError, Global};

/// Gives what happened without outputs, as it is to be recorded; `None` where it has outputs or
/// only informs.
pub(crate) fn summarize_core(
    alloc: Global,
    kind: &TestEventKind<'_>,
) -> Result<Option<CoreEventKind>, AllocError>
    ensures { IfOk result (λ summary. summary ≡ core_kind kind.now) }
{
    match kind {
        TestEventKind::SetupScriptStarted { .. } | TestEventKind::SetupScriptSlow { .. } => {
            summarize_script(alloc, kind)
        }
        TestEventKind::TestStarted { .. } | TestEventKind::TestRetryStarted { .. } => {
            summarize_start(alloc, kind)
        }
        TestEventKind::TestSlow { .. } | TestEventKind::TestSkipped { .. } => {
            summarize_test(alloc, kind)
        }
        TestEventKind::RunBeginCancel { .. }
        | TestEventKind::RunPaused { .. }
        | TestEventKind::RunContinued { .. } => Ok(summarize_stop(kind)),
        _ => summarize_run(alloc, kind),
    }
}

/// Gives a start or an end of the run, or of one of a stress run's runs;
/// `None` for the other kinds.
fn summarize_run(
    alloc: Global,
    kind: &TestEventKind<'_>,
) -> Result<Option<CoreEventKind>, AllocError>
    ensures { IfOk result (λ summary. summary ≡ of_run kind.now) }
{
    match kind {
        TestEventKind::RunStarted {
            run_id,
            profile_name,
            cli_args,
            stress_condition,
            ..
        } => run_started(alloc, *run_id, profile_name, cli_args, stress_condition).map(Some),
        TestEventKind::StressSubRunStarted { progress } => {
            Ok(Some(CoreEventKind::StressSubRunStarted {
                progress: *progress,
            }))
        }
        TestEventKind::StressSubRunFinished {
            progress,
            sub_elapsed,
            sub_stats,
        } => Ok(Some(CoreEventKind::StressSubRunFinished {
            progress: *progress,
            sub_elapsed: *sub_elapsed,
            sub_stats: *sub_stats,
        })),
        TestEventKind::RunFinished {
            run_id,
            start_time,
            elapsed,
            run_stats,
            outstanding_not_seen,
        } => run_finished(
            alloc,
            *run_id,
            *start_time,
            *elapsed,
            run_stats,
            outstanding_not_seen,
        )
        .map(Some),
        _ => Ok(None),
    }
}

/// Gives a cancel, a pause or the end of a pause; `None` for the other kinds.
fn summarize_stop(kind: &TestEventKind<'_>) -> Option<CoreEventKind>
    ensures { result ≡ of_stop kind.now }
{
    match kind {
        TestEventKind::RunBeginCancel {
            setup_scripts_running,
            running,
            current_stats,
        } => Some(CoreEventKind::RunBeginCancel {
            setup_scripts_running: *setup_scripts_running,
            running: *running,
            reason: current_stats.cancel_reason.unwrap_or(CancelReason::Signal),
        }),
        TestEventKind::RunPaused {
            setup_scripts_running,
            running,
        } => Some(CoreEventKind::RunPaused {
            setup_scripts_running: *setup_scripts_running,
            running: *running,
        }),
        TestEventKind::RunContinued {
            setup_scripts_running,
            running,
        } => Some(CoreEventKind::RunContinued {
            setup_scripts_running: *setup_scripts_running,
            running: *running,
        }),
        _ => None,
    }
}

/// Gives what happened to a setup script; `None` for the other kinds.
fn summarize_script(
    alloc: Global,
    kind: &TestEventKind<'_>,
) -> Result<Option<CoreEventKind>, AllocError>
    ensures { IfOk result (λ summary. summary ≡ of_script kind.now) }
{
    match kind {
        TestEventKind::SetupScriptStarted {
            stress_index,
            index,
            total,
            script_id,
            program,
            args,
            no_capture,
        } => script_started(
            alloc,
            stress_index,
            *index,
            *total,
            script_id,
            program,
            args,
            *no_capture,
        )
        .map(Some),
        TestEventKind::SetupScriptSlow {
            stress_index,
            script_id,
            program,
            args,
            elapsed,
            will_terminate,
        } => script_slow(
            alloc,
            stress_index,
            script_id,
            program,
            args,
            *elapsed,
            *will_terminate,
        )
        .map(Some),
        _ => Ok(None),
    }
}

/// Gives the start of a test's first or further attempt; `None` for the other kinds.
fn summarize_start(
    alloc: Global,
    kind: &TestEventKind<'_>,
) -> Result<Option<CoreEventKind>, AllocError>
    ensures { IfOk result (λ summary. summary ≡ of_start kind.now) }
{
    match kind {
        TestEventKind::TestStarted {
            stress_index,
            test_instance,
            slot_assignment,
            current_stats,
            running,
            command_line,
        } => test_started(
            alloc,
            stress_index,
            test_instance,
            slot_assignment,
            current_stats,
            *running,
            command_line,
        )
        .map(Some),
        TestEventKind::TestRetryStarted {
            stress_index,
            test_instance,
            slot_assignment,
            retry_data,
            running,
            command_line,
        } => retry_started(
            alloc,
            stress_index,
            test_instance,
            slot_assignment,
            *retry_data,
            *running,
            command_line,
        )
        .map(Some),
        _ => Ok(None),
    }
}

/// Gives what else happened to a test without outputs; `None` for the other kinds.
fn summarize_test(
    alloc: Global,
    kind: &TestEventKind<'_>,
) -> Result<Option<CoreEventKind>, AllocError>
    ensures { IfOk result (λ summary. summary ≡ of_test kind.now) }
{
    match kind {
        TestEventKind::TestSlow {
            stress_index,
            test_instance,
            retry_data,
            elapsed,
            will_terminate,
        } => test_slow(
            alloc,
            stress_index,
            test_instance,
            *retry_data,
            *elapsed,
            *will_terminate,
        )
        .map(Some),
        TestEventKind::TestSkipped {
            stress_index,
            test_instance,
            reason,
            junit_report_skipped,
        } => test_skipped(
            alloc,
            stress_index,
            test_instance,
            *reason,
            *junit_report_skipped,
        )
        .map(Some),
        _ => Ok(None),
    }
}
