//! What happens to a test without outputs, as it is recorded.
ghost use Rattle.std.specs.Prelude.{◌≡◌, IfOk};
ghost use Rattle.rec_events.specs.declared.events.CoreEventKind.TheVariants as core;
ghost use Rattle.rec_events.specs.LiveStress.{index_summary};

use crate::copies::copy_test;
use crate::stress::recorded_index;
use rec_events::{
    CoreEventKind, Duration, Items, MismatchReason, ReportSkipPolicy, RetryData, RunStats,
    StressIndex, TestInstanceId, TestSlotAssignment, Text,
};
use std::alloc::{AllocError, Global};

/// Summarizes the start of a test.
pub(crate) fn test_started(
    alloc: Global,
    stress_index: &Option<StressIndex>,
    test_instance: &TestInstanceId<'_>,
    slot_assignment: &TestSlotAssignment,
    current_stats: &RunStats,
    running: usize,
    command_line: &Items<Text>,
) -> Result<CoreEventKind, AllocError>
    ensures { IfOk result
        (λ summary. summary
        ≡ core.TestStarted (index_summary stress_index.now) test_instance.now slot_assignment.now
        current_stats.now running command_line.now) }
{
    let (test_instance, slot_assignment, command_line) = copy_test(
        alloc,
        test_instance,
        slot_assignment,
        command_line,
    )?;
    Ok(CoreEventKind::TestStarted {
        stress_index: recorded_index(stress_index),
        test_instance,
        slot_assignment,
        current_stats: *current_stats,
        running,
        command_line,
    })
}

/// Summarizes that a test is slow.
pub(crate) fn test_slow(
    alloc: Global,
    stress_index: &Option<StressIndex>,
    test_instance: &TestInstanceId<'_>,
    retry_data: RetryData,
    elapsed: Duration,
    will_terminate: bool,
) -> Result<CoreEventKind, AllocError>
    ensures { IfOk result
        (λ summary. summary
        ≡ core.TestSlow (index_summary stress_index.now) test_instance.now retry_data elapsed
        will_terminate) }
{
    let test_instance = test_instance.to_owned(alloc)?;
    Ok(CoreEventKind::TestSlow {
        stress_index: recorded_index(stress_index),
        test_instance,
        retry_data,
        elapsed,
        will_terminate,
    })
}

/// Summarizes the start of a further attempt.
pub(crate) fn retry_started(
    alloc: Global,
    stress_index: &Option<StressIndex>,
    test_instance: &TestInstanceId<'_>,
    slot_assignment: &TestSlotAssignment,
    retry_data: RetryData,
    running: usize,
    command_line: &Items<Text>,
) -> Result<CoreEventKind, AllocError>
    ensures { IfOk result
        (λ summary. summary
        ≡ core.TestRetryStarted (index_summary stress_index.now) test_instance.now
        slot_assignment.now retry_data running command_line.now) }
{
    let (test_instance, slot_assignment, command_line) = copy_test(
        alloc,
        test_instance,
        slot_assignment,
        command_line,
    )?;
    Ok(CoreEventKind::TestRetryStarted {
        stress_index: recorded_index(stress_index),
        test_instance,
        slot_assignment,
        retry_data,
        running,
        command_line,
    })
}

/// Summarizes that a test is skipped.
pub(crate) fn test_skipped(
    alloc: Global,
    stress_index: &Option<StressIndex>,
    test_instance: &TestInstanceId<'_>,
    reason: MismatchReason,
    junit_report_skipped: ReportSkipPolicy,
) -> Result<CoreEventKind, AllocError>
    ensures { IfOk result
        (λ summary. summary
        ≡ core.TestSkipped (index_summary stress_index.now) test_instance.now reason
        junit_report_skipped) }
{
    let test_instance = test_instance.to_owned(alloc)?;
    Ok(CoreEventKind::TestSkipped {
        stress_index: recorded_index(stress_index),
        test_instance,
        reason,
        junit_report_skipped,
    })
}
