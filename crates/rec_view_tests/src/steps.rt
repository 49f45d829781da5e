//! Events of a run, made of short steps.

use crate::script_steps::{script_ended, script_started};
use rec_events::{
    ChildExecutionOutputDescription, ChildOutputDescription, CoreEventKind, Duration,
    ExecuteStatus, ExecutionResultDescription, ExecutionStatuses, FlakyResult, Items,
    JunitFlakyFailStatus, LiveSpec, MismatchReason, NonEmpty, OutputEventKind, OwnedTestInstanceId,
    ReportSkipPolicy, ReportUuid, RetryData, RunFinishedStats, RunStats, RustBinaryId, Stamp,
    StressIndexSummary, StressProgress, TestCaseName, TestEventKindSummary, TestEventSummary,
    TestGroup, TestOutputDisplay, TestSlotAssignment, TestsNotSeenSummary,
};
use std::alloc::{AllocError, Global};
use uuid::Uuid;

/// An event of a run. A test is given by its name, and attempts by a letter each: `p` passed, any
/// other could not be started.
#[derive(Clone, Copy)]
pub(crate) enum Step {
    Start(&'static str),
    /// The start of a test in a sub-run of a stress run.
    StartInSubRun(&'static str, u32),
    Retry(&'static str),
    Fail(&'static str),
    /// The end of a test, which counts as passed if it is flaky.
    End(&'static str, &'static str),
    /// The end of a test, which counts as failed if it is flaky.
    StrictEnd(&'static str, &'static str),
    Skip(&'static str),
    /// The end of a run, which didn't see these tests.
    RunEnd(&'static [&'static str]),
    /// The end of a run, which names these tests as not seen, and counts so many.
    RunEndOf(&'static [&'static str], usize),
    SubRun,
    Pause,
    Continue,
    /// The start of the setup script of an index.
    ScriptStart(usize),
    /// The end of the setup script of an index.
    ScriptEnd(usize),
}

const NO_TIME: Duration = Duration { secs: 0, nanos: 0 };

const EPOCH: Stamp = Stamp {
    secs: 0,
    nanos: 0,
    offset: 0,
};

/// A test of the binary `b`.
fn test(alloc: Global, name: &str) -> Result<OwnedTestInstanceId, AllocError> {
    Ok(OwnedTestInstanceId {
        binary_id: RustBinaryId::new(String::from_str(alloc, "b")?),
        test_name: TestCaseName::new(String::from_str(alloc, name)?),
    })
}

fn tests(alloc: Global, names: &[&'static str]) -> Result<Items<OwnedTestInstanceId>, AllocError> {
    let mut tests = Vec::new(alloc);
    for name in names {
        tests.push(test(alloc, name)?)?;
    }
    Ok(Items::new(tests))
}

fn attempt(letter: u8) -> ExecuteStatus<LiveSpec> {
    let result = if letter == b'p' {
        ExecutionResultDescription::Pass
    } else {
        ExecutionResultDescription::ExecFail
    };
    ExecuteStatus {
        retry_data: RetryData {
            attempt: 1,
            total_attempts: 3,
        },
        output: ChildExecutionOutputDescription::Output {
            result: None,
            output: ChildOutputDescription::NotLoaded,
            errors: None,
        },
        result,
        start_time: EPOCH,
        time_taken: NO_TIME,
        is_slow: false,
        delay_before_start: NO_TIME,
        error_summary: None,
        output_error_slice: None,
        cpu_time: None,
    }
}

fn attempts(
    alloc: Global,
    letters: &str,
    flaky_result: FlakyResult,
) -> Result<ExecutionStatuses<LiveSpec>, AllocError> {
    let mut statuses = Vec::new(alloc);
    for letter in letters.as_bytes() {
        statuses.push(attempt(*letter))?;
    }
    match NonEmpty::from_items(Items::new(statuses)) {
        Some(statuses) => Ok(ExecutionStatuses {
            statuses,
            flaky_result,
        }),
        None => Err(AllocError),
    }
}

const SLOT: TestSlotAssignment = TestSlotAssignment {
    global_slot: 0,
    group_slot: None,
    test_group: TestGroup::Global,
};

fn started(
    alloc: Global,
    name: &str,
    stress_index: Option<StressIndexSummary>,
) -> Result<TestEventKindSummary<LiveSpec>, AllocError> {
    Ok(TestEventKindSummary::Core(CoreEventKind::TestStarted {
        stress_index,
        test_instance: test(alloc, name)?,
        slot_assignment: SLOT,
        current_stats: RunStats::zero(),
        running: 1,
        command_line: Items::empty(alloc),
    }))
}

fn started_in_sub_run(
    alloc: Global,
    name: &str,
    current: u32,
) -> Result<TestEventKindSummary<LiveSpec>, AllocError> {
    let index = StressIndexSummary {
        current,
        total: None,
    };
    started(alloc, name, Some(index))
}

fn retried(alloc: Global, name: &str) -> Result<TestEventKindSummary<LiveSpec>, AllocError> {
    Ok(TestEventKindSummary::Core(CoreEventKind::TestRetryStarted {
        stress_index: None,
        test_instance: test(alloc, name)?,
        slot_assignment: SLOT,
        retry_data: RetryData {
            attempt: 2,
            total_attempts: 3,
        },
        running: 1,
        command_line: Items::empty(alloc),
    }))
}

fn failed(alloc: Global, name: &str) -> Result<TestEventKindSummary<LiveSpec>, AllocError> {
    Ok(TestEventKindSummary::Output(OutputEventKind::TestAttemptFailedWillRetry {
        stress_index: None,
        test_instance: test(alloc, name)?,
        run_status: attempt(b'f'),
        delay_before_next_attempt: NO_TIME,
        failure_output: TestOutputDisplay::Never,
        running: 0,
    }))
}

fn ended(
    alloc: Global,
    name: &str,
    letters: &str,
    flaky_result: FlakyResult,
) -> Result<TestEventKindSummary<LiveSpec>, AllocError> {
    let test_instance = test(alloc, name)?;
    let run_statuses = attempts(alloc, letters, flaky_result)?;
    Ok(TestEventKindSummary::Output(OutputEventKind::TestFinished {
        stress_index: None,
        test_instance,
        success_output: TestOutputDisplay::Never,
        failure_output: TestOutputDisplay::Never,
        junit_store_success_output: false,
        junit_store_failure_output: false,
        junit_flaky_fail_status: JunitFlakyFailStatus::Failure,
        run_statuses,
        current_stats: RunStats::zero(),
        running: 0,
    }))
}

fn skipped(alloc: Global, name: &str) -> Result<TestEventKindSummary<LiveSpec>, AllocError> {
    Ok(TestEventKindSummary::Core(CoreEventKind::TestSkipped {
        stress_index: None,
        test_instance: test(alloc, name)?,
        reason: MismatchReason::Ignored,
        junit_report_skipped: ReportSkipPolicy::None,
    }))
}

fn run_ended(
    alloc: Global,
    names: &[&'static str],
    total_not_seen: usize,
) -> Result<TestEventKindSummary<LiveSpec>, AllocError> {
    let summary = TestsNotSeenSummary {
        not_seen: tests(alloc, names)?,
        total_not_seen,
    };
    Ok(TestEventKindSummary::Core(CoreEventKind::RunFinished {
        run_id: ReportUuid::new(Uuid::nil()),
        start_time: EPOCH,
        elapsed: NO_TIME,
        run_stats: RunFinishedStats::Single(RunStats::zero()),
        outstanding_not_seen: Some(summary),
    }))
}

fn sub_run_started() -> TestEventKindSummary<LiveSpec> {
    TestEventKindSummary::Core(CoreEventKind::StressSubRunStarted {
        progress: StressProgress::Count {
            total: None,
            elapsed: NO_TIME,
            completed: 0,
        },
    })
}

fn paused() -> TestEventKindSummary<LiveSpec> {
    TestEventKindSummary::Core(CoreEventKind::RunPaused {
        setup_scripts_running: 0,
        running: 0,
    })
}

fn continued() -> TestEventKindSummary<LiveSpec> {
    TestEventKindSummary::Core(CoreEventKind::RunContinued {
        setup_scripts_running: 0,
        running: 0,
    })
}

fn kind(alloc: Global, step: Step) -> Result<TestEventKindSummary<LiveSpec>, AllocError> {
    match step {
        Step::Start(name) => started(alloc, name, None),
        Step::StartInSubRun(name, index) => started_in_sub_run(alloc, name, index),
        Step::Retry(name) => retried(alloc, name),
        Step::Fail(name) => failed(alloc, name),
        Step::End(name, letters) => ended(alloc, name, letters, FlakyResult::Pass),
        Step::StrictEnd(name, letters) => ended(alloc, name, letters, FlakyResult::Fail),
        Step::Skip(name) => skipped(alloc, name),
        Step::RunEnd(names) => run_ended(alloc, names, names.len()),
        Step::RunEndOf(names, count) => run_ended(alloc, names, count),
        Step::SubRun => Ok(sub_run_started()),
        Step::Pause => Ok(paused()),
        Step::Continue => Ok(continued()),
        Step::ScriptStart(index) => script_started(alloc, index),
        Step::ScriptEnd(index) => script_ended(alloc, index),
    }
}

/// The event of a step at an instant.
pub(crate) fn event_of(
    alloc: Global,
    step: Step,
    timestamp: Stamp,
) -> Result<TestEventSummary<LiveSpec>, AllocError> {
    let kind = kind(alloc, step)?;
    Ok(TestEventSummary {
        timestamp,
        elapsed: NO_TIME,
        kind,
    })
}

/// The events of these steps, all at one instant.
pub(crate) fn events_of(
    alloc: Global,
    steps: &[Step],
) -> Result<Vec<TestEventSummary<LiveSpec>>, AllocError> {
    let mut events = Vec::new(alloc);
    for step in steps {
        events.push(event_of(alloc, *step, EPOCH)?)?;
    }
    Ok(events)
}
