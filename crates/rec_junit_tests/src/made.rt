//! Events of a run, made of short texts.

use rec_events::{
    ChildExecutionOutputDescription, ChildOutputDescription, ChildSingleOutput, Duration,
    ExecuteStatus, ExecutionResultDescription, ExecutionStatuses, FailureDescription, FlakyResult,
    Items, JunitFlakyFailStatus, LiveSpec, NonEmpty, OwnedTestInstanceId, ReportUuid, RetryData,
    RunFinishedStats, RunStats, RustBinaryId, ScriptId, SetupScriptExecuteStatus, Stamp,
    TestCaseName, TestEvent, TestEventKind, TestOutputDisplay, Text, TextMap,
};
use std::alloc::{AllocError, Global};
use uuid::Uuid;

/// Seconds since the Unix epoch.
fn instant(secs: i64) -> Stamp {
    Stamp {
        secs,
        nanos: 0,
        offset: 0,
    }
}

/// Some seconds.
fn seconds(secs: u64) -> Duration {
    Duration { secs, nanos: 0 }
}

/// An event of this kind, at second 1000.
fn event(kind: TestEventKind<'_>) -> TestEvent<'_> {
    TestEvent {
        timestamp: instant(1000),
        elapsed: seconds(0),
        kind,
    }
}

/// A test of the binary `b`.
pub(crate) fn test(alloc: Global, name: &str) -> Result<OwnedTestInstanceId, AllocError> {
    Ok(OwnedTestInstanceId {
        binary_id: RustBinaryId::new(String::from_str(alloc, "b")?),
        test_name: TestCaseName::new(String::from_str(alloc, name)?),
    })
}

/// How an attempt ended: `p` passed, `c` failed with exit code 101; any other could not be started.
fn ending(letter: u8) -> ExecutionResultDescription {
    match letter {
        b'p' => ExecutionResultDescription::Pass,
        b'c' => ExecutionResultDescription::Fail {
            failure: FailureDescription::ExitCode { code: 101 },
            leaked: false,
        },
        _ => ExecutionResultDescription::ExecFail,
    }
}

/// What came of a process: `s` wrote to both streams, `!` could not be started;
/// any other was not loaded.
fn output(
    alloc: Global,
    letter: u8,
) -> Result<ChildExecutionOutputDescription<LiveSpec>, AllocError> {
    match letter {
        b'!' => Ok(ChildExecutionOutputDescription::StartError {
            message: Text::from_str(alloc, "no such file")?,
        }),
        _ => Ok(ChildExecutionOutputDescription::Output {
            result: None,
            output: captured(alloc, letter)?,
            errors: None,
        }),
    }
}

fn captured(alloc: Global, letter: u8) -> Result<ChildOutputDescription, AllocError> {
    match letter {
        b's' => streams(alloc),
        _ => Ok(ChildOutputDescription::NotLoaded),
    }
}

fn streams(alloc: Global) -> Result<ChildOutputDescription, AllocError> {
    let stdout = Some(bytes(alloc, b"stdout")?);
    let stderr = Some(bytes(alloc, b"stderr")?);
    Ok(ChildOutputDescription::Split { stdout, stderr })
}

fn bytes(alloc: Global, bytes: &[u8]) -> Result<ChildSingleOutput, AllocError> {
    Ok(ChildSingleOutput::new(bytes.to_vec(alloc)?))
}

/// The attempt of this number, which began at that second and took so long.
fn attempt(
    alloc: Global,
    number: u32,
    ended: u8,
    wrote: u8,
) -> Result<ExecuteStatus<LiveSpec>, AllocError> {
    Ok(ExecuteStatus {
        retry_data: RetryData {
            attempt: number,
            total_attempts: 3,
        },
        output: output(alloc, wrote)?,
        result: ending(ended),
        start_time: instant(number as i64),
        time_taken: seconds(number as u64),
        is_slow: false,
        delay_before_start: seconds(0),
        error_summary: None,
        output_error_slice: None,
        cpu_time: None,
    })
}

/// The attempts that ended and wrote so, numbered from 1.
fn attempts(
    alloc: Global,
    ended: &str,
    wrote: &str,
    flaky_result: FlakyResult,
) -> Result<ExecutionStatuses<LiveSpec>, AllocError> {
    let mut statuses = Vec::new(alloc);
    let mut number = 0;
    for (ended, wrote) in ended.as_bytes().iter().zip(wrote.as_bytes()) {
        number = u32::wrapping_add(number, 1);
        statuses.push(attempt(alloc, number, *ended, *wrote)?)?;
    }
    match NonEmpty::from_items(Items::new(statuses)) {
        Some(statuses) => Ok(ExecutionStatuses {
            statuses,
            flaky_result,
        }),
        None => Err(AllocError),
    }
}

/// The end of a test whose attempts ended and wrote so. `f` in the flags says that it counts as
/// failed where it is flaky, `+` and `-` that outputs of successes and of failures are stored.
pub(crate) fn finished<'a>(
    alloc: Global,
    test: &'a OwnedTestInstanceId,
    ended: &str,
    wrote: &str,
    flags: &str,
) -> Result<TestEvent<'a>, AllocError> {
    let flaky_result = if flags.contains('f') {
        FlakyResult::Fail
    } else {
        FlakyResult::Pass
    };
    let run_statuses = attempts(alloc, ended, wrote, flaky_result)?;
    Ok(event(TestEventKind::TestFinished {
        stress_index: None,
        test_instance: test.as_id(),
        success_output: TestOutputDisplay::Never,
        failure_output: TestOutputDisplay::Never,
        junit_store_success_output: flags.contains('+'),
        junit_store_failure_output: flags.contains('-'),
        junit_flaky_fail_status: JunitFlakyFailStatus::Failure,
        run_statuses,
        current_stats: RunStats::zero(),
        running: 0,
    }))
}

/// The first byte of a text.
fn letter(text: &str) -> u8 {
    match text.as_bytes().first() {
        Some(letter) => *letter,
        None => b' ',
    }
}

/// A run of a script that ended and wrote so.
fn ran(
    alloc: Global,
    ended: &str,
    wrote: &str,
) -> Result<SetupScriptExecuteStatus<LiveSpec>, AllocError> {
    let env_map = Some(variables(alloc)?);
    Ok(SetupScriptExecuteStatus {
        output: output(alloc, letter(wrote))?,
        result: ending(letter(ended)),
        start_time: instant(3),
        time_taken: seconds(4),
        is_slow: false,
        env_map,
        error_summary: None,
    })
}

/// The end of a script that ended and wrote so, with the same flags.
pub(crate) fn script(
    alloc: Global,
    ended: &str,
    wrote: &str,
    flags: &str,
) -> Result<TestEvent<'static>, AllocError> {
    let script_id = ScriptId::new(String::from_str(alloc, "db")?);
    let program = Text::from_str(alloc, "./prepare db")?;
    let args = args(alloc)?;
    let run_status = ran(alloc, ended, wrote)?;
    Ok(event(TestEventKind::SetupScriptFinished {
        stress_index: None,
        index: 0,
        total: 1,
        script_id,
        program,
        args,
        no_capture: false,
        junit_store_success_output: flags.contains('+'),
        junit_store_failure_output: flags.contains('-'),
        run_status,
    }))
}

fn args(alloc: Global) -> Result<Items<Text>, AllocError> {
    let mut args = Vec::new(alloc);
    args.push(Text::from_str(alloc, "a b")?)?;
    args.push(Text::from_str(alloc, "c")?)?;
    Ok(Items::new(args))
}

fn variables(alloc: Global) -> Result<TextMap<Text>, AllocError> {
    let mut variables = TextMap::empty(alloc);
    let url = Text::from_str(alloc, "db://")?;
    variables.insert(Text::from_str(alloc, "URL")?, url)?;
    let port = Text::from_str(alloc, "1")?;
    variables.insert(Text::from_str(alloc, "PORT")?, port)?;
    Ok(variables)
}

/// The end of the run, which began at second 7 and took 9 seconds.
pub(crate) fn run_end() -> TestEvent<'static> {
    event(TestEventKind::RunFinished {
        run_id: ReportUuid::new(Uuid::nil()),
        start_time: instant(7),
        elapsed: seconds(9),
        run_stats: RunFinishedStats::Single(RunStats::zero()),
        outstanding_not_seen: None,
    })
}
