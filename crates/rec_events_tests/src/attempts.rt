//! The attempts of a test, and how they are described.

use rec_events::{
    ChildExecutionOutputDescription, ChildOutputDescription, Duration, ExecuteStatus,
    ExecutionDescription, ExecutionResultDescription, ExecutionStatuses, FlakyResult, LiveSpec,
    RetryData, Stamp,
};
use std::alloc::{AllocError, Global};
use std::test::Fail;

// The attempt of this number, which passed or could not be started.
fn attempt(number: u32, passes: bool) -> ExecuteStatus<LiveSpec> {
    let no_time = Duration { secs: 0, nanos: 0 };
    let result = if passes {
        ExecutionResultDescription::Pass
    } else {
        ExecutionResultDescription::ExecFail
    };
    ExecuteStatus {
        retry_data: RetryData {
            attempt: number,
            total_attempts: 3,
        },
        output: ChildExecutionOutputDescription::Output {
            result: None,
            output: ChildOutputDescription::NotLoaded,
            errors: None,
        },
        result,
        start_time: Stamp {
            secs: 0,
            nanos: 0,
            offset: 0,
        },
        time_taken: no_time,
        is_slow: false,
        delay_before_start: no_time,
        error_summary: None,
        output_error_slice: None,
        cpu_time: None,
    }
}

// Attempts of which some pass; none where there is none.
fn attempts(
    alloc: Global,
    passes: &[bool],
) -> Result<Option<ExecutionStatuses<LiveSpec>>, AllocError> {
    let mut statuses = Vec::new(alloc);
    let mut number = 0;
    for passes in passes {
        number = u32::wrapping_add(number, 1);
        statuses.push(attempt(number, *passes))?;
    }
    if statuses.is_empty() {
        return Ok(None);
    }
    Ok(Some(ExecutionStatuses::new(statuses, FlakyResult::Fail)))
}

// How attempts are described: the kind, the first, the last, and how many others.
type Described = (&'static str, u32, u32, usize);

fn described(statuses: &ExecutionStatuses<LiveSpec>) -> Described {
    match statuses.describe() {
        ExecutionDescription::Success { single_status } => {
            ("success", 1, single_status.retry_data.attempt, 0)
        }
        ExecutionDescription::Flaky {
            last_status,
            prior_statuses,
            result: FlakyResult::Fail,
        } => (
            "flaky",
            1,
            last_status.retry_data.attempt,
            prior_statuses.len(),
        ),
        ExecutionDescription::Flaky { .. } => ("other", 0, 0, 0),
        ExecutionDescription::Failure {
            first_status,
            last_status,
            retries,
        } => (
            "failure",
            first_status.retry_data.attempt,
            last_status.retry_data.attempt,
            retries.len(),
        ),
    }
}

// Whether there are so many attempts, found by their places,
// which count as failed where they are flaky.
fn are_numbered(statuses: &ExecutionStatuses<LiveSpec>, count: usize) -> bool {
    count > 0
        && statuses.len() == count
        && statuses.status(0).retry_data.attempt == 1
        && statuses.last_status().retry_data.attempt as usize == count
        && statuses.flaky_result() == FlakyResult::Fail
}

// Whether attempts of which some pass are numbered in their order, and are described so.
fn are_described(alloc: Global, passes: &[bool], want: Described) -> Result<bool, AllocError> {
    let Some(statuses) = attempts(alloc, passes)? else {
        return Ok(false);
    };
    let fits = are_numbered(&statuses, passes.len()) && described(&statuses) == want;
    drop(statuses);
    Ok(fits)
}

#[test]
fn attempts_are_described(rt: HostRuntime) -> Result<(), Fail> {
    for (passes, want) in [
        ([true].as_slice(), ("success", 1, 1, 0)),
        (&[false], ("failure", 1, 1, 0)),
        (&[false, true], ("flaky", 1, 2, 1)),
        (&[true, true, true], ("flaky", 1, 3, 2)),
        (&[true, false], ("failure", 1, 2, 1)),
        (&[false, false, false], ("failure", 1, 3, 2)),
    ] {
        assert!(rt; are_described(rt.alloc(), passes, want)?, "{passes:?}");
    }
    Ok(())
}
