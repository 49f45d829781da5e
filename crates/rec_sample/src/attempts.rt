//! The attempt of a test.
ghost use Rattle.std.specs.Prelude.{◌≡◌, ◌≤◌, ◌∷◌, [], IfOk};
ghost use Rattle.rec_events.specs.declared.results.FlakyResult.TheVariants as flaky;
ghost use Rattle.rec_sample.specs.Kinds.{attempt, test_output, test_result};

use crate::instants::{seconds, test_start};
use crate::names::test_stdout;
use rec_events::{
    ChildExecutionOutputDescription, ChildOutputDescription, ExecuteStatus,
    ExecutionResultDescription, ExecutionStatuses, FailureDescription, FlakyResult, LiveSpec,
    RetryData,
};
use std::alloc::{AllocError, Global};

/// Returns how a test ends: every hundredth fails.
fn test_result(i: u64) -> ExecutionResultDescription
    ensures { result ≡ test_result i }
{
    if i % 100 == 99 {
        ExecutionResultDescription::Fail {
            failure: FailureDescription::ExitCode { code: 1 },
            leaked: false,
        }
    } else {
        ExecutionResultDescription::Pass
    }
}

/// Makes what came of a test's process.
fn test_output(
    alloc: Global,
    i: u64,
) -> Result<ChildExecutionOutputDescription<LiveSpec>, AllocError>
    ensures { IfOk result (λ output. output ≡ test_output i) }
{
    let stdout = test_stdout(alloc, i)?;
    Ok(ChildExecutionOutputDescription::Output {
        result: None,
        output: ChildOutputDescription::Split {
            stdout: Some(stdout),
            stderr: None,
        },
        errors: None,
    })
}

/// Makes the attempt of a test.
fn attempt(alloc: Global, i: u64) -> Result<ExecuteStatus<LiveSpec>, AllocError>
    requires { i ≤ 10000 }
    ensures { IfOk result (λ a. a ≡ attempt i) }
{
    let output = test_output(alloc, i)?;
    Ok(ExecuteStatus {
        retry_data: RetryData {
            attempt: 1,
            total_attempts: 1,
        },
        output,
        result: test_result(i),
        start_time: test_start(i),
        time_taken: seconds(3),
        is_slow: false,
        delay_before_start: seconds(0),
        error_summary: None,
        output_error_slice: None,
        cpu_time: None,
    })
}

/// Makes the list of the attempts of a test, which is one.
pub(crate) fn attempts(alloc: Global, i: u64) -> Result<ExecutionStatuses<LiveSpec>, AllocError>
    requires { i ≤ 10000 }
    ensures { IfOk result
        (λ a. a ≡ record { statuses = attempt i ∷ []; flaky_result = flaky.Pass }) }
{
    let mut statuses = Vec::new(alloc);
    statuses.push(attempt(alloc, i)?)?;
    Ok(ExecutionStatuses::new(statuses, FlakyResult::Pass))
}
