//! Events with an output that is not loaded, which no line stands for.

use crate::texts::{ABC, failed_attempt, finished, lines};
use rec_codec::event_from_value;
use rec_events::{
    ChildExecutionOutputDescription, ChildOutputDescription, ChildSingleOutput, Duration,
    ExecuteStatus, ExecutionResultDescription, ExecutionStatuses, FlakyResult, LiveSpec,
    OutputEventKind, RetryData, Stamp, TestEventKindSummary, TestEventSummary,
};
use serde_json::Value;
use std::alloc::{AllocError, Global};
use std::mem;
use std::test::Fail;

/// A kind of event with outputs.
#[derive(Clone, Copy)]
pub(crate) enum Kind {
    Script,
    Attempt,
    /// A test with two attempts, of which the second has the output.
    Test,
}

/// The event of a line.
pub(crate) fn event_of(alloc: Global, line: &str) -> Result<TestEventSummary<LiveSpec>, Fail> {
    let value = Value::from_str(alloc, line)?;
    Ok(event_from_value(alloc, &value)?)
}

/// An event of this kind with an output that is not loaded.
pub(crate) fn unloaded(alloc: Global, kind: Kind) -> Result<TestEventSummary<LiveSpec>, Fail> {
    let line = match kind {
        Kind::Script => lines(alloc, &[ABC])?,
        Kind::Attempt => String::from_str(alloc, failed_attempt())?,
        Kind::Test => String::from_str(alloc, finished())?,
    };
    let mut event = event_of(alloc, line.as_str())?;
    if unload(alloc, &mut event.kind).is_err() {
        drop(event);
        return Err(AllocError.into());
    }
    Ok(event)
}

/// Gives an event an output that is not loaded.
fn unload(alloc: Global, kind: &mut TestEventKindSummary<LiveSpec>) -> Result<(), AllocError> {
    let TestEventKindSummary::Output(kind) = kind else {
        return Ok(());
    };
    match kind {
        OutputEventKind::SetupScriptFinished { run_status, .. } => {
            put_output(&mut run_status.output, ChildOutputDescription::NotLoaded);
        }
        OutputEventKind::TestAttemptFailedWillRetry { run_status, .. } => {
            put_output(&mut run_status.output, ChildOutputDescription::NotLoaded);
        }
        OutputEventKind::TestFinished { run_statuses, .. } => {
            drop(mem::replace(run_statuses, attempts(alloc)?));
        }
    }
    Ok(())
}

/// Replaces what a process wrote. What was there is let go of by a call, since in place each of its
/// kinds would be a case of the proof.
fn put_output(
    execution: &mut ChildExecutionOutputDescription<LiveSpec>,
    output: ChildOutputDescription,
) {
    drop(mem::replace(execution, executed(output)));
}

/// What came of a process that wrote this.
fn executed(output: ChildOutputDescription) -> ChildExecutionOutputDescription<LiveSpec> {
    ChildExecutionOutputDescription::Output {
        result: None,
        output,
        errors: None,
    }
}

/// An attempt that wrote `!`, and one whose output is not loaded.
fn attempts(alloc: Global) -> Result<ExecutionStatuses<LiveSpec>, AllocError> {
    let output = ChildSingleOutput::new([b'!'].to_vec(alloc)?);
    let mut attempts = Vec::new(alloc);
    attempts.push(attempt(ChildOutputDescription::Combined { output }))?;
    attempts.push(attempt(ChildOutputDescription::NotLoaded))?;
    Ok(ExecutionStatuses::new(attempts, FlakyResult::Pass))
}

/// An attempt with this output.
fn attempt(output: ChildOutputDescription) -> ExecuteStatus<LiveSpec> {
    ExecuteStatus {
        retry_data: RetryData {
            attempt: 1,
            total_attempts: 2,
        },
        output: executed(output),
        result: ExecutionResultDescription::Pass,
        start_time: Stamp {
            secs: 0,
            nanos: 0,
            offset: 0,
        },
        time_taken: Duration { secs: 0, nanos: 0 },
        is_slow: false,
        delay_before_start: Duration { secs: 0, nanos: 0 },
        error_summary: None,
        output_error_slice: None,
        cpu_time: None,
    }
}
