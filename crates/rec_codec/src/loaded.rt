//! Whether the outputs of an event are there.
ghost use Rattle.std.specs.Prelude.{◌≡◌};
ghost use Rattle.rec_codec.specs.EventForms.{kind_loaded};
ghost use Rattle.rec_codec.specs.Live.{is_loaded};
ghost use Rattle.rec_codec.specs.OutputKinds.{output_loaded};
ghost use Rattle.rec_codec.specs.Status.{description_loaded, status_loaded};
ghost use Rattle.rec_codec.specs.Writes.{every};

use rec_events::{
    ChildExecutionOutputDescription, ChildOutputDescription, ExecuteStatus, LiveSpec,
    OutputEventKind, TestEventKindSummary, TestEventSummary,
};

/// Returns whether an output is there.
fn has_output(output: &ChildOutputDescription) -> bool
    ensures { result ≡ is_loaded output.now }
{
    match output {
        ChildOutputDescription::Split { .. } | ChildOutputDescription::Combined { .. } => true,
        ChildOutputDescription::NotLoaded => false,
    }
}

/// The same of a process, which has no output where it was not started.
fn execution_has_output(output: &ChildExecutionOutputDescription<LiveSpec>) -> bool
    ensures { result ≡ description_loaded is_loaded output.now }
{
    match output {
        ChildExecutionOutputDescription::Output { output, .. } => has_output(output),
        ChildExecutionOutputDescription::StartError { .. } => true,
    }
}

/// The same of an attempt.
fn attempt_has_output(attempt: &ExecuteStatus<LiveSpec>) -> bool
    ensures { result ≡ status_loaded is_loaded attempt.now }
{
    execution_has_output(&attempt.output)
}

/// The same of all attempts of a test.
fn all_have_output(attempts: &[ExecuteStatus<LiveSpec>]) -> bool
    ensures { result ≡ every (status_loaded is_loaded) attempts.now }
{
    for attempt in attempts {
        if !attempt_has_output(attempt) {
            return false;
        }
    }
    true
}

/// The same of a kind of event.
fn kind_has_outputs(kind: &OutputEventKind<LiveSpec>) -> bool
    ensures { result ≡ output_loaded is_loaded kind.now }
{
    match kind {
        OutputEventKind::SetupScriptFinished { run_status, .. } => {
            execution_has_output(&run_status.output)
        }
        OutputEventKind::TestAttemptFailedWillRetry { run_status, .. } => {
            attempt_has_output(run_status)
        }
        OutputEventKind::TestFinished { run_statuses, .. } => {
            all_have_output(run_statuses.statuses.as_slice())
        }
    }
}

/// Returns whether each output of the event was loaded, so that the event can be written.
pub fn has_all_outputs(event: &TestEventSummary<LiveSpec>) -> bool
    ensures { result ≡ kind_loaded is_loaded event.now.kind }
{
    match &event.kind {
        TestEventKindSummary::Core(_) => true,
        TestEventKindSummary::Output(kind) => kind_has_outputs(kind),
    }
}
