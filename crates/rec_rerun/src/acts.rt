//! What an event is for a rerun.
ghost use Rattle.std.specs.Prelude.{◌≡◌};
ghost use Rattle.rec_rerun.specs.Acts.{act_of, core_act, output_act, pass};
ghost use Rattle.rec_rerun.specs.Seen.{seen};

use rec_events::{
    CoreEventKind, ExecutionStatuses, FlakyResult, OutputEventKind, OutputSpec,
    OwnedTestInstanceId, TestEventKindSummary,
};

/// Says what an event is for a rerun: an attempt of a test starts, or a test ends, and has passed
/// or not.
#[derive(Clone, Copy)]
pub(crate) enum Act<'e> {
    Starts {
        test: &'e OwnedTestInstanceId,
    },
    Ends {
        test: &'e OwnedTestInstanceId,
        passed: bool,
    },
    Silent,
}

/// Says whether a test of these attempts has passed: its last attempt succeeded, and where it isn't
/// the only one, the test counts as passed though it is flaky.
fn pass<S: OutputSpec>(statuses: &ExecutionStatuses<S>) -> bool
    ensures { result ≡ pass statuses.now }
{
    statuses.last_status().result.is_success()
        && (statuses.len() == 1 || statuses.flaky_result() == FlakyResult::Pass)
}

/// Says what an event without outputs is.
fn core_act(kind: &CoreEventKind) -> Act<'_>
    ensures { seen result ≡ core_act kind.now }
{
    match kind {
        CoreEventKind::RunStarted { .. } => Act::Silent,
        CoreEventKind::StressSubRunStarted { .. } => Act::Silent,
        CoreEventKind::SetupScriptStarted { .. } => Act::Silent,
        CoreEventKind::SetupScriptSlow { .. } => Act::Silent,
        CoreEventKind::TestStarted { test_instance, .. } => Act::Starts {
            test: test_instance,
        },
        CoreEventKind::TestSlow { .. } => Act::Silent,
        CoreEventKind::TestRetryStarted { test_instance, .. } => Act::Starts {
            test: test_instance,
        },
        CoreEventKind::TestSkipped { .. } => Act::Silent,
        CoreEventKind::RunBeginCancel { .. } => Act::Silent,
        CoreEventKind::RunPaused { .. } => Act::Silent,
        CoreEventKind::RunContinued { .. } => Act::Silent,
        CoreEventKind::StressSubRunFinished { .. } => Act::Silent,
        CoreEventKind::RunFinished { .. } => Act::Silent,
    }
}

/// Says what an event with outputs is.
fn output_act<S: OutputSpec>(kind: &OutputEventKind<S>) -> Act<'_>
    ensures { seen result ≡ output_act kind.now }
{
    match kind {
        OutputEventKind::SetupScriptFinished { .. } => Act::Silent,
        OutputEventKind::TestAttemptFailedWillRetry { .. } => Act::Silent,
        OutputEventKind::TestFinished {
            test_instance,
            run_statuses,
            ..
        } => Act::Ends {
            test: test_instance,
            passed: pass(run_statuses),
        },
    }
}

/// Says what an event is.
pub(crate) fn act_of<S: OutputSpec>(kind: &TestEventKindSummary<S>) -> Act<'_>
    ensures { seen result ≡ act_of kind.now }
{
    match kind {
        TestEventKindSummary::Core(kind) => core_act(kind),
        TestEventKindSummary::Output(kind) => output_act(kind),
    }
}
