//! What an event is for a view.
ghost use Rattle.std.specs.Prelude.{◌≡◌};
ghost use Rattle.rec_view.specs.Acts.{act_of, core_act, not_seen_in, output_act};
ghost use Rattle.rec_view.specs.Seen.{seen};

use crate::verdicts::{Verdict, verdict_of_end};
use rec_events::{
    CoreEventKind, OutputEventKind, OutputSpec, OwnedTestInstanceId, TestEventKindSummary,
    TestsNotSeenSummary,
};

/// Says what an event is for a view.
#[derive(Clone, Copy)]
pub(crate) enum Act<'e> {
    Starts {
        test: &'e OwnedTestInstanceId,
    },
    Retries {
        test: &'e OwnedTestInstanceId,
    },
    Fails {
        test: &'e OwnedTestInstanceId,
    },
    Ends {
        test: &'e OwnedTestInstanceId,
        verdict: Verdict,
    },
    Skips {
        test: &'e OwnedTestInstanceId,
    },
    RunEnds {
        not_seen: &'e [OwnedTestInstanceId],
    },
    Silent,
}

/// Lists the tests that a run's end names as not seen.
fn not_seen_in(summary: &Option<TestsNotSeenSummary>) -> &[OwnedTestInstanceId]
    ensures { result.now ≡ not_seen_in summary.now }
{
    match summary {
        Some(summary) => summary.not_seen.as_slice(),
        None => &[],
    }
}

/// Says what an event without outputs is.
fn core_act(kind: &CoreEventKind) -> Act<'_>
    ensures { seen result ≡ core_act kind.now }
{
    match kind {
        CoreEventKind::RunStarted { .. } => Act::Silent,
        CoreEventKind::StressSubRunStarted { .. } => Act::Silent,
        CoreEventKind::SetupScriptStarted { .. } => Act::Silent,
        CoreEventKind::SetupScriptSlow { .. } => Act::Silent,
        CoreEventKind::TestStarted { test_instance, .. } => Act::Starts {
            test: test_instance,
        },
        CoreEventKind::TestSlow { .. } => Act::Silent,
        CoreEventKind::TestRetryStarted { test_instance, .. } => Act::Retries {
            test: test_instance,
        },
        CoreEventKind::TestSkipped { test_instance, .. } => Act::Skips {
            test: test_instance,
        },
        CoreEventKind::RunBeginCancel { .. } => Act::Silent,
        CoreEventKind::RunPaused { .. } => Act::Silent,
        CoreEventKind::RunContinued { .. } => Act::Silent,
        CoreEventKind::StressSubRunFinished { .. } => Act::Silent,
        CoreEventKind::RunFinished {
            outstanding_not_seen,
            ..
        } => Act::RunEnds {
            not_seen: not_seen_in(outstanding_not_seen),
        },
    }
}

/// Says what an event with outputs is.
fn output_act<S: OutputSpec>(kind: &OutputEventKind<S>) -> Act<'_>
    ensures { seen result ≡ output_act kind.now }
{
    match kind {
        OutputEventKind::SetupScriptFinished { .. } => Act::Silent,
        OutputEventKind::TestAttemptFailedWillRetry { test_instance, .. } => Act::Fails {
            test: test_instance,
        },
        OutputEventKind::TestFinished {
            test_instance,
            run_statuses,
            ..
        } => Act::Ends {
            test: test_instance,
            verdict: verdict_of_end(run_statuses),
        },
    }
}

/// Says what an event is.
pub(crate) fn act_of<S: OutputSpec>(kind: &TestEventKindSummary<S>) -> Act<'_>
    ensures { seen result ≡ act_of kind.now }
{
    match kind {
        TestEventKindSummary::Core(kind) => core_act(kind),
        TestEventKindSummary::Output(kind) => output_act(kind),
    }
}
