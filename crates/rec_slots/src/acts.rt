//! What each kind of event is for the slots of a run.
ghost use Rattle.std.specs.Prelude.{◌≡◌};
ghost use Rattle.rec_spans.specs.Acts.{act_of, core_act, output_act};
ghost use Rattle.rec_spans.specs.Plain.{plain_kind, plain_output_kind};
ghost use Rattle.rec_slots.specs.Acts.{slot_act};
ghost use Rattle.rec_slots.specs.Seen.{seen};

use rec_events::{
    CoreEventKind, OutputEventKind, OutputSpec, OwnedTestInstanceId, TestEventKindSummary,
};

/// Says what an event is: the run starts or ends, an attempt starts on a slot, the open attempt of
/// a test ends, or none of these.
#[derive(Clone, Copy)]
pub(crate) enum Act<'e> {
    RunStarts,
    RunEnds,
    Starts { slot: u64 },
    Ends { test: &'e OwnedTestInstanceId },
    Silent,
}

/// Says what an event without outputs is.
fn core_act(kind: &CoreEventKind) -> Act<'_>
    ensures { seen result ≡ slot_act (core_act kind.now) }
{
    match kind {
        CoreEventKind::RunStarted { .. } => Act::RunStarts,
        CoreEventKind::StressSubRunStarted { .. } => Act::Silent,
        CoreEventKind::SetupScriptStarted { .. } => Act::Silent,
        CoreEventKind::SetupScriptSlow { .. } => Act::Silent,
        CoreEventKind::TestStarted {
            slot_assignment,
            ..
        } => Act::Starts {
            slot: slot_assignment.global_slot,
        },
        CoreEventKind::TestSlow { .. } => Act::Silent,
        CoreEventKind::TestRetryStarted {
            slot_assignment,
            ..
        } => Act::Starts {
            slot: slot_assignment.global_slot,
        },
        CoreEventKind::TestSkipped { .. } => Act::Silent,
        CoreEventKind::RunBeginCancel { .. } => Act::Silent,
        CoreEventKind::RunPaused { .. } => Act::Silent,
        CoreEventKind::RunContinued { .. } => Act::Silent,
        CoreEventKind::StressSubRunFinished { .. } => Act::Silent,
        CoreEventKind::RunFinished { .. } => Act::RunEnds,
    }
}

/// Says what an event with outputs is.
fn output_act<S: OutputSpec>(kind: &OutputEventKind<S>) -> Act<'_>
    ensures { seen result ≡ slot_act (output_act (plain_output_kind kind.now)) }
{
    match kind {
        OutputEventKind::SetupScriptFinished { .. } => Act::Silent,
        OutputEventKind::TestAttemptFailedWillRetry { test_instance, .. } => Act::Ends {
            test: test_instance,
        },
        OutputEventKind::TestFinished { test_instance, .. } => Act::Ends {
            test: test_instance,
        },
    }
}

/// Says what an event is.
pub(crate) fn act_of<S: OutputSpec>(kind: &TestEventKindSummary<S>) -> Act<'_>
    ensures { seen result ≡ slot_act (act_of (plain_kind kind.now)) }
{
    match kind {
        TestEventKindSummary::Core(kind) => core_act(kind),
        TestEventKindSummary::Output(kind) => output_act(kind),
    }
}
