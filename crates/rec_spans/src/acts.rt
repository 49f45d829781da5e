//! What each kind of event is for the spans of a trace.
ghost use Rattle.std.specs.Prelude.{◌≡◌};
ghost use Rattle.rec_spans.specs.Acts.{act_of, core_act, output_act};
ghost use Rattle.rec_spans.specs.Plain.{plain_kind, plain_output_kind};
ghost use Rattle.rec_spans.specs.Seen.{seen};

use rec_events::{
    CoreEventKind, OutputEventKind, OutputSpec, OwnedTestInstanceId, RunStats, ScriptId,
    TestEventKindSummary,
};

/// Says what an event is for the spans of a trace: what starts, ends or is slow, or how many setup
/// scripts run. Its kinds hold:
///
/// - `index` and `id` are those of the setup script, and `test` is the test.
/// - `slot` is the number of the slot on which the attempt runs.
/// - `scripts` is how many setup scripts run after the event.
#[derive(Clone, Copy)]
pub enum Act<'e> {
    /// The run starts.
    RunStarts,
    /// The run ends.
    RunEnds,
    /// One of a stress run's runs starts.
    SubRunStarts,
    /// One of a stress run's runs ends.
    SubRunEnds,
    /// A setup script starts.
    ScriptStarts {
        index: usize,
        id: &'e ScriptId,
    },
    /// A setup script ends.
    ScriptEnds {
        index: usize,
        id: &'e ScriptId,
    },
    /// A setup script is slow.
    ScriptIsSlow {
        id: &'e ScriptId,
    },
    /// An attempt of a test starts.
    AttemptStarts {
        test: &'e OwnedTestInstanceId,
        slot: u64,
    },
    /// An attempt of a test failed, and another one follows.
    AttemptFails {
        test: &'e OwnedTestInstanceId,
    },
    /// The last attempt of a test ends. `current_stats` are the counts of the run, or of the
    /// sub-run, then.
    TestEnds {
        test: &'e OwnedTestInstanceId,
        current_stats: &'e RunStats,
    },
    /// An attempt of a test is slow.
    TestIsSlow {
        test: &'e OwnedTestInstanceId,
    },
    /// The run pauses.
    Pauses {
        scripts: usize,
    },
    /// The run goes on.
    Continues {
        scripts: usize,
    },
    /// The run is cancelled.
    Cancels {
        scripts: usize,
    },
    /// It is nothing for the spans.
    Silent,
}

/// Says what an event without outputs is.
fn core_act(kind: &CoreEventKind) -> Act<'_>
    ensures { seen result ≡ core_act kind.now }
{
    match kind {
        CoreEventKind::RunStarted { .. } => Act::RunStarts,
        CoreEventKind::StressSubRunStarted { .. } => Act::SubRunStarts,
        CoreEventKind::SetupScriptStarted {
            index,
            script_id,
            ..
        } => Act::ScriptStarts {
            index: *index,
            id: script_id,
        },
        CoreEventKind::SetupScriptSlow { script_id, .. } => Act::ScriptIsSlow { id: script_id },
        CoreEventKind::TestStarted {
            test_instance,
            slot_assignment,
            ..
        } => Act::AttemptStarts {
            test: test_instance,
            slot: slot_assignment.global_slot,
        },
        CoreEventKind::TestSlow { test_instance, .. } => Act::TestIsSlow {
            test: test_instance,
        },
        CoreEventKind::TestRetryStarted {
            test_instance,
            slot_assignment,
            ..
        } => Act::AttemptStarts {
            test: test_instance,
            slot: slot_assignment.global_slot,
        },
        CoreEventKind::TestSkipped { .. } => Act::Silent,
        CoreEventKind::RunBeginCancel {
            setup_scripts_running,
            ..
        } => Act::Cancels {
            scripts: *setup_scripts_running,
        },
        CoreEventKind::RunPaused {
            setup_scripts_running,
            ..
        } => Act::Pauses {
            scripts: *setup_scripts_running,
        },
        CoreEventKind::RunContinued {
            setup_scripts_running,
            ..
        } => Act::Continues {
            scripts: *setup_scripts_running,
        },
        CoreEventKind::StressSubRunFinished { .. } => Act::SubRunEnds,
        CoreEventKind::RunFinished { .. } => Act::RunEnds,
    }
}

/// Says what an event with outputs is.
fn output_act<S: OutputSpec>(kind: &OutputEventKind<S>) -> Act<'_>
    ensures { seen result ≡ output_act (plain_output_kind kind.now) }
{
    match kind {
        OutputEventKind::SetupScriptFinished {
            index,
            script_id,
            ..
        } => Act::ScriptEnds {
            index: *index,
            id: script_id,
        },
        OutputEventKind::TestAttemptFailedWillRetry { test_instance, .. } => Act::AttemptFails {
            test: test_instance,
        },
        OutputEventKind::TestFinished {
            test_instance,
            current_stats,
            ..
        } => Act::TestEnds {
            test: test_instance,
            current_stats,
        },
    }
}

/// Says what an event is.
pub fn act_of<S: OutputSpec>(kind: &TestEventKindSummary<S>) -> Act<'_>
    ensures { seen result ≡ act_of (plain_kind kind.now) }
{
    match kind {
        TestEventKindSummary::Core(kind) => core_act(kind),
        TestEventKindSummary::Output(kind) => output_act(kind),
    }
}
