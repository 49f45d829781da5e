//! What an event tells of the test or the attempt that it is of.
ghost use Rattle.std.specs.Prelude.{◌≡◌, option_map};
ghost use Rattle.rec_view_json.specs.Told.{cancels, core_cancels, core_finishes_run, core_index};
ghost use Rattle.rec_view_json.specs.Told.{core_reason, core_retry, core_script, core_slot};
ghost use Rattle.rec_view_json.specs.Told.{core_slow, core_starts_run, core_starts_script};
ghost use Rattle.rec_view_json.specs.Told.{core_stress, finishes_run, starts_script};
ghost use Rattle.rec_view_json.specs.Told.{index_told, is_slow, output_script_status};
ghost use Rattle.rec_view_json.specs.Told.{output_status, output_stress, reason_told, retry_told};
ghost use Rattle.rec_view_json.specs.Told.{script_status_told, script_told, slot_told};
ghost use Rattle.rec_view_json.specs.Told.{starts_run, status_told, stress_told};

use rec_events::{
    CoreEventKind, ExecuteStatus, MismatchReason, OutputEventKind, OutputSpec, RetryData, ScriptId,
    SetupScriptExecuteStatus, StressIndexSummary, TestEventKindSummary,
};

fn core_slot(kind: &CoreEventKind) -> Option<u64>
    ensures { result ≡ core_slot kind.now }
{
    match kind {
        CoreEventKind::TestStarted {
            slot_assignment,
            ..
        } => Some(slot_assignment.global_slot),
        CoreEventKind::TestRetryStarted {
            slot_assignment,
            ..
        } => Some(slot_assignment.global_slot),
        _ => None,
    }
}

fn core_retry(kind: &CoreEventKind) -> Option<RetryData>
    ensures { result ≡ core_retry kind.now }
{
    match kind {
        CoreEventKind::TestRetryStarted { retry_data, .. } => Some(*retry_data),
        _ => None,
    }
}

fn core_reason(kind: &CoreEventKind) -> Option<MismatchReason>
    ensures { result ≡ core_reason kind.now }
{
    match kind {
        CoreEventKind::TestSkipped { reason, .. } => Some(*reason),
        _ => None,
    }
}

fn core_index(kind: &CoreEventKind) -> Option<usize>
    ensures { result ≡ core_index kind.now }
{
    match kind {
        CoreEventKind::SetupScriptStarted { index, .. } => Some(*index),
        _ => None,
    }
}

fn core_script(kind: &CoreEventKind) -> Option<&ScriptId>
    ensures { option_map (λ id. id.now) result ≡ core_script kind.now }
{
    match kind {
        CoreEventKind::SetupScriptStarted { script_id, .. } => Some(script_id),
        _ => None,
    }
}

fn core_stress(kind: &CoreEventKind) -> Option<StressIndexSummary>
    ensures { result ≡ core_stress kind.now }
{
    match kind {
        CoreEventKind::SetupScriptStarted { stress_index, .. } => *stress_index,
        CoreEventKind::TestStarted { stress_index, .. } => *stress_index,
        CoreEventKind::TestRetryStarted { stress_index, .. } => *stress_index,
        CoreEventKind::TestSkipped { stress_index, .. } => *stress_index,
        _ => None,
    }
}

fn core_slow(kind: &CoreEventKind) -> bool
    ensures { result ≡ core_slow kind.now }
{
    match kind {
        CoreEventKind::SetupScriptSlow { .. } => true,
        CoreEventKind::TestSlow { .. } => true,
        _ => false,
    }
}

fn core_cancels(kind: &CoreEventKind) -> bool
    ensures { result ≡ core_cancels kind.now }
{
    match kind {
        CoreEventKind::RunBeginCancel { .. } => true,
        _ => false,
    }
}

fn core_starts_run(kind: &CoreEventKind) -> bool
    ensures { result ≡ core_starts_run kind.now }
{
    match kind {
        CoreEventKind::RunStarted { .. } => true,
        _ => false,
    }
}

fn core_finishes_run(kind: &CoreEventKind) -> bool
    ensures { result ≡ core_finishes_run kind.now }
{
    match kind {
        CoreEventKind::RunFinished { .. } => true,
        _ => false,
    }
}

fn core_starts_script(kind: &CoreEventKind) -> bool
    ensures { result ≡ core_starts_script kind.now }
{
    match kind {
        CoreEventKind::SetupScriptStarted { .. } => true,
        _ => false,
    }
}

fn output_stress<S: OutputSpec>(kind: &OutputEventKind<S>) -> Option<StressIndexSummary>
    ensures { result ≡ output_stress kind.now }
{
    match kind {
        OutputEventKind::SetupScriptFinished { .. } => None,
        OutputEventKind::TestAttemptFailedWillRetry { .. } => None,
        OutputEventKind::TestFinished { stress_index, .. } => *stress_index,
    }
}

fn output_status<S: OutputSpec>(kind: &OutputEventKind<S>) -> Option<&ExecuteStatus<S>>
    ensures { option_map (λ status. status.now) result ≡ output_status kind.now }
{
    match kind {
        OutputEventKind::SetupScriptFinished { .. } => None,
        OutputEventKind::TestAttemptFailedWillRetry { run_status, .. } => Some(run_status),
        OutputEventKind::TestFinished { run_statuses, .. } => Some(run_statuses.last_status()),
    }
}

fn output_script_status<S: OutputSpec>(
    kind: &OutputEventKind<S>,
) -> Option<&SetupScriptExecuteStatus<S>>
    ensures { option_map (λ status. status.now) result ≡ output_script_status kind.now }
{
    match kind {
        OutputEventKind::SetupScriptFinished { run_status, .. } => Some(run_status),
        OutputEventKind::TestAttemptFailedWillRetry { .. } => None,
        OutputEventKind::TestFinished { .. } => None,
    }
}

/// Returns the slot of an attempt that starts.
pub(crate) fn slot_told<S: OutputSpec>(kind: &TestEventKindSummary<S>) -> Option<u64>
    ensures { result ≡ slot_told kind.now }
{
    match kind {
        TestEventKindSummary::Core(kind) => core_slot(kind),
        TestEventKindSummary::Output(_) => None,
    }
}

/// Says which attempt it is that starts.
pub(crate) fn retry_told<S: OutputSpec>(kind: &TestEventKindSummary<S>) -> Option<RetryData>
    ensures { result ≡ retry_told kind.now }
{
    match kind {
        TestEventKindSummary::Core(kind) => core_retry(kind),
        TestEventKindSummary::Output(_) => None,
    }
}

/// Says why a test is skipped.
pub(crate) fn reason_told<S: OutputSpec>(kind: &TestEventKindSummary<S>) -> Option<MismatchReason>
    ensures { result ≡ reason_told kind.now }
{
    match kind {
        TestEventKindSummary::Core(kind) => core_reason(kind),
        TestEventKindSummary::Output(_) => None,
    }
}

/// Returns how many setup scripts stand before one that starts.
pub(crate) fn index_told<S: OutputSpec>(kind: &TestEventKindSummary<S>) -> Option<usize>
    ensures { result ≡ index_told kind.now }
{
    match kind {
        TestEventKindSummary::Core(kind) => core_index(kind),
        TestEventKindSummary::Output(_) => None,
    }
}

/// Says which setup script it is that starts.
pub(crate) fn script_told<S: OutputSpec>(kind: &TestEventKindSummary<S>) -> Option<&ScriptId>
    ensures { option_map (λ id. id.now) result ≡ script_told kind.now }
{
    match kind {
        TestEventKindSummary::Core(kind) => core_script(kind),
        TestEventKindSummary::Output(_) => None,
    }
}

/// Returns the sub-run that a test or a setup script belongs to.
pub(crate) fn stress_told<S: OutputSpec>(
    kind: &TestEventKindSummary<S>,
) -> Option<StressIndexSummary>
    ensures { result ≡ stress_told kind.now }
{
    match kind {
        TestEventKindSummary::Core(kind) => core_stress(kind),
        TestEventKindSummary::Output(kind) => output_stress(kind),
    }
}

/// Returns the status of the attempt that an event ends.
pub(crate) fn status_told<S: OutputSpec>(
    kind: &TestEventKindSummary<S>,
) -> Option<&ExecuteStatus<S>>
    ensures { option_map (λ status. status.now) result ≡ status_told kind.now }
{
    match kind {
        TestEventKindSummary::Core(_) => None,
        TestEventKindSummary::Output(kind) => output_status(kind),
    }
}

/// Returns the status of the setup script that an event ends.
pub(crate) fn script_status_told<S: OutputSpec>(
    kind: &TestEventKindSummary<S>,
) -> Option<&SetupScriptExecuteStatus<S>>
    ensures { option_map (λ status. status.now) result ≡ script_status_told kind.now }
{
    match kind {
        TestEventKindSummary::Core(_) => None,
        TestEventKindSummary::Output(kind) => output_script_status(kind),
    }
}

/// Returns whether something has run for longer than it should.
pub(crate) fn is_slow<S: OutputSpec>(kind: &TestEventKindSummary<S>) -> bool
    ensures { result ≡ is_slow kind.now }
{
    match kind {
        TestEventKindSummary::Core(kind) => core_slow(kind),
        TestEventKindSummary::Output(_) => false,
    }
}

/// Returns whether the run is cancelled.
pub(crate) fn cancels<S: OutputSpec>(kind: &TestEventKindSummary<S>) -> bool
    ensures { result ≡ cancels kind.now }
{
    match kind {
        TestEventKindSummary::Core(kind) => core_cancels(kind),
        TestEventKindSummary::Output(_) => false,
    }
}

/// Returns whether the run starts.
pub(crate) fn starts_run<S: OutputSpec>(kind: &TestEventKindSummary<S>) -> bool
    ensures { result ≡ starts_run kind.now }
{
    match kind {
        TestEventKindSummary::Core(kind) => core_starts_run(kind),
        TestEventKindSummary::Output(_) => false,
    }
}

/// Returns whether the run has finished.
pub(crate) fn finishes_run<S: OutputSpec>(kind: &TestEventKindSummary<S>) -> bool
    ensures { result ≡ finishes_run kind.now }
{
    match kind {
        TestEventKindSummary::Core(kind) => core_finishes_run(kind),
        TestEventKindSummary::Output(_) => false,
    }
}

/// Returns whether a setup script starts.
pub(crate) fn starts_script<S: OutputSpec>(kind: &TestEventKindSummary<S>) -> bool
    ensures { result ≡ starts_script kind.now }
{
    match kind {
        TestEventKindSummary::Core(kind) => core_starts_script(kind),
        TestEventKindSummary::Output(_) => false,
    }
}
