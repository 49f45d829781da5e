//! How many tests the ends of runs count as not seen, and don't name.
ghost use Rattle.std.specs.Prelude.{◌≡◌};
ghost use Rattle.rec_view.specs.Unnamed.{core_unnamed, kind_unnamed, unnamed, unnamed_in};

use rec_events::{
    CoreEventKind, OutputSpec, TestEventKindSummary, TestEventSummary, TestsNotSeenSummary,
};

/// Counts the tests that a summary counts, and doesn't name.
fn unnamed_in(summary: &Option<TestsNotSeenSummary>) -> usize
    ensures { result ≡ unnamed_in summary.now }
{
    match summary {
        Some(summary) => summary
            .total_not_seen
            .saturating_sub(summary.not_seen.as_slice().len()),
        None => 0,
    }
}

/// Counts those of an event without outputs.
fn core_unnamed(kind: &CoreEventKind) -> usize
    ensures { result ≡ core_unnamed kind.now }
{
    match kind {
        CoreEventKind::RunStarted { .. } => 0,
        CoreEventKind::StressSubRunStarted { .. } => 0,
        CoreEventKind::SetupScriptStarted { .. } => 0,
        CoreEventKind::SetupScriptSlow { .. } => 0,
        CoreEventKind::TestStarted { .. } => 0,
        CoreEventKind::TestSlow { .. } => 0,
        CoreEventKind::TestRetryStarted { .. } => 0,
        CoreEventKind::TestSkipped { .. } => 0,
        CoreEventKind::RunBeginCancel { .. } => 0,
        CoreEventKind::RunPaused { .. } => 0,
        CoreEventKind::RunContinued { .. } => 0,
        CoreEventKind::StressSubRunFinished { .. } => 0,
        CoreEventKind::RunFinished {
            outstanding_not_seen,
            ..
        } => unnamed_in(outstanding_not_seen),
    }
}

/// Counts those of an event.
fn kind_unnamed<S: OutputSpec>(kind: &TestEventKindSummary<S>) -> usize
    ensures { result ≡ kind_unnamed kind.now }
{
    match kind {
        TestEventKindSummary::Core(kind) => core_unnamed(kind),
        TestEventKindSummary::Output(_) => 0,
    }
}

/// Counts those of all events.
pub(crate) fn unnamed_of<S: OutputSpec>(events: &[TestEventSummary<S>]) -> u128
    ensures { result ≡ unnamed events.now }
{
    let mut count: u128 = 0;
    for event in events {
        let more = kind_unnamed(&event.kind);
        count += more as u128;
    }
    count
}
