//! What an event is recorded as, from its kind.
ghost use Rattle.std.specs.Prelude.{◌≡◌, IfOk};
ghost use Rattle.rec_events.specs.LiveEvents.{kind_summary, event_summary};

use crate::core_kinds::summarize_core;
use crate::output_kinds::summarize_output;
use rec_events::{LiveSpec, TestEvent, TestEventKind, TestEventKindSummary, TestEventSummary};
use std::alloc::{AllocError, Global};

/// Gives the event as it is to be recorded; `None` exactly for what only informs.
///
/// A cancel without a reason is recorded with the reason `Signal`.
///
/// # Errors
///
/// `AllocError` means that there was not enough memory.
pub fn from_test_event(
    alloc: Global,
    event: &TestEvent<'_>,
) -> Result<Option<TestEventSummary<LiveSpec>>, AllocError>
    ensures { IfOk result (λ summary. summary ≡ event_summary event.now) }
{
    let Some(kind) = summarize(alloc, &event.kind)? else {
        return Ok(None);
    };
    Ok(Some(TestEventSummary {
        timestamp: event.timestamp,
        elapsed: event.elapsed,
        kind,
    }))
}

/// Gives what happened, as it is to be recorded.
fn summarize(
    alloc: Global,
    kind: &TestEventKind<'_>,
) -> Result<Option<TestEventKindSummary<LiveSpec>>, AllocError>
    ensures { IfOk result (λ summary. summary ≡ kind_summary kind.now) }
{
    if let Some(kind) = summarize_core(alloc, kind)? {
        return Ok(Some(TestEventKindSummary::Core(kind)));
    }
    if let Some(kind) = summarize_output(alloc, kind)? {
        return Ok(Some(TestEventKindSummary::Output(kind)));
    }
    Ok(None)
}
