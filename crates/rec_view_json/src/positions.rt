//! What the event at a position tells, as numbers of events before it.
ghost use Rattle.std.specs.Prelude.{◌≡◌, ◌-◌, length, option_and_then, option_map, slice_get};
ghost use Rattle.rec_view_json.specs.Told.{index_told, instant_at, moment_at, reason_told};
ghost use Rattle.rec_view_json.specs.Told.{retry_told, script_status_told, script_told};
ghost use Rattle.rec_view_json.specs.Told.{slot_told, status_told, stress_told, told_at};

use crate::told;
use rec_events::{
    ExecuteStatus, MismatchReason, OutputSpec, RetryData, ScriptId, SetupScriptExecuteStatus,
    Stamp, StressIndexSummary, TestEventSummary,
};

/// Returns the event at a position.
fn event_at<S: OutputSpec>(
    events: &[TestEventSummary<S>],
    at: usize,
) -> Option<&TestEventSummary<S>>
    ensures { option_map (λ event. event.now) result ≡ slice_get events.now at }
{
    events.get(at)
}

/// Returns when the event at a position was.
pub(crate) fn instant_at<S: OutputSpec>(events: &[TestEventSummary<S>], at: usize) -> Option<Stamp>
    ensures { result ≡ instant_at events.now at }
{
    Some(event_at(events, at)?.timestamp)
}

/// Returns when the last event was.
pub(crate) fn last_instant<S: OutputSpec>(events: &[TestEventSummary<S>]) -> Option<Stamp>
    ensures { result ≡ instant_at events.now (length events.now - 1) }
{
    instant_at(events, events.len().saturating_sub(1))
}

/// Returns when the event at a position was; past the last event that of the last.
pub(crate) fn moment_at<S: OutputSpec>(events: &[TestEventSummary<S>], at: usize) -> Option<Stamp>
    ensures { result ≡ moment_at events.now at }
{
    instant_at(events, at).or(last_instant(events))
}

/// Returns when the event was at which something ends, if it ends.
pub(crate) fn end_at<S: OutputSpec>(
    events: &[TestEventSummary<S>],
    to: Option<u64>,
) -> Option<Stamp>
    ensures { result ≡ option_and_then (instant_at events.now) to }
{
    instant_at(events, to? as usize)
}

/// Returns the slot of the attempt that starts at a position.
pub(crate) fn slot_at<S: OutputSpec>(events: &[TestEventSummary<S>], at: usize) -> Option<u64>
    ensures { result ≡ told_at slot_told events.now at }
{
    told::slot_told(&event_at(events, at)?.kind)
}

/// Says which attempt it is that starts at a position.
pub(crate) fn retry_at<S: OutputSpec>(
    events: &[TestEventSummary<S>],
    at: usize,
) -> Option<RetryData>
    ensures { result ≡ told_at retry_told events.now at }
{
    told::retry_told(&event_at(events, at)?.kind)
}

/// Says why the test is skipped that a position is of.
pub(crate) fn reason_at<S: OutputSpec>(
    events: &[TestEventSummary<S>],
    at: usize,
) -> Option<MismatchReason>
    ensures { result ≡ told_at reason_told events.now at }
{
    told::reason_told(&event_at(events, at)?.kind)
}

/// Returns the sub-run of the test or the setup script that a position is of.
pub(crate) fn stress_at<S: OutputSpec>(
    events: &[TestEventSummary<S>],
    at: usize,
) -> Option<StressIndexSummary>
    ensures { result ≡ told_at stress_told events.now at }
{
    told::stress_told(&event_at(events, at)?.kind)
}

/// Returns how many setup scripts stand before the one that starts at a position.
pub(crate) fn index_at<S: OutputSpec>(events: &[TestEventSummary<S>], at: usize) -> Option<usize>
    ensures { result ≡ told_at index_told events.now at }
{
    told::index_told(&event_at(events, at)?.kind)
}

/// Says which setup script it is that starts at a position.
pub(crate) fn script_at<S: OutputSpec>(
    events: &[TestEventSummary<S>],
    at: usize,
) -> Option<&ScriptId>
    ensures { option_map (λ id. id.now) result ≡ told_at script_told events.now at }
{
    told::script_told(&event_at(events, at)?.kind)
}

fn status_told_at<S: OutputSpec>(
    events: &[TestEventSummary<S>],
    at: usize,
) -> Option<&ExecuteStatus<S>>
    ensures { option_map (λ status. status.now) result ≡ told_at status_told events.now at }
{
    told::status_told(&event_at(events, at)?.kind)
}

/// Returns the status with which an attempt ended, if it ended.
pub(crate) fn status_at<S: OutputSpec>(
    events: &[TestEventSummary<S>],
    to: Option<u64>,
) -> Option<&ExecuteStatus<S>>
    ensures { option_map (λ status. status.now) result
        ≡ option_and_then (told_at status_told events.now) to }
{
    status_told_at(events, to? as usize)
}

fn script_status_told_at<S: OutputSpec>(
    events: &[TestEventSummary<S>],
    at: usize,
) -> Option<&SetupScriptExecuteStatus<S>>
    ensures { option_map (λ status. status.now) result
        ≡ told_at script_status_told events.now at }
{
    told::script_status_told(&event_at(events, at)?.kind)
}

/// Returns the status with which a setup script ended, if it ended.
pub(crate) fn script_status_at<S: OutputSpec>(
    events: &[TestEventSummary<S>],
    to: Option<u64>,
) -> Option<&SetupScriptExecuteStatus<S>>
    ensures { option_map (λ status. status.now) result
        ≡ option_and_then (told_at script_status_told events.now) to }
{
    script_status_told_at(events, to? as usize)
}
