//! What the slots of a run see of each event.
ghost use Rattle.std.specs.Prelude.{◌≡◌, ℕ, List, Some, slice_get};
ghost use Rattle.rec_events.specs.Times.{Moment};
ghost use Rattle.rec_spans.specs.declared.spans.SpanKey.TheVariants as keys;
ghost use Rattle.rec_spans.specs.Past.{of_key};
ghost use Rattle.rec_spans.specs.Plain.{PlainEvent, plain};
ghost use Rattle.rec_slots.specs.Beats.{HasTracked, IsNear, Tracks, change_in, slot_among};
ghost use Rattle.rec_slots.specs.Runs.{nanoseconds};
ghost use Rattle.rec_slots.specs.Seen.{seen};

use crate::acts::{Act, act_of};
use rec_events::{OwnedTestInstanceId, RecordingSpec, Stamp, TestEventSummary};
use rec_spans::{ChromeTraceError, ChromeTraceGroupBy, OpenSpans, Place, SpanTracker};
use std::alloc::Global;

/// Says what an event changes: the run starts or ends, an attempt starts or ends on a slot, or none
/// of these.
#[derive(Clone, Copy)]
pub(crate) enum Change {
    RunStarts,
    RunEnds,
    Starts(u64),
    Ends(u64),
    Nothing,
}

/// Holds what the slots see of an event: its number, counted from 1, its instant in nanoseconds
/// since the beginning of 1970, whether the run was in a pause before it, and what it changes.
#[derive(Clone, Copy)]
pub(crate) struct Beat {
    pub(crate) number: u64,
    pub(crate) at: i128,
    pub(crate) in_pause: bool,
    pub(crate) change: Change,
}

/// Returns an instant in nanoseconds since the beginning of 1970.
fn nanoseconds(stamp: &Stamp) -> i128
    ensures value { result ≡ nanoseconds stamp.now }
    ensures near { IsNear result }
{
    stamp.secs as i128 * 1_000_000_000 + stamp.nanos as i128
}

/// Returns the slot of the open attempt of a test, where there is one.
fn slot_of(spans: &OpenSpans, test: &OwnedTestInstanceId) -> Option<u64>
    ensures { result ≡ slot_among (of_key (keys.Test test.now) spans.now) }
{
    match spans.test(test)?.place {
        Place::Slot(slot) => Some(slot),
        _ => None,
    }
}

/// Says what an event changes, after which these spans are open.
fn change_of(spans: &OpenSpans, act: Act<'_>) -> Change
    ensures { result ≡ change_in spans.now (seen act.entry) }
{
    match act {
        Act::RunStarts => Change::RunStarts,
        Act::RunEnds => Change::RunEnds,
        Act::Starts { slot } => Change::Starts(slot),
        Act::Ends { test } => match slot_of(spans, test) {
            Some(slot) => Change::Ends(slot),
            None => Change::Nothing,
        },
        Act::Silent => Change::Nothing,
    }
}

/// Judges the next event and takes it into the tracker. Says what the slots see of it.
///
/// # Errors
///
/// Answers why the event is refused, or `OutOfMemory`.
pub(crate) fn next_beat(
    alloc: Global,
    tracker: &mut SpanTracker,
    event: &TestEventSummary<RecordingSpec>,
) -> Result<Beat, ChromeTraceError>
    ensures { (events : List PlainEvent) (n : ℕ)
        → slice_get events n ≡ Some (plain event.now)
        → HasTracked events n tracker.old
        → Tracks events n tracker.new result }
{
    let judged = tracker.judge_event(alloc, ChromeTraceGroupBy::Slot, event)?;
    let beat = Beat {
        number: judged.number,
        at: nanoseconds(&event.timestamp),
        in_pause: tracker.in_pause(),
        change: change_of(tracker.open_spans(), act_of(&event.kind)),
    };
    tracker.commit(alloc, ChromeTraceGroupBy::Slot, event, judged)?;
    Ok(beat)
}
