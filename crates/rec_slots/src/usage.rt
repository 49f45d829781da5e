//! How the slots of a run were used.
ghost use Rattle.std.specs.Prelude.{map};
ghost use Rattle.rec_spans.specs.Plain.{plain};
ghost use Rattle.rec_slots.specs.Refusals.{Reports};

use crate::report::{SlotError, SlotReport};
use crate::walk::Walk;
use rec_events::{RecordingSpec, TestEventSummary};
use std::alloc::Global;

/// Reports how the slots of the run in these events were used. Each gap between two neighbouring
/// events of the run counts for a slot as paused where the run is in a pause after the first of
/// them, else as busy where an attempt is open on the slot there, else as idle.
/// The events are walked once.
///
/// # Errors
///
/// The first cause that holds is answered:
///
/// - `Refused`: a trace of the events would be refused, as its first refused event says.
/// - `NotOneRun`: there isn't one start of a run and one end after it.
/// - `AttemptOutside`: an attempt doesn't start after the run's start and end before its end. The
///   event is the first start of such an attempt.
/// - `StampFell`: an instant is below that of the event before. The event is the first such after
///   the run's start, up to its end.
///
/// `OutOfMemory` may come at any time.
pub fn slot_usage(
    alloc: Global,
    events: &[TestEventSummary<RecordingSpec>],
) -> Result<SlotReport, SlotError>
    ensures reports { Reports (map plain events.now) result }
{
    let mut walk = Walk::new(alloc);
    for event in events {
        walk.take(alloc, event)?;
    }
    walk.report(alloc)
}
