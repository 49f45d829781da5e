//! The events of a log, and what takes them as they are read.
ghost use Rattle.std.specs.Prelude.{◌≡◌, ◌++◌, [], ◌∷◌, List, OnOk};
ghost use Rattle.rec_container.specs.Container.{Entry, IsContainer};
ghost use Rattle.rec_codec.specs.Event.{RecordedEvent};
ghost use Rattle.rec_reading.specs.LogEvents.{ReadsEvents, TakesLines, events_of, run_events};

use rec_codec::LineIter;
use rec_errors::ReadingError;
use rec_events::{RecordingSpec, TestEventSummary};
use rec_portable::PortableRecording;
use std::alloc::{AllocError, Global};

/// Takes the events of a log, one after the other.
pub(crate) trait EventTaker {
    /// Says that the first becomes the second by these events.
    ghost takes: { Self → List RecordedEvent → Self → Type 0 };

    /// Takes the next event.
    ///
    /// # Errors
    ///
    /// `AllocError` means that there was not enough memory.
    fn take_event(
        &mut self,
        alloc: Global,
        event: &TestEventSummary<RecordingSpec>,
    ) -> Result<(), AllocError>
        ensures { (start : Self) (events : List RecordedEvent)
            → takes start events self.old
            → OnOk result (takes start (events ++ event.now ∷ []) self.new) };

    /// States that nothing changes by no event.
    ghost takes_none: { (taker : Self) → takes taker [] taker };
}

/// Takes the events of the lines of a log. Each is let go before the next line is read.
///
/// # Errors
///
/// `Line` with the fault of the first line that gives no event. `OutOfMemory` may come at any time.
pub(crate) fn take_lines<T: EventTaker>(
    alloc: Global,
    mut items: LineIter<'_, RecordingSpec>,
    taker: &mut T,
) -> Result<(), ReadingError>
    ensures { TakesLines (λ events. T.takes taker.old events taker.new) items.entry result }
{
    // By a reference: an iterator that owns memory doesn't say what it gave.
    for item in &mut items {
        let event = item?;
        take_and_discard(alloc, event, taker)?;
    }
    Ok(())
}

/// Takes an event and lets it go.
fn take_and_discard<T: EventTaker>(
    alloc: Global,
    event: TestEventSummary<RecordingSpec>,
    taker: &mut T,
) -> Result<(), AllocError>
    ensures { (start : T) (events : List RecordedEvent)
        → T.takes start events taker.old
        → OnOk result (T.takes start (events ++ event ∷ []) taker.new) }
{
    let result = taker.take_event(alloc, &event);
    event.discard();
    result
}

/// Reads the events of a bundle's log.
///
/// # Errors
///
/// - `Bundle` with `MissingFile` or `FileTooLarge` for the log.
/// - `Line` with the fault of the first line of the log that gives no event.
///
/// `OutOfMemory` may come at any time.
pub(crate) fn read_log(
    alloc: Global,
    bundle: &PortableRecording,
) -> Result<Vec<TestEventSummary<RecordingSpec>>, ReadingError>
    ensures { (es : List Entry)
        → IsContainer bundle.now.bytes es
        → ReadsEvents (run_events bundle.now.limit es) result }
{
    let log = bundle.read_run_log(alloc)?;
    read_events(alloc, log.events(alloc))
}

/// Reads the events of the lines of a log.
///
/// # Errors
///
/// `Line` with the fault of the first line that gives no event. `OutOfMemory` may come at any time.
pub(crate) fn read_events(
    alloc: Global,
    mut items: LineIter<'_, RecordingSpec>,
) -> Result<Vec<TestEventSummary<RecordingSpec>>, ReadingError>
    ensures { ReadsEvents (events_of items.entry) result }
{
    let mut events = Vec::new(alloc);
    // By a reference: an iterator that owns memory doesn't say what it gave.
    for item in &mut items {
        let event = item?;
        add_event(&mut events, event)?;
    }
    Ok(events)
}

/// Adds an event. By a call: where there is no room for it, it would be let go in place.
fn add_event(
    events: &mut Vec<TestEventSummary<RecordingSpec>>,
    event: TestEventSummary<RecordingSpec>,
) -> Result<(), AllocError>
    ensures { OnOk result (events.new.items ≡ events.old.items ++ event ∷ []) }
{
    Ok(events.push(event)?)
}
