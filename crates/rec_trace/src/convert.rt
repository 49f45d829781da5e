//! Converts a history that comes event by event to its trace.
ghost use Rattle.std.specs.Iterator.{IsFinite};
ghost use Rattle.std.specs.Prelude.{IfOk, IfErr};
ghost use Rattle.rec_trace.specs.Converting.{AddsItem, Converts, HasNoTrace};

use crate::printed_trace::PrintedTrace;
use crate::settings::ChromeTraceMessageFormat;
use rec_codec::LineError;
use rec_events::{RecordingSpec, TestEventSummary, TryClone, Version};
use rec_spans::{ChromeTraceError, ChromeTraceGroupBy};
use std::alloc::Global;

/// Writes the Chrome trace of a history of recorded events, in UTF-8 and in the form asked for. The
/// iterator has to end, and is read up to the first item that is refused. `docs/FORMATS.md#trace`
/// describes the trace.
///
/// # Example
///
/// The trace of a run's log, whose first line has the number 1:
///
/// ```
/// let version = Version::parse(alloc, "0.9.111")?;
/// let events = LineIter::<RecordingSpec>::new(alloc, log, 1);
/// let (group_by, format) = (ChromeTraceGroupBy::Binary, ChromeTraceMessageFormat::Json);
/// let text = convert_to_chrome_trace(alloc, &version, events, group_by, format)?;
/// ```
///
/// # Errors
///
/// The first item that is refused is the cause:
///
/// - `ReadError`: it is a fault of the reader, other than want of memory.
/// - `MissingTestStart`: it is of a test that isn't running: its end, a failed attempt, or that it
///   is slow.
/// - `MissingScriptStart`: it is of a setup script that isn't running: its end, or that it is slow.
/// - `MissingStressSubRunStart`: it ends a sub-run, and none is running.
/// - `SpanAlreadyOpen`: it starts what is running already.
/// - `SlotBusy`: it starts a test on a slot on which another runs.
/// - `TimestampOutOfRange`: its instant in microseconds isn't an i64.
/// - `RowOutOfRange`: it starts a test or a setup script on a row whose number isn't a u64.
/// - `CountOutOfRange`: it counts 2^64 failed tests or running setup scripts or more, or its own
///   number isn't a u64.
///
/// Where an event has several of these causes, the first in the order that `ChromeTraceError` gives
/// is answered. `OutOfMemory` may come at any time, and stands for the reader's want of memory too.
pub fn convert_to_chrome_trace<I>(
    alloc: Global,
    version: &Version,
    events: I,
    group_by: ChromeTraceGroupBy,
    message_format: ChromeTraceMessageFormat,
) -> Result<Vec<u8>, ChromeTraceError>
where
    I: Iterator<Item = Result<TestEventSummary<RecordingSpec>, LineError>> + Drop,
    requires can { I.can_next events }
    requires ends { IsFinite (I.remaining events) }
    ensures trace { IfOk result
        (λ bytes. Converts I.next_gives events group_by message_format version.now bytes.items) }
    ensures no_trace { IfErr result (λ error. HasNoTrace I.next_gives events group_by error) }
{
    let runner = version.try_clone(alloc)?;
    let mut trace = PrintedTrace::new(alloc, runner, group_by, message_format);
    for item in events {
        if let Err(error) = add_item(alloc, &mut trace, item) {
            drop(trace);
            return Err(error);
        }
    }
    let text = trace.into_bytes(alloc)?;
    Ok(text)
}

/// Adds the trace events of an event, or answers the fault that was read in its place. The event is
/// let go here and by a call: to drop one of that many kinds in place is too much for a proof.
fn add_item(
    alloc: Global,
    trace: &mut PrintedTrace,
    item: Result<TestEventSummary<RecordingSpec>, LineError>,
) -> Result<(), ChromeTraceError>
    ensures { AddsItem trace.old trace.new item result }
{
    let event = item?;
    let result = trace.process_event(alloc, &event);
    event.discard();
    result
}
