//! How the slots of a bundle's run were used.
ghost use Rattle.std.specs.Prelude.{◌≡◌, List, map, IfOk, string_bytes};
ghost use Rattle.rec_container.specs.Container.{Entry, IsContainer};
ghost use Rattle.rec_spans.specs.Plain.{plain};
ghost use Rattle.rec_reading.specs.Listing.{Makes};
ghost use Rattle.rec_reading.specs.Slots.{PrintsSlots, PrintsUsage};
ghost use Rattle.rec_reading.specs.Slots.{run_line, slot_line, slot_lines};

use crate::events::read_log;
use rec_errors::ReadingError;
use rec_events::{RecordingSpec, TestEventSummary};
use rec_portable::PortableRecording;
use rec_slots::{SlotReport, SlotUsage, slot_usage};
use std::alloc::{AllocError, Global};

/// Writes how the slots of a bundle's run were used: a line with the length of the run, and then
/// one for each slot on which an attempt started, in rising order. All times are in nanoseconds.
/// The bundle is freed once its events are read.
///
/// # Errors
///
/// - `Bundle` with `MissingFile` or `FileTooLarge` for the log.
/// - `Line` with the fault of the first line of the log that gives no event.
/// - `Slots` with the cause for which the events have no report of their slots.
///
/// `OutOfMemory` may come at any time.
pub fn slots_text(alloc: Global, bundle: PortableRecording) -> Result<Vec<u8>, ReadingError>
    ensures { (es : List Entry)
        → IsContainer bundle.bytes es
        → Makes (PrintsSlots bundle.limit es) result }
{
    let read = read_log(alloc, &bundle);
    bundle.discard();
    let events = read?;
    let result = usage_text(alloc, &events);
    // By a call: in place, each kind of event would be a case of the proof.
    drop(events);
    result
}

/// Writes how the slots of the run in these events were used.
fn usage_text(
    alloc: Global,
    events: &[TestEventSummary<RecordingSpec>],
) -> Result<Vec<u8>, ReadingError>
    ensures { Makes (PrintsUsage (map plain events.now)) result }
{
    let report = slot_usage(alloc, events)?;
    let text = report_lines(alloc, &report)?;
    Ok(text)
}

/// Writes the lines of a report.
fn report_lines(alloc: Global, report: &SlotReport) -> Result<Vec<u8>, AllocError>
    ensures { IfOk result (λ text. text.items ≡ slot_lines report.now) }
{
    let mut text = run_line(alloc, report.run_length)?.into_bytes();
    for usage in report.slots.as_slice() {
        text.extend_from_slice(slot_line(alloc, *usage)?.as_bytes())?;
    }
    Ok(text)
}

/// Makes the line of the run.
#[tactic(auto, unfolding(crate::specs::Slots::run_line))]
fn run_line(alloc: Global, run_length: u128) -> Result<String, AllocError>
    ensures { IfOk result (λ line. string_bytes line ≡ run_line run_length) }
{
    format!(in alloc; "run={run_length}\n")
}

/// Makes the line of a slot.
#[tactic(auto, unfolding(crate::specs::Slots::slot_line))]
fn slot_line(alloc: Global, usage: SlotUsage) -> Result<String, AllocError>
    ensures { IfOk result (λ line. string_bytes line ≡ slot_line usage) }
{
    let SlotUsage {
        slot,
        busy,
        paused,
        idle,
    } = usage;
    format!(in alloc; "slot={slot} busy={busy} paused={paused} idle={idle}\n")
}
