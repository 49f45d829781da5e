//! The lines of a log that was stopped.
ghost use Rattle.std.specs.Prelude.{◌≡◌, [], Ok, Err, IfOk, MatchOption, map, string_bytes};
ghost use Rattle.rec_codec.specs.Event.{line_event};
ghost use Rattle.rec_codec.specs.Lines.{text_of};
ghost use Rattle.rec_store.specs.OutputPaths as stores;
ghost use Rattle.rec_salvage.specs.Gathering.{IsRead, IsReadItem};
ghost use Rattle.rec_salvage.specs.WholeLines.{Splits, whole_lines};

use rec_codec::{Line, LineError, line_end, read_line};
use rec_events::{OutputFileName, RecordingSpec, TestEventSummary};
use rec_json::Scratch;
use rec_store::{named_outputs, output_path};
use std::alloc::{AllocError, Global};

/// Says what a line of a log stands for.
#[derive(Drop)]
pub(crate) enum LogLine {
    /// Nothing.
    Unsound,
    /// No event, since it is blank.
    Blank,
    /// An event, whose outputs stand at these paths of a store.
    Event(Vec<String>),
}

/// Returns the first line that ends in LF, without it, and what stands after it.
pub(crate) fn split_whole_line(bytes: &[u8]) -> Option<(&[u8], &[u8])>
    ensures { MatchOption result (whole_lines bytes.now ≡ [])
        (λ x. Splits bytes.now x.0.now x.1.now) }
{
    match line_end(bytes) {
        Some(end) => Some((&bytes[..end], &bytes[end + 1..])),
        None => None,
    }
}

/// Reads a line of a log. `scratch` is memory for the read of one line after another.
pub(crate) fn read_log_line(
    alloc: Global,
    line: &[u8],
    scratch: &mut Scratch,
) -> Result<LogLine, AllocError>
    ensures { IfOk result (IsRead (line_event (text_of line.now))) }
{
    // The number is that of a fault, and no fault is shown.
    let line = Line {
        number: 1,
        bytes: line,
    };
    match read_line::<RecordingSpec>(alloc, line, scratch) {
        Some(item) => line_of_item(alloc, item),
        None => Ok(LogLine::Blank),
    }
}

/// Returns what a line stands for that isn't blank.
fn line_of_item(
    alloc: Global,
    item: Result<TestEventSummary<RecordingSpec>, LineError>,
) -> Result<LogLine, AllocError>
    ensures { IfOk result (IsReadItem item) }
{
    match item {
        Ok(event) => line_of_event(alloc, event),
        Err(error) => line_of_fault(error),
    }
}

/// Returns the line of an event.
fn line_of_event(
    alloc: Global,
    event: TestEventSummary<RecordingSpec>,
) -> Result<LogLine, AllocError>
    ensures { IfOk result (IsReadItem (Ok event)) }
{
    let names = named_outputs(alloc, &event);
    event.discard();
    Ok(LogLine::Event(paths_of(alloc, &names?)?))
}

/// Returns the line that has this fault.
fn line_of_fault(error: LineError) -> Result<LogLine, AllocError>
    ensures { IfOk result (IsReadItem (Err error)) }
{
    match error {
        LineError::ReadRunLog { .. } | LineError::ParseEvent { .. } => Ok(LogLine::Unsound),
        LineError::OutOfMemory => Err(AllocError),
    }
}

/// Returns the paths of the outputs of these names.
fn paths_of(alloc: Global, names: &[OutputFileName]) -> Result<Vec<String>, AllocError>
    ensures { IfOk result
        (λ paths. map string_bytes paths.items ≡ map stores.output_path names.now) }
{
    let mut paths = Vec::new(alloc);
    for name in names {
        paths.push(output_path(alloc, *name)?)?;
    }
    Ok(paths)
}
