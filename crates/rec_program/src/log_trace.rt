//! The trace of the log of a recorded run.
ghost use Rattle.rec_program.specs.LogTraces.{TracesLog};

use rec_codec::LineIter;
use rec_events::{RecordingSpec, Version};
use rec_trace::{
    ChromeTraceError, ChromeTraceGroupBy, ChromeTraceMessageFormat, convert_to_chrome_trace,
};
use std::alloc::Global;

/// Writes the trace of the events of a log, recorded by this version of the runner. A log without a
/// refusal has a trace, unless memory runs out. It is a call of its own, so that its clause, which
/// speaks of the lines of a log, can rest on those of [`convert_to_chrome_trace`].
///
/// # Errors
///
/// The cause that comes first in the log: why an event can't be drawn, or `ReadError` for a line
/// that isn't UTF-8 or no event. `OutOfMemory` may come at any time.
pub(crate) fn trace_of_log(
    alloc: Global,
    version: &Version,
    events: LineIter<'_, RecordingSpec>,
    group_by: ChromeTraceGroupBy,
    message_format: ChromeTraceMessageFormat,
) -> Result<Vec<u8>, ChromeTraceError>
    ensures { TracesLog group_by message_format version.now events.entry result }
{
    convert_to_chrome_trace(alloc, version, events, group_by, message_format)
}
