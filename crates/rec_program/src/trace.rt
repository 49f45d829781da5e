//! The trace of the run that a bundle holds.
ghost use Rattle.std.specs.Prelude.{List};
ghost use Rattle.rec_container.specs.Container.{Entry, IsContainer};
ghost use Rattle.rec_reading.specs.Listing.{Makes};
ghost use Rattle.rec_program.specs.BundleTraces.{PrintsTrace};

use crate::log_trace::trace_of_log;
use rec_errors::ReadingError;
use rec_portable::PortableRecording;
use rec_reading::BundleText;
use rec_trace::{ChromeTraceGroupBy, ChromeTraceMessageFormat};
use std::alloc::Global;

/// Prints the trace of the log, as [`trace_text`] makes it.
#[derive(Drop)]
pub struct Trace {
    /// Which process and thread a test is drawn as.
    pub group_by: ChromeTraceGroupBy,
    /// In which form the trace is written.
    pub message_format: ChromeTraceMessageFormat,
}

impl BundleText for Trace {
    ghost prints = { λ trace. PrintsTrace trace.group_by trace.message_format };

    fn text(&self, alloc: Global, bundle: PortableRecording) -> Result<Vec<u8>, ReadingError> {
        let result = trace_text(alloc, &bundle, self.group_by, self.message_format);
        bundle.discard();
        result
    }
}

/// Writes the trace of the log of a bundle, recorded by the version of the runner that its manifest
/// names.
///
/// # Errors
///
/// - `Bundle` with `MissingFile` or `FileTooLarge` for the log.
/// - `Trace` with the first cause of an event before the first line of the log that fails, or else
///   with the fault of this line.
///
/// `OutOfMemory` may come at any time.
pub fn trace_text(
    alloc: Global,
    bundle: &PortableRecording,
    group_by: ChromeTraceGroupBy,
    message_format: ChromeTraceMessageFormat,
) -> Result<Vec<u8>, ReadingError>
    ensures { (es : List Entry)
        → IsContainer bundle.now.bytes es
        → Makes (PrintsTrace group_by message_format bundle.now.limit es) result }
{
    let manifest = bundle.manifest();
    let log = bundle.read_run_log(alloc)?;
    let text = trace_of_log(
        alloc,
        &manifest.run.nextest_version,
        log.events(alloc),
        group_by,
        message_format,
    )?;
    Ok(text)
}
