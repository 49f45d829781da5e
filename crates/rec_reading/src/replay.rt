//! The lines of a replay.
ghost use Rattle.std.specs.Prelude.{◌≡◌, ◌++◌, List, IfErr, Ok, OnOk};
ghost use Rattle.rec_container.specs.Container.{Entry, IsContainer};
ghost use Rattle.rec_format.specs.Runs.{info_of};
ghost use Rattle.rec_replay.specs.Lines.{header_line, line_text};
ghost use Rattle.rec_errors.specs.declared.reading_error.ReadingError.TheVariants.{OutOfMemory};
ghost use Rattle.rec_reading.specs.Listing.{Makes, PrintsReplay, header_of};

use crate::parts::OpenRun;
use crate::printer::EventPrinter;
use crate::run::print_run;
use rec_container::GrowingSink;
use rec_errors::ReadingError;
use rec_events::TestEvent;
use rec_format::PortableManifest;
use rec_portable::PortableRecording;
use rec_replay::{EventReporter, LineReporter, LoadOutput, OutputLoadDecider, ReplayHeader};
use std::alloc::Global;

/// Writes the lines of a bundle's replay: that of its head, and then one for each event of the log
/// that has one. Each test of the test list may be named. With `Skip` no output is read.
///
/// # Errors
///
/// The first in this order:
///
/// - `Bundle` with `MissingFile` or `FileTooLarge` for the log.
/// - `Bundle` with `MissingFile` or `ReadArchive` for the store.
/// - `Part` with why the record options aren't read, and then with why the test list isn't.
/// - for the first line of the log that fails: `Line` where it gives no event, and `Conversion`
///   where its event isn't replayed.
///
/// `OutOfMemory` may come at any time.
pub fn replay_text(
    alloc: Global,
    bundle: &PortableRecording,
    load_output: LoadOutput,
) -> Result<Vec<u8>, ReadingError>
    ensures { (es : List Entry)
        → IsContainer bundle.now.bytes es
        → Makes (PrintsReplay load_output bundle.now.limit es) result }
{
    let mut text = header_text(alloc, bundle.manifest())?;
    let mut run = OpenRun::read(alloc, bundle)?;
    print_run(alloc, &mut run, load_output, &mut LinePrinter, &mut text)?;
    Ok(text)
}

/// Prints the line of each event.
#[derive(Drop)]
struct LinePrinter;

impl EventPrinter for LinePrinter {
    ghost use Rattle.std.specs.Prelude.{⊤};
    ghost use Rattle.rec_reading.specs.PrinterLaws.{line_blind};
    ghost use Rattle.rec_reading.specs.Printing.{line_prints};

    ghost prints = { λ _. line_prints };

    ghost stands = { λ _ _. ⊤ };

    fn print(
        &mut self,
        alloc: Global,
        event: &TestEvent<'_>,
        text: &mut Vec<u8>,
    ) -> Result<(), ReadingError> {
        let mut line = GrowingSink::new(alloc);
        write_line(alloc, &mut line, event)?;
        text.extend_from_slice(line.bytes())?;
        Ok(())
    }

    ghost blind = { λ _. line_blind };
}

/// Writes the line of an event.
fn write_line(
    alloc: Global,
    sink: &mut GrowingSink,
    event: &TestEvent<'_>,
) -> Result<(), ReadingError>
    ensures line { OnOk result (sink.new.bytes ≡ sink.old.bytes ++ line_text event.now) }
    ensures memory { IfErr result (λ e. e ≡ OutOfMemory) }
{
    let mut reporter = LineReporter::new(alloc, sink, OutputLoadDecider::Always);
    match reporter.write_event(event) {
        Ok(()) => Ok(()),
        // A sink in memory fails only for want of memory.
        Err(_) => Err(ReadingError::OutOfMemory),
    }
}

/// Writes the line of the head of a replay.
fn header_text(alloc: Global, manifest: &PortableManifest) -> Result<Vec<u8>, ReadingError>
    ensures { Makes (λ r. Ok (header_line (header_of (info_of manifest.now.run))) ≡ r) result }
{
    let header = replay_header(manifest);
    let mut sink = GrowingSink::new(alloc);
    write_header(alloc, &mut sink, &header)?;
    Ok(sink.into_bytes())
}

/// Makes the head of a replay.
fn replay_header(manifest: &PortableManifest) -> ReplayHeader
    ensures { result ≡ header_of (info_of manifest.now.run) }
{
    let run = &manifest.run;
    ReplayHeader {
        run_id: run.run_id,
        unique_prefix: None,
        started_at: run.started_at,
        status: run.status.into(),
    }
}

/// Writes the line of a head.
fn write_header(
    alloc: Global,
    sink: &mut GrowingSink,
    header: &ReplayHeader,
) -> Result<(), ReadingError>
    ensures line { OnOk result (sink.new.bytes ≡ sink.old.bytes ++ header_line header.now) }
    ensures memory { IfErr result (λ e. e ≡ OutOfMemory) }
{
    let mut reporter = LineReporter::new(alloc, sink, OutputLoadDecider::Always);
    match reporter.write_header(header) {
        Ok(()) => Ok(()),
        // As in `write_line`.
        Err(_) => Err(ReadingError::OutOfMemory),
    }
}
