//! What a viewer wants to know of a bundle's run.
ghost use Rattle.std.specs.Prelude.{◌≡◌, List, IfOk};
ghost use Rattle.rec_container.specs.Container.{Entry, IsContainer};
ghost use Rattle.rec_reading.specs.Listing.{Makes};
ghost use Rattle.rec_reading.specs.ViewParts.{KeepsParts, ReadsParts, parts_line};
ghost use Rattle.rec_reading.specs.Views.{PrintsView, outputs_if, view_line, view_of};

use crate::events::read_log;
use crate::outputs::add_outputs;
use rec_errors::ReadingError;
use rec_events::{Items, RecordingSpec, TestEventSummary, Text, TextMap, TryClone, Version};
use rec_format::RecordedRun;
use rec_portable::PortableRecording;
use rec_replay::LoadOutput;
use std::alloc::{AllocError, Global};

/// Writes what a viewer wants to know of a bundle's run, as one line of compact JSON and LF.
/// `docs/FORMATS.md#view` describes it. Any events have a view. With `Load` the outputs of the
/// store stand behind it, each held against its name. The bundle is freed once it is read.
///
/// # Errors
///
/// The first in this order:
///
/// - `Bundle` with `MissingFile` or `FileTooLarge` for the log.
/// - `Line` with the fault of the first line of the log that gives no event.
/// - with `Load`: `Bundle` with `MissingFile` or `ReadArchive` for the store; `Conversion` with the
///   first output that an event names and that isn't there; `OutputChanged` with the first output
///   whose name isn't that of its bytes.
///
/// `OutOfMemory` may come at any time.
pub fn view_text(
    alloc: Global,
    bundle: PortableRecording,
    load_output: LoadOutput,
) -> Result<Vec<u8>, ReadingError>
    ensures { (es : List Entry)
        → IsContainer bundle.bytes es
        → Makes (PrintsView load_output bundle.limit es) result }
{
    let read = ViewParts::read(alloc, &bundle, load_output);
    bundle.discard();
    let parts = read?;
    let result = parts.text(alloc);
    // By a call: in place, each kind of event would be a case of the proof.
    drop(parts);
    Ok(result?)
}

/// Holds what a view is made of, beside its bundle.
#[derive(Drop)]
pub(crate) struct ViewParts {
    run: RecordedRun,
    events: Vec<TestEventSummary<RecordingSpec>>,
    /// The text of the outputs, which is empty where they aren't loaded.
    outputs: Vec<u8>,
}

impl ViewParts {
    /// Reads the parts of a view of a bundle's run.
    fn read(
        alloc: Global,
        bundle: &PortableRecording,
        load_output: LoadOutput,
    ) -> Result<ViewParts, ReadingError>
        ensures { (es : List Entry)
            → IsContainer bundle.now.bytes es
            → ReadsParts (view_of load_output bundle.now.limit es) result }
    {
        let run = &bundle.manifest().run;
        let events = read_log(alloc, bundle)?;
        match read_beside(alloc, bundle, load_output, run, &events) {
            Ok((run, outputs)) => Ok(ViewParts {
                run,
                events,
                outputs,
            }),
            Err(error) => {
                drop(events);
                Err(error)
            }
        }
    }

    /// Writes the view.
    fn text(&self, alloc: Global) -> Result<Vec<u8>, AllocError>
        ensures { IfOk result (λ text. text.items ≡ parts_line self.now) }
    {
        let mut text = line_text(alloc, &self.run, &self.events)?;
        text.extend_from_slice(&self.outputs)?;
        Ok(text)
    }
}

/// Copies the run, and reads the outputs if they are loaded.
fn read_beside(
    alloc: Global,
    bundle: &PortableRecording,
    load_output: LoadOutput,
    run: &RecordedRun,
    events: &[TestEventSummary<RecordingSpec>],
) -> Result<(RecordedRun, Vec<u8>), ReadingError>
    ensures { (es : List Entry)
        → IsContainer bundle.now.bytes es
        → KeepsParts run.now (outputs_if load_output es events.now) result }
{
    let outputs = read_outputs(alloc, bundle, load_output, events)?;
    let run = copy_run(alloc, run)?;
    Ok((run, outputs))
}

/// Reads the outputs if they are loaded.
fn read_outputs(
    alloc: Global,
    bundle: &PortableRecording,
    load_output: LoadOutput,
    events: &[TestEventSummary<RecordingSpec>],
) -> Result<Vec<u8>, ReadingError>
    ensures { (es : List Entry)
        → IsContainer bundle.now.bytes es
        → Makes (λ r. outputs_if load_output es events.now ≡ r) result }
{
    let mut text = Vec::new(alloc);
    match load_output {
        LoadOutput::Skip => Ok(text),
        LoadOutput::Load => {
            add_outputs(alloc, bundle, events, &mut text)?;
            Ok(text)
        }
    }
}

/// Copies what is said of a run.
fn copy_run(alloc: Global, run: &RecordedRun) -> Result<RecordedRun, AllocError>
    ensures { IfOk result (λ copy. copy ≡ run.now) }
{
    let (nextest_version, cli_args, env_vars) = copy_owned(alloc, run)?;
    Ok(RecordedRun {
        run_id: run.run_id,
        store_format_version: run.store_format_version,
        store_format_minor_version: run.store_format_minor_version,
        nextest_version,
        started_at: run.started_at,
        last_written_at: run.last_written_at,
        duration: run.duration,
        cli_args,
        env_vars,
        parent_run_id: run.parent_run_id,
        sizes: run.sizes,
        status: run.status,
    })
}

/// Copies what a run owns, in one call: each copy in place would be held over the next.
fn copy_owned(
    alloc: Global,
    run: &RecordedRun,
) -> Result<(Version, Items<Text>, TextMap<Text>), AllocError>
    ensures { IfOk result
        (λ copies. copies ≡ (run.now.nextest_version, run.now.cli_args, run.now.env_vars)) }
{
    let nextest_version = run.nextest_version.try_clone(alloc)?;
    let cli_args = run.cli_args.try_clone(alloc)?;
    let env_vars = run.env_vars.try_clone(alloc)?;
    Ok((nextest_version, cli_args, env_vars))
}

/// Writes the view of a run with these events, and LF.
fn line_text(
    alloc: Global,
    run: &RecordedRun,
    events: &[TestEventSummary<RecordingSpec>],
) -> Result<Vec<u8>, AllocError>
    ensures { IfOk result (λ text. text.items ≡ view_line run.now events.now) }
{
    let mut text = rec_view_json::view_text(alloc, run, events)?.into_bytes();
    text.push(b'\n')?;
    Ok(text)
}
