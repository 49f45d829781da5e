//! The outputs of a run's store, as they are printed behind a view.
ghost use Rattle.std.specs.Option.{option_map};
ghost use Rattle.std.specs.Prelude.{◌≡◌, ◌++◌, List, IfOk, OnOk, map, string_bytes};
ghost use Rattle.rec_container.specs.Container.{Entry, IsContainer, content_of};
ghost use Rattle.rec_store.specs.OutputPaths as paths;
ghost use Rattle.rec_reading.specs.Outputs.{all_found, begins_with, block, found, is_output};
ghost use Rattle.rec_reading.specs.Outputs.{named_paths, output_printed, outputs_of};
ghost use Rattle.rec_reading.specs.Outputs.{outputs_printed, place_of, stored_outputs};
ghost use Rattle.rec_reading.specs.Printing.{Adds};
ghost use Rattle.rec_reading.specs.RunParts.{Answers, OpensEntries, OpensStored, of_bundle};
ghost use Rattle.rec_reading.specs.Stores.{store_part};

use rec_container::Container;
use rec_errors::ReadingError;
use rec_events::{OutputFileName, RecordingSpec, TestEventSummary, Text};
use rec_format::STORE_ZIP_FILE_NAME;
use rec_portable::{PortableRecording, PortableRecordingReadError};
use rec_replay::ReplayConversionError;
use rec_store::{OutputNamer, RecordReadError, Sha256Namer, named_outputs, output_path};
use std::alloc::{AllocError, Global};

/// Adds the outputs of a bundle's run, in the order of its store: of each a line with its path and
/// its length in bytes, then its bytes, and LF. `docs/FORMATS.md#outputs-behind-a-view` describes
/// them.
///
/// # Errors
///
/// The first in this order:
///
/// - `Bundle` with `MissingFile` or `ReadArchive` for the store.
/// - `Conversion` with `FileNotFound` for the first output that an event names, and that the store
///   lacks.
/// - `OutputChanged` for the first output whose name isn't that of its bytes.
///
/// `OutOfMemory` may come at any time. What is left of the text then is not said.
pub(crate) fn add_outputs(
    alloc: Global,
    bundle: &PortableRecording,
    events: &[TestEventSummary<RecordingSpec>],
    text: &mut Vec<u8>,
) -> Result<(), ReadingError>
    ensures { (es : List Entry)
        → IsContainer bundle.now.bytes es
        → Adds (stored_outputs es events.now) text.old.items text.new.items result }
{
    let store = open_entries(alloc, bundle)?;
    let result = add_held(alloc, &store, events, text);
    drop(store);
    result
}

/// Reads the entries of a bundle's store.
fn open_entries(alloc: Global, bundle: &PortableRecording) -> Result<Container<'_>, ReadingError>
    ensures { (es : List Entry)
        → IsContainer bundle.now.bytes es
        → OpensEntries (of_bundle (store_part es)) result }
{
    let entries = store_entries(alloc, bundle.store_window())?;
    Ok(entries)
}

/// Reads the entries of the store that was found.
fn store_entries<'a>(
    alloc: Global,
    found: Option<&'a [u8]>,
) -> Result<Container<'a>, PortableRecordingReadError>
    ensures { OpensStored (option_map (λ b. b.now) found.entry) result }
{
    let Some(bytes) = found else {
        let file_name = Text::from_str(alloc, STORE_ZIP_FILE_NAME)?;
        return Err(PortableRecordingReadError::MissingFile { file_name });
    };
    let entries = Container::parse(alloc, bytes)?;
    Ok(entries)
}

/// Adds the outputs among these entries, once each that an event names is there.
fn add_held(
    alloc: Global,
    store: &Container<'_>,
    events: &[TestEventSummary<RecordingSpec>],
    text: &mut Vec<u8>,
) -> Result<(), ReadingError>
    ensures { Adds (outputs_of store.now.entries events.now)
        text.old.items text.new.items result }
{
    find_all(alloc, store, events)?;
    add_entries(alloc, store, text)
}

/// Finds each output that events name.
fn find_all(
    alloc: Global,
    store: &Container<'_>,
    events: &[TestEventSummary<RecordingSpec>],
) -> Result<(), ReadingError>
    ensures { Answers (all_found store.now.entries (named_paths events.now)) result }
{
    for event in events {
        let names = named_outputs(alloc, event)?;
        find_named(alloc, store, &names)?;
    }
    Ok(())
}

/// Finds the outputs of these names.
fn find_named(
    alloc: Global,
    store: &Container<'_>,
    names: &[OutputFileName],
) -> Result<(), ReadingError>
    ensures { Answers (all_found store.now.entries (map paths.output_path names.now)) result }
{
    for name in names {
        find(alloc, store, *name)?;
    }
    Ok(())
}

/// Finds the output of a name.
fn find(alloc: Global, store: &Container<'_>, name: OutputFileName) -> Result<(), ReadingError>
    ensures { Answers
        (found (paths.output_path name)
        (content_of store.now.entries (paths.output_path name))) result }
{
    let path = output_path(alloc, name)?;
    match store.get(path.as_str()) {
        Some(_) => Ok(()),
        None => {
            let file_name = Text::from_str(alloc, path.as_str())?;
            Err(ReadingError::Conversion(ReplayConversionError::RecordRead(
                RecordReadError::FileNotFound { file_name },
            )))
        }
    }
}

/// Adds the outputs among these entries.
fn add_entries(alloc: Global, store: &Container<'_>, text: &mut Vec<u8>) -> Result<(), ReadingError>
    ensures { Adds (outputs_printed store.now.entries) text.old.items text.new.items result }
{
    for i in 0..store.len() {
        add_entry(alloc, store.name(i), store.bytes(i), text)?;
    }
    Ok(())
}

/// Adds an entry, if it is an output.
fn add_entry(
    alloc: Global,
    name: &str,
    content: &[u8],
    text: &mut Vec<u8>,
) -> Result<(), ReadingError>
    ensures { Adds (output_printed name.now content.now) text.old.items text.new.items result }
{
    if !is_output(name) {
        return Ok(());
    }
    let place = place_of(alloc, content)?;
    if !name.as_bytes().starts_with(place.as_bytes()) {
        let file_name = Text::from_str(alloc, name)?;
        return Err(ReadingError::OutputChanged { file_name });
    }
    Ok(add_block(alloc, name, content, text)?)
}

/// Returns whether an entry of this name is an output.
fn is_output(name: &str) -> bool
    ensures { result ≡ is_output name.now }
{
    name.as_bytes().starts_with(b"out/".as_slice())
}

/// Returns where an output of these bytes stands, without its kind.
fn place_of(alloc: Global, content: &[u8]) -> Result<String, AllocError>
    ensures { IfOk result (λ place. string_bytes place ≡ place_of content.now) }
{
    let mut place = String::from_str(alloc, "out/")?;
    let number = Sha256Namer.name(content);
    place.push_str(hex::encode(alloc, number.to_be_bytes())?.as_str())?;
    Ok(place)
}

/// Adds an output: its path and its length, then its bytes.
fn add_block(
    alloc: Global,
    name: &str,
    content: &[u8],
    text: &mut Vec<u8>,
) -> Result<(), AllocError>
    ensures { OnOk result (text.new.items ≡ text.old.items ++ block name.now content.now) }
{
    let size = content.len();
    let head = format!(in alloc; "{name} {size}\n")?;
    text.extend_from_slice(head.as_bytes())?;
    text.extend_from_slice(content)?;
    text.push(b'\n')?;
    Ok(())
}
