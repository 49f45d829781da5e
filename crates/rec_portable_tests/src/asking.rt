//! Asks a bundle, and prints what it answers.

use crate::bundles::{Bundle, bytes_of};
use rec_container::{GrowingSink, SliceSource};
use rec_format::{RerunInfo, RunFilesExist};
use rec_forms::{Form, write_text};
use rec_memory_streams::{FailingSink, FailingSource};
use rec_portable::{
    PortableRecording, PortableRecordingReadError, PortableStoreReader, UpgradeError, Upgraded,
    upgrade,
};
use rec_store::{RecordReadError, StoreReader};
use std::alloc::{AllocError, Global};
use std::str;
use std::test::Fail;

/// More than any of these bundles has.
pub(crate) const AMPLE: u64 = 100_000;

/// A question to a bundle.
#[derive(Clone, Copy)]
pub(crate) enum Question<'q> {
    /// Its path, its run, and whether its store and its log are there.
    Whole,
    /// The bytes of its log, and those of its store.
    Windows,
    /// An entry, with its length checked against the limit or not.
    Entry(&'q str, bool),
    /// An entry, into a sink whose second write fails.
    EntryUnwritten(&'q str),
    /// A part of its store.
    Part(Part<'q>),
    /// What is counted where it is upgraded into a sink whose write of this number fails.
    Upgrade(u64),
    /// A source whose second read fails.
    Fault,
}

/// A part of a store.
#[derive(Clone, Copy)]
pub(crate) enum Part<'q> {
    CargoMetadata,
    BuildScope,
    RerunInfo,
    /// The output of this name.
    Output(&'q str),
    /// The entry of this path, extracted.
    Extracted(&'q str),
}

/// What a bundle answers, within a limit on its entries.
pub(crate) fn answer(
    alloc: Global,
    bundle: &Bundle<'_>,
    limit: u64,
    question: Question<'_>,
) -> Result<String, Fail> {
    let bytes = bytes_of(alloc, bundle)?;
    match question {
        Question::Upgrade(fails) => Ok(upgraded(alloc, &bytes, limit, fails)?),
        Question::Fault => Ok(fault(alloc)?),
        _ => opened(alloc, &bytes, limit, question),
    }
}

/// What an upgrade counts, or why there is none, and how many bytes the sink took.
fn upgraded(alloc: Global, bytes: &[u8], limit: u64, fails: u64) -> Result<String, AllocError> {
    let mut sink = FailingSink::new(alloc, 0, vec![in alloc; fails]?);
    sink.reserve(2000)?;
    let mut source = SliceSource::new(bytes);
    let answer = upgrade(alloc, &mut source, AMPLE, limit, &mut sink);
    let text = upgrade_text(alloc, answer)?;
    let taken = sink.bytes().len();
    format!(in alloc; "{text} after {taken}")
}

fn upgrade_text(
    alloc: Global,
    answer: Result<Upgraded, UpgradeError>,
) -> Result<String, AllocError> {
    match answer {
        Ok(counts) => {
            let Upgraded {
                events,
                outputs,
                bundle_bytes,
            } = counts;
            format!(in alloc; "{events} {outputs} {bundle_bytes}")
        }
        Err(error) => {
            let text = format!(in alloc; "{error}");
            drop(error);
            text
        }
    }
}

/// Why a bundle isn't opened whose source fails.
fn fault(alloc: Global) -> Result<String, AllocError> {
    let path = String::from_str(alloc, "run.zip")?;
    let fail_at = [2];
    let mut source = FailingSource::new(b"nxtcont1\0", 4, &fail_at);
    let refusal = PortableRecording::open(alloc, path, &mut source, AMPLE, AMPLE).err();
    refusal_text(alloc, refusal)
}

fn opened(alloc: Global, bytes: &[u8], limit: u64, question: Question<'_>) -> Result<String, Fail> {
    let path = String::from_str(alloc, "run.zip")?;
    let mut source = SliceSource::new(bytes);
    match PortableRecording::open(alloc, path, &mut source, AMPLE, limit) {
        Ok(recording) => {
            let text = answered(alloc, &recording, question);
            drop(recording);
            text
        }
        Err(refusal) => Ok(refusal_text(alloc, Some(refusal))?),
    }
}

fn answered(
    alloc: Global,
    recording: &PortableRecording,
    question: Question<'_>,
) -> Result<String, Fail> {
    match question {
        Question::Windows => Ok(windows(alloc, recording)?),
        Question::Entry(name, check_limit) => Ok(entry(alloc, recording, name, check_limit)?),
        Question::EntryUnwritten(name) => Ok(entry_unwritten(alloc, recording, name)?),
        Question::Part(part) => part_of(alloc, recording.open_store(alloc), part),
        _ => Ok(whole(alloc, recording)?),
    }
}

fn whole(alloc: Global, recording: &PortableRecording) -> Result<String, AllocError> {
    let info = recording.run_info(alloc)?;
    let path = recording.archive_path();
    let store = recording.store_zip_exists();
    let log = recording.run_log_exists();
    let text = format!(in alloc; "{path} {}, store {store}, log {log}", info.run_id);
    drop(info);
    text
}

fn windows(alloc: Global, recording: &PortableRecording) -> Result<String, AllocError> {
    let log = str::from_utf8(recording.log_window().unwrap_or(b"none")).unwrap_or("no text");
    let store = str::from_utf8(recording.store_window().unwrap_or(b"none")).unwrap_or("no text");
    format!(in alloc; "log {log}, store {store}")
}

/// An entry that is written whole, with its length and the length past the limit, or why it isn't.
fn entry(
    alloc: Global,
    recording: &PortableRecording,
    name: &str,
    check_limit: bool,
) -> Result<String, AllocError> {
    let mut out = GrowingSink::new(alloc);
    match recording.extract_outer_file_to_path(alloc, name, &mut out, check_limit) {
        Ok(done) => {
            let written = done.bytes_written;
            let exceeded = done.exceeded_limit.unwrap_or(0);
            let taken = out.bytes().len();
            let content = if taken > 20 { b"long" } else { out.bytes() };
            let content = str::from_utf8(content).unwrap_or("no text");
            format!(in alloc; "{written} of {taken}, past the limit {exceeded}: {content}")
        }
        Err(refusal) => refusal_text(alloc, Some(refusal)),
    }
}

/// Why an entry isn't written into a sink whose second write fails,
/// and how many bytes the sink took.
fn entry_unwritten(
    alloc: Global,
    recording: &PortableRecording,
    name: &str,
) -> Result<String, AllocError> {
    let mut out = FailingSink::new(alloc, 5, vec![in alloc; 2]?);
    out.reserve(64)?;
    let refusal = recording
        .extract_outer_file_to_path(alloc, name, &mut out, false)
        .err();
    let text = refusal_text(alloc, refusal)?;
    let taken = out.bytes().len();
    format!(in alloc; "{text} after {taken}")
}

/// Why a bundle isn't read.
fn refusal_text(
    alloc: Global,
    refusal: Option<PortableRecordingReadError>,
) -> Result<String, AllocError> {
    match refusal {
        Some(refusal) => {
            let text = format!(in alloc; "{refusal}");
            drop(refusal);
            text
        }
        None => String::from_str(alloc, "read"),
    }
}

/// A part of a store, or why there is none.
fn part_of(
    alloc: Global,
    reader: Result<PortableStoreReader<'_>, PortableRecordingReadError>,
    part: Part<'_>,
) -> Result<String, Fail> {
    match reader {
        Ok(mut reader) => {
            let text = part_read(alloc, &mut reader, part);
            drop(reader);
            text
        }
        Err(refusal) => Ok(refusal_text(alloc, Some(refusal))?),
    }
}

fn part_read(
    alloc: Global,
    reader: &mut PortableStoreReader<'_>,
    part: Part<'_>,
) -> Result<String, Fail> {
    match part {
        Part::CargoMetadata => Ok(string_text(alloc, reader.read_cargo_metadata(alloc))?),
        Part::BuildScope => item_text(alloc, reader.read_build_scope(alloc)),
        Part::RerunInfo => rerun_text(alloc, reader.read_rerun_info(alloc)),
        Part::Output(name) => Ok(length_text(alloc, reader.read_output(alloc, name))?),
        Part::Extracted(path) => extracted_text(alloc, reader, path),
    }
}

fn fault_text(alloc: Global, fault: RecordReadError) -> Result<String, AllocError> {
    let text = format!(in alloc; "{fault}");
    drop(fault);
    text
}

fn string_text(
    alloc: Global,
    answer: Result<String, RecordReadError>,
) -> Result<String, AllocError> {
    match answer {
        Ok(text) => Ok(text),
        Err(fault) => fault_text(alloc, fault),
    }
}

fn item_text<T: Form + Drop>(
    alloc: Global,
    answer: Result<T, RecordReadError>,
) -> Result<String, Fail> {
    match answer {
        Ok(item) => {
            let bytes = write_text(alloc, &item);
            drop(item);
            Ok(String::from_str(alloc, str::from_utf8(&bytes?)?)?)
        }
        Err(fault) => Ok(fault_text(alloc, fault)?),
    }
}

fn rerun_text(
    alloc: Global,
    answer: Result<Option<RerunInfo>, RecordReadError>,
) -> Result<String, Fail> {
    match answer {
        Ok(Some(info)) => item_text(alloc, Ok(info)),
        Ok(None) => Ok(String::from_str(alloc, "none")?),
        Err(fault) => Ok(fault_text(alloc, fault)?),
    }
}

/// How many bytes an output has, or why it isn't read.
fn length_text(
    alloc: Global,
    answer: Result<Vec<u8>, RecordReadError>,
) -> Result<String, AllocError> {
    match answer {
        Ok(bytes) => format!(in alloc; "{}", bytes.as_slice().len()),
        Err(fault) => fault_text(alloc, fault),
    }
}

fn extracted_text(
    alloc: Global,
    reader: &mut PortableStoreReader<'_>,
    path: &str,
) -> Result<String, Fail> {
    let mut out = GrowingSink::new(alloc);
    match reader.extract_file_to_path(alloc, path, &mut out) {
        Ok(length) => {
            let content = str::from_utf8(out.bytes()).unwrap_or("no text");
            Ok(format!(in alloc; "{length}: {content}")?)
        }
        Err(fault) => Ok(fault_text(alloc, fault)?),
    }
}
