//! Asks the reader of a directory, and prints what it answers.

use rec_container::GrowingSink;
use rec_directory::{RecordEventIter, RecordReader};
use rec_disk::Disk;
use rec_format::RerunInfo;
use rec_forms::{Form, write_text};
use rec_store::{RecordReadError, StoreReader};
use std::alloc::{AllocError, Global};
use std::str;
use std::test::Fail;

/// More than any of these stores has.
pub(crate) const AMPLE: u64 = 100_000;

/// The store of a run without tests that wrote two outputs.
pub(crate) const STORE: &[u8] = b"nxtcont1\
    \x01\x00\x13meta/test-list.json\x00\x00\x00\x00\x00\x00\x00\x0d{\"suites\":{}}\
    \x01\x00\x18meta/cargo-metadata.json\x00\x00\x00\x00\x00\x00\x00\x02{}\
    \x01\x00\x15meta/record-opts.json\x00\x00\x00\x00\x00\x00\x00\x13{\"run-mode\":\"test\"}\
    \x01\x00\x15meta/build-scope.json\x00\x00\x00\x00\x00\x00\x00\x21{\"build-kind\":\"cargo\",\
    \"scope\":{}}\
    \x01\x00\x1bout/ba7816bf8f01cfea-stdout\x00\x00\x00\x00\x00\x00\x00\x03abc\
    \x01\x00\x1bout/2cf24dba5fb0a30e-stdout\x00\x00\x00\x00\x00\x00\x00\x05hello\x00";

/// A question to the reader of a directory.
#[derive(Clone, Copy)]
pub(crate) enum Question<'q> {
    RunDir,
    Events,
    CargoMetadata,
    TestList,
    RecordOpts,
    BuildScope,
    RerunInfo,
    /// The output of this name.
    Output(&'q str),
    /// The entry of this path, extracted.
    Extracted(&'q str),
}

/// What the directory `r` answers, a line each, or why it isn't opened.
/// Its entries are read up to a limit.
pub(crate) fn answers<D: Disk>(
    alloc: Global,
    disk: &mut D,
    limit: u64,
    questions: &[Question<'_>],
) -> Result<String, Fail> {
    let run_dir = String::from_str(alloc, "r")?;
    match RecordReader::open(alloc, disk, run_dir, limit) {
        Ok(mut reader) => {
            let text = lines(alloc, &mut reader, questions);
            drop(reader);
            text
        }
        Err(fault) => fault_text(alloc, fault),
    }
}

fn lines<D: Disk>(
    alloc: Global,
    reader: &mut RecordReader<'_, D>,
    questions: &[Question<'_>],
) -> Result<String, Fail> {
    let mut text = String::new(alloc);
    for question in questions {
        text.push_str(answer(alloc, reader, *question)?.as_str())?;
        text.push_str("\n")?;
    }
    Ok(text)
}

fn answer<D: Disk>(
    alloc: Global,
    reader: &mut RecordReader<'_, D>,
    question: Question<'_>,
) -> Result<String, Fail> {
    match question {
        Question::RunDir => Ok(String::from_str(alloc, reader.run_dir())?),
        Question::Events => events_text(alloc, reader),
        Question::CargoMetadata => string_text(alloc, reader.read_cargo_metadata(alloc)),
        Question::TestList => item_text(alloc, reader.read_test_list(alloc)),
        Question::RecordOpts => item_text(alloc, reader.read_record_opts(alloc)),
        Question::BuildScope => item_text(alloc, reader.read_build_scope(alloc)),
        Question::RerunInfo => rerun_text(alloc, reader.read_rerun_info(alloc)),
        Question::Output(name) => bytes_text(alloc, reader.read_output(alloc, name)),
        Question::Extracted(path) => extracted_text(alloc, reader, path),
    }
}

/// Why something wasn't read.
fn fault_text(alloc: Global, fault: RecordReadError) -> Result<String, Fail> {
    let text = format!(in alloc; "{fault}");
    drop(fault);
    Ok(text?)
}

fn string_text(alloc: Global, answer: Result<String, RecordReadError>) -> Result<String, Fail> {
    match answer {
        Ok(text) => Ok(text),
        Err(fault) => fault_text(alloc, fault),
    }
}

fn item_text<T: Form + Drop>(
    alloc: Global,
    answer: Result<T, RecordReadError>,
) -> Result<String, Fail> {
    match answer {
        Ok(item) => {
            let bytes = write_text(alloc, &item);
            drop(item);
            text_of(alloc, &bytes?)
        }
        Err(fault) => fault_text(alloc, fault),
    }
}

fn rerun_text(
    alloc: Global,
    answer: Result<Option<RerunInfo>, RecordReadError>,
) -> Result<String, Fail> {
    match answer {
        Ok(Some(info)) => item_text(alloc, Ok(info)),
        Ok(None) => Ok(String::from_str(alloc, "none")?),
        Err(fault) => fault_text(alloc, fault),
    }
}

fn bytes_text(alloc: Global, answer: Result<Vec<u8>, RecordReadError>) -> Result<String, Fail> {
    match answer {
        Ok(bytes) => text_of(alloc, &bytes),
        Err(fault) => fault_text(alloc, fault),
    }
}

/// The length of an entry and its content, or why it isn't extracted.
fn extracted_text<D: Disk>(
    alloc: Global,
    reader: &mut RecordReader<'_, D>,
    path: &str,
) -> Result<String, Fail> {
    let mut out = GrowingSink::new(alloc);
    match reader.extract_file_to_path(alloc, path, &mut out) {
        Ok(length) => Ok(format!(in alloc; "{length}: {}", text_of(alloc, out.bytes())?)?),
        Err(fault) => fault_text(alloc, fault),
    }
}

fn text_of(alloc: Global, bytes: &[u8]) -> Result<String, Fail> {
    Ok(String::from_str(alloc, str::from_utf8(bytes)?)?)
}

/// The items of the log, or why it isn't read.
fn events_text<D: Disk>(alloc: Global, reader: &mut RecordReader<'_, D>) -> Result<String, Fail> {
    match reader.events() {
        Ok(events) => Ok(items(alloc, events)?),
        Err(fault) => fault_text(alloc, fault),
    }
}

fn items<D: Disk>(alloc: Global, events: RecordEventIter<'_, D>) -> Result<String, AllocError> {
    let mut text = String::new(alloc);
    for item in events {
        add_item(&mut text, item.err())?;
    }
    Ok(text)
}

fn add_item(text: &mut String, fault: Option<RecordReadError>) -> Result<(), AllocError> {
    match fault {
        Some(fault) => {
            let written = write!(text, "{fault}. ");
            drop(fault);
            written
        }
        None => text.push_str("event. "),
    }
}
