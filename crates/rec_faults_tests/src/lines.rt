//! The lines and the messages of faults that no input of the program brings about.

use rec_codec::LineError;
use rec_container::{ContainerError, GrowingSink};
use rec_errors::{ReadingError, RecordExportError};
use rec_events::Text;
use rec_faults::{Refusal, write_fault};
use rec_junit::JunitError;
use rec_portable::PortableRecordingReadError;
use rec_replay::ReplayConversionError;
use rec_store::RecordReadError;
use std::alloc::{AllocError, Global};
use std::process::Abort;
use std::test::Fail;
use std::{fmt, str};

/// The line of a fault.
fn line_of<F: Refusal>(alloc: Global, fault: &F) -> Result<String, AllocError> {
    let mut sink = GrowingSink::new(alloc);
    write_fault(fault, &mut sink);
    let line = String::from_str(alloc, str::from_utf8(sink.bytes()).unwrap_or("no text"));
    drop(sink);
    line
}

/// The status and the line of a refusal.
pub(crate) fn shown<F: Refusal>(alloc: Global, error: &F) -> Result<String, AllocError> {
    let status = error.status();
    let line = line_of(alloc, error)?;
    format!(in alloc; "{status} {line}")
}

/// Asserts the status and the line of a refusal.
fn check<F: Refusal + Drop>(
    rt: &impl Abort,
    alloc: Global,
    error: F,
    expected: &str,
) -> Result<(), Fail> {
    let got = shown(alloc, &error);
    drop(error);
    let got = got?;
    assert!(rt; got.as_str() == expected, "{got}");
    Ok(())
}

/// What an error prints, for its reader and for a developer.
fn message<F: fmt::Display + fmt::Debug>(alloc: Global, error: &F) -> Result<String, AllocError> {
    format!(in alloc; "{error}, {error:?}")
}

/// Asserts the status, the line and the message of a refusal.
fn check_message<F: Refusal + fmt::Display + fmt::Debug + Drop>(
    rt: &impl Abort,
    alloc: Global,
    error: F,
    line: &str,
    expected: &str,
) -> Result<(), Fail> {
    let got = message(alloc, &error);
    check(rt, alloc, error, line)?;
    let got = got?;
    let expected = format!(in alloc; "{expected}, {expected}")?;
    assert!(rt; got.as_str() == expected.as_str(), "{got}");
    Ok(())
}

#[test]
fn refusals_of_sessions_are_shown(rt: HostRuntime) -> Result<(), Fail> {
    let alloc = rt.alloc();
    let error = RecordExportError::CountOutOfRange { event: None };
    let message = "a size or a number of entries is out of range";
    check_message(&rt, alloc, error, "9 CountOutOfRange event=None\n", message)?;
    let error = RecordExportError::CountOutOfRange {
        event: Some(u64::MAX),
    };
    let line = "9 CountOutOfRange event=18446744073709551615\n";
    let message = "a number of event 18446744073709551615 is out of range";
    check_message(&rt, alloc, error, line, message)?;
    let error = RecordExportError::CountOutOfRange { event: Some(4) };
    let message = "a number of event 4 is out of range";
    check_message(&rt, alloc, error, "9 CountOutOfRange event=4\n", message)?;
    let error = RecordExportError::MissingStressSubRunStart { event: 5 };
    let line = "8 MissingStressSubRunStart event=5\n";
    let message = "event 5 ends a sub-run, and none is running";
    check_message(&rt, alloc, error, line, message)?;
    let error = RecordExportError::OutOfMemory;
    check_message(&rt, alloc, error, "70 OutOfMemory\n", "out of memory")
}

#[test]
fn refusals_of_bundles_are_shown(rt: HostRuntime) -> Result<(), Fail> {
    let alloc = rt.alloc();
    let error = PortableRecordingReadError::ExtractFile {
        file_name: Text::from_str(alloc, "store.zip")?,
    };
    let error = ReadingError::Bundle(error);
    check(&rt, alloc, error, "11 ExtractFile file_name=store.zip\n")?;
    let error = ReadingError::Line(LineError::OutOfMemory);
    check(&rt, alloc, error, "70 OutOfMemory\n")?;
    let error = ReadingError::Report(JunitError::NotLoadedOutput);
    check(&rt, alloc, error, "13 NotLoadedOutput\n")?;
    let error = ReadingError::Report(JunitError::OutOfMemory);
    check(&rt, alloc, error, "70 OutOfMemory\n")
}

#[test]
fn want_of_memory_is_shown(rt: HostRuntime) -> Result<(), Fail> {
    let alloc = rt.alloc();
    let error = ReadingError::OutOfMemory;
    check_message(&rt, alloc, error, "70 OutOfMemory\n", "out of memory")?;
    let line = line_of(alloc, &AllocError)?;
    assert!(rt; line.as_str() == "AllocError\n");
    Ok(())
}

/// Why a part of a store at a path isn't read.
fn part_at_path(number: usize, path: Text) -> RecordReadError {
    match number {
        0 => RecordReadError::RunNotFound { path },
        1 => RecordReadError::OpenArchive { path },
        2 => RecordReadError::ParseArchive {
            path,
            fault: ContainerError::BadTag { at: 8 },
        },
        3 => RecordReadError::ParseArchive {
            path,
            fault: ContainerError::BadMagic,
        },
        4 => RecordReadError::OpenRunLog { path },
        5 => RecordReadError::DiskFault { path },
        _ => RecordReadError::ExtractFile { store_path: path },
    }
}

/// Why a part of a store isn't read, by the number of its line.
fn part(number: usize, file_name: Text) -> RecordReadError {
    if number < 7 {
        return part_at_path(number, file_name);
    }
    match number {
        7 => RecordReadError::NotUtf8 { file_name },
        8 => RecordReadError::DeserializeMetadata { file_name },
        9 => RecordReadError::UnknownOutputType { file_name },
        10 => RecordReadError::ReadRunLog { line_number: 3 },
        _ => RecordReadError::ParseEvent { line_number: 3 },
    }
}

/// Asserts what is shown of a part of a store, and of one that is an output of an event.
fn check_part(rt: &impl Abort, alloc: Global, number: usize, line: &str) -> Result<(), Fail> {
    let expected = format!(in alloc; "12 {line}\n")?;
    let error = ReadingError::Part(part(number, Text::from_str(alloc, "a/b")?));
    check(rt, alloc, error, expected.as_str())?;
    let expected = format!(in alloc; "13 RecordRead {line}\n")?;
    let part = part(number, Text::from_str(alloc, "a/b")?);
    let error = ReadingError::Conversion(ReplayConversionError::RecordRead(part));
    check(rt, alloc, error, expected.as_str())
}

/// The line of each reason, by its number.
fn part_lines() -> &'static str {
    "\
RunNotFound path=a/b
OpenArchive path=a/b
ParseArchive path=a/b fault=BadTag at=8
ParseArchive path=a/b fault=BadMagic
OpenRunLog path=a/b
DiskFault path=a/b
ExtractFile store_path=a/b
NotUtf8 file_name=a/b
DeserializeMetadata file_name=a/b
UnknownOutputType file_name=a/b
ReadRunLog line_number=3
ParseEvent line_number=3
"
}

#[test]
fn parts_and_outputs_that_are_not_read_are_shown(rt: HostRuntime) -> Result<(), Fail> {
    let alloc = rt.alloc();
    for (number, line) in part_lines().lines().enumerate() {
        check_part(&rt, alloc, number, line)?;
    }
    Ok(())
}
