//! What calls answer that ask for no recorder, and what errors print.

use crate::errors::{printed, too_large};
use rec_container::Container;
use rec_memory_streams::FailingSink;
use rec_store::parts::{extract_entry, read_output};
use rec_store::{
    ConstantNamer, CutOutput, OutputNamer, RunStoreError, Sha256Namer, truncate_output,
};
use std::alloc::{AllocError, Global};
use std::str;
use std::test::Fail;

/// A call, or an error that is printed.
#[derive(Clone, Copy)]
enum Asked<'a> {
    /// An output that is cut to this length.
    Cut(&'a str, usize),
    /// The entry of this path, extracted into a sink whose call of this number fails.
    Extracted(&'a str, u64),
    /// The output of this name.
    Output(&'a str),
    /// The error of this number.
    Error(u64),
    TooLarge,
    /// The error of a store that would be too long.
    CountOutOfRange,
    /// The error of a recorder without memory.
    OutOfMemory,
}

/// A container of the entry `out/1` with the content `hi`.
fn one_entry() -> &'static [u8] {
    b"nxtcont1\x01\0\x05out/1\0\0\0\0\0\0\0\x02hi\0"
}

fn answer(alloc: Global, asked: Asked<'_>) -> Result<String, Fail> {
    match asked {
        Asked::Cut(output, max_size) => Ok(cut(alloc, output, max_size)?),
        Asked::Extracted(path, fails) => extracted(alloc, path, fails),
        Asked::Output(name) => output(alloc, name),
        Asked::Error(number) => Ok(printed(alloc, number)?),
        Asked::TooLarge => Ok(too_large(alloc)?),
        Asked::CountOutOfRange => Ok(format!(in alloc; "{}", RunStoreError::CountOutOfRange)?),
        Asked::OutOfMemory => Ok(format!(in alloc; "{}", RunStoreError::OutOfMemory)?),
    }
}

/// Who holds the bytes of a text that is cut, and these bytes.
fn cut(alloc: Global, output: &str, max_size: usize) -> Result<String, AllocError> {
    let cut = truncate_output(alloc, output.as_bytes(), max_size)?;
    let kept = str::from_utf8(cut.as_bytes()).unwrap_or("no text");
    let text = format!(in alloc; "{} {kept}", holder(&cut));
    drop(cut);
    text
}

fn holder(cut: &CutOutput<'_>) -> &'static str {
    match cut {
        CutOutput::Borrowed(_) => "lent",
        CutOutput::Owned(_) => "owned",
    }
}

/// What is said of an entry that is extracted, and what the sink took.
fn extracted(alloc: Global, path: &str, fails: u64) -> Result<String, Fail> {
    let entries = Container::parse(alloc, one_entry())?;
    let mut sink = FailingSink::new(alloc, 1, vec![in alloc; fails]?);
    sink.reserve(2)?;
    let answer = extract_entry(alloc, &entries, path, &mut sink);
    let taken = str::from_utf8(sink.bytes()).unwrap_or("no text");
    let text = match answer {
        Ok(length) => format!(in alloc; "{length}: {taken}"),
        Err(error) => format!(in alloc; "{error}: {taken}"),
    };
    Ok(text?)
}

/// How many bytes an output has, or why it isn't read.
fn output(alloc: Global, name: &str) -> Result<String, Fail> {
    let entries = Container::parse(alloc, one_entry())?;
    let text = match read_output(alloc, &entries, 100, name) {
        Ok(bytes) => format!(in alloc; "{}", bytes.as_slice().len()),
        Err(error) => format!(in alloc; "{error}"),
    };
    Ok(text?)
}

const ANSWERS: &[(Asked<'static>, &str)] = &[
    (Asked::Cut("", 0), "lent "),
    (Asked::Cut("abcdef", 6), "lent abcdef"),
    (Asked::Cut("hello world", 100), "lent hello world"),
    (
        Asked::Cut("a", 0),
        "owned \n\n... [truncated 1 bytes] ...\n\n",
    ),
    (Asked::Extracted("out/1", 0), "2: hi"),
    (
        Asked::Extracted("out/1", 2),
        "writing the entry out/1 failed: h",
    ),
    (
        Asked::Extracted("out/2", 0),
        "the store has no entry out/2: ",
    ),
    (Asked::Output("1"), "the name 1 says no kind of output"),
    (Asked::Error(0), "there is no run at p"),
    (Asked::Error(1), "there is no store at p"),
    (
        Asked::Error(2),
        "the store at p is no container: no tag at byte 8",
    ),
    (Asked::Error(3), "there is no event log at p"),
    (Asked::Error(4), "the disk failed at p"),
    (Asked::Error(5), "line 7 isn't UTF-8"),
    (Asked::Error(6), "line 8 is no event"),
    (Asked::Error(7), "out of memory"),
    (Asked::Error(8), "the store has no entry p"),
    (
        Asked::Error(9),
        "the entry p has 3 bytes, and the limit is 2",
    ),
    (Asked::Error(10), "the entry p isn't UTF-8"),
    (
        Asked::Error(11),
        "the entry p stands for no item of its kind",
    ),
    (Asked::TooLarge, "b has 3 bytes, and the limit is 2"),
    (
        Asked::CountOutOfRange,
        "the store or the log would have 2^64 bytes or more",
    ),
    (Asked::OutOfMemory, "out of memory"),
];

#[test]
fn calls_answer_and_errors_print_what_they_should(rt: HostRuntime) -> Result<(), Fail> {
    for (asked, want) in ANSWERS {
        let found = answer(rt.alloc(), *asked)?;
        assert!(rt; found.as_str() == *want, "{found}");
    }
    Ok(())
}

#[test]
fn outputs_are_numbered_by_namers(rt: HostRuntime) {
    let namer = ConstantNamer { number: 7 };
    assert!(rt; namer.name(b"") == 7);
    assert!(rt; namer.name(b"abc") == 7);
    assert!(rt; Sha256Namer.name(b"") == 0xe3b0_c442_98fc_1c14);
}
